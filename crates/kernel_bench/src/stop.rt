//! Why the program stops early.

use ass_num::OutOfMemory;
use std::alloc::{AllocError, AllocFailed};
use std::io;

/// The ways in which the program ends before its last line.
#[derive(Debug, Drop)]
pub enum Stop {
    /// The words aren't `KERNEL SIZE TURNS`.
    UnknownWords,
    /// The kernel takes no input of this size.
    SizeOutOfRange,
    OutOfMemory,
    Io(io::Error),
}

impl From<OutOfMemory> for Stop {
    fn from(_refused: OutOfMemory) -> Stop {
        Stop::OutOfMemory
    }
}

impl From<AllocError> for Stop {
    fn from(_refused: AllocError) -> Stop {
        Stop::OutOfMemory
    }
}

impl<T: Drop> From<AllocFailed<T>> for Stop {
    fn from(_refused: AllocFailed<T>) -> Stop {
        Stop::OutOfMemory
    }
}

impl From<io::Error> for Stop {
    fn from(fault: io::Error) -> Stop {
        Stop::Io(fault)
    }
}

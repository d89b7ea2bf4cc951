//! Why a script isn't read.

ghost use Rattle.std.specs.Prelude.{◌≡◌};
ghost use Rattle.ass_script.specs.declared.refusal.ScriptRefusal.TheVariants.{OutOfMemory as memory_refusal};

use ass_num::OutOfMemory;
use std::alloc::AllocError;

/// Why a script isn't read.
#[derive(Clone, Copy, Debug, PartialEq, Eq)]
pub enum ScriptRefusal {
    /// The bytes aren't UTF-8; their longest valid front has so many bytes.
    NotUtf8(usize),
    /// No line is the heading `[Events]`.
    NoEvents,
    /// There are more Dialogue lines than this many.
    TooManyLines(usize),
    /// There are more Style lines than this many.
    TooManyStyles(usize),
    /// Memory was wanting.
    OutOfMemory,
}

impl From<OutOfMemory> for ScriptRefusal {
    ghost from_gives = { λ _ refusal. refusal ≡ memory_refusal };

    fn from(_refused: OutOfMemory) -> ScriptRefusal {
        ScriptRefusal::OutOfMemory
    }
}

impl From<AllocError> for ScriptRefusal {
    ghost from_gives = { λ _ refusal. refusal ≡ memory_refusal };

    fn from(_refused: AllocError) -> ScriptRefusal {
        ScriptRefusal::OutOfMemory
    }
}

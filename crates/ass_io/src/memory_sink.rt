//! A sink in memory.

ghost use Rattle.std.specs.Prelude.{Some};

use crate::piece_log::PieceLog;
use crate::piped_sink::PipedSink;
use crate::sink::{Put, Sink};
use std::alloc::Global;

/// A sink in memory, which tells what it holds and never fails.
#[derive(Drop)]
pub struct MemorySink {
    bytes: Vec<u8>,
    asked: PieceLog,
}

impl MemorySink {
    ghost use Rattle.std.specs.Prelude.{◌≡◌, []};
    ghost use Rattle.ass_io.specs.MemorySinks.{asked_of, bytes_of};

    /// An empty sink, which takes no memory.
    pub fn new(alloc: Global) -> MemorySink
        ensures bytes { bytes_of result ≡ [] }
        ensures asked { asked_of result ≡ [] }
    {
        MemorySink {
            bytes: Vec::new(alloc),
            asked: PieceLog::new(),
        }
    }

    /// What it holds.
    pub fn bytes(&self) -> &[u8]
        ensures { result.now ≡ bytes_of self.now }
    {
        self.bytes.as_slice()
    }
}

impl Sink for MemorySink {
    ghost use Rattle.std.specs.Prelude.{[]};
    ghost use Rattle.ass_io.specs.MemorySinks.{asked_of, bytes_of};

    ghost state = { λ s. record { held = Some (bytes_of s); faults = 0; asked = asked_of s; made = [] } };

    fn put(&mut self, piece: &[u8]) -> Put {
        self.asked.note(piece);
        match self.bytes.extend_from_slice(piece) {
            Ok(()) => Put::Done,
            Err(_) => Put::OutOfMemory,
        }
    }
}

impl PipedSink for MemorySink {
    ghost use Rattle.std.specs.Prelude.{false};

    ghost closed = { λ _. false };

    fn is_closed(&self) -> bool {
        false
    }
}

//! A sink that fails at chosen calls.

ghost use Rattle.std.specs.Prelude.{Some};

use crate::count::count_one;
use crate::memory_sink::MemorySink;
use crate::piece_log::PieceLog;
use crate::piped_sink::PipedSink;
use crate::plan::Plan;
use crate::sink::{Put, Sink};

/// A sink in memory that fails at the puts whose numbers, from 1, are in a list. A failing put
/// appends the first half of its piece, rounded down.
#[derive(Drop)]
pub struct FailingSink {
    sink: MemorySink,
    plan: Plan,
    faults: u64,
    closes: bool,
    asked: PieceLog,
}

impl FailingSink {
    ghost use Rattle.std.specs.Prelude.{◌≡◌, false, true};
    ghost use Rattle.ass_io.specs.Failing.{asked_puts, bytes_in, failing_puts, is_closing};
    ghost use Rattle.ass_io.specs.MemorySinks.{bytes_of};

    /// A sink that holds what that one holds, and fails at these puts.
    pub fn new(sink: MemorySink, fails: Vec<u64>) -> FailingSink
        ensures bytes { bytes_in result ≡ bytes_of sink }
        ensures fails { failing_puts result ≡ fails.items }
        ensures puts { asked_puts result ≡ 0 }
        ensures closes { is_closing result ≡ false }
    {
        FailingSink {
            sink,
            plan: Plan::new(fails),
            faults: 0,
            closes: false,
            asked: PieceLog::new(),
        }
    }

    /// The same, but its reader is gone from the first put on that fails.
    pub fn closing(sink: MemorySink, fails: Vec<u64>) -> FailingSink
        ensures bytes { bytes_in result ≡ bytes_of sink }
        ensures fails { failing_puts result ≡ fails.items }
        ensures puts { asked_puts result ≡ 0 }
        ensures closes { is_closing result ≡ true }
    {
        let mut sink = FailingSink::new(sink, fails);
        sink.closes = true;
        sink
    }

    /// What it holds.
    pub fn bytes(&self) -> &[u8]
        ensures { result.now ≡ bytes_in self.now }
    {
        self.sink.bytes()
    }
}

impl Sink for FailingSink {
    ghost use Rattle.std.specs.Prelude.{[]};
    ghost use Rattle.ass_io.specs.Failing.{bytes_in};

    ghost state = { λ s. record { held = Some (bytes_in s); faults = s.faults; asked = s.asked.pieces; made = [] } };

    fn put(&mut self, piece: &[u8]) -> Put {
        self.asked.note(piece);
        if !self.plan.next_fails() {
            return self.sink.put(piece);
        }
        match self.sink.put(&piece[..piece.len() / 2]) {
            Put::OutOfMemory => Put::OutOfMemory,
            Put::Done | Put::Failed => {
                count_one(&mut self.faults);
                Put::Failed
            }
        }
    }
}

impl PipedSink for FailingSink {
    ghost use Rattle.std.specs.Prelude.{◌&&◌, nat_lt};
    ghost use Rattle.ass_io.specs.Failing.{is_closing};

    ghost closed = { λ s. is_closing s && nat_lt 0 s.faults };

    fn is_closed(&self) -> bool {
        self.closes && self.faults > 0
    }
}

//! A sink over a standard stream.

ghost use Rattle.std.specs.Prelude.{◌≡◌, [], None, OnOk};
ghost use Rattle.std.specs.Io.KnownBytes.{Appends};
ghost use Rattle.ass_io.specs.Sinks.{IsPutAnswered};

use crate::count::count_one;
use crate::piece_log::PieceLog;
use crate::piped_sink::PipedSink;
use crate::sink::{Put, Sink};
use std::io::{self, Write};

/// A sink over a standard stream, which tells no contents. A stream that takes nothing of a piece
/// that isn't empty has failed.
#[derive(Drop)]
pub struct StdSink<W: Write + Drop> {
    stream: W,
    faults: u64,
    is_closed: bool,
    asked: PieceLog,
}

impl<W: Write + Drop> StdSink<W> {
    ghost use Rattle.ass_io.specs.StdSinks.{stream_of};

    /// A sink over this stream.
    pub fn new(stream: W) -> StdSink<W>
        ensures { stream_of result ≡ stream }
    {
        StdSink {
            stream,
            faults: 0,
            is_closed: false,
            asked: PieceLog::new(),
        }
    }
}

impl<W: Write + Drop> Sink for StdSink<W> {
    ghost use Rattle.ass_io.specs.StdSinks.{IsClosedAfter, stream_of};

    ghost state = { λ s. record { held = None; faults = s.faults; asked = s.asked.pieces; made = [] } };

    fn put(&mut self, piece: &[u8]) -> Put
        ensures put { IsPutAnswered piece.now result (record { held = None; faults = self.old.faults; asked = self.old.asked.pieces; made = [] })
            (record { held = None; faults = self.new.faults; asked = self.new.asked.pieces; made = [] }) }

        // A stream that tells what it holds has the whole piece at `Done`.
        ensures written { result ≡ Put.Done →
            Appends (W.contents (stream_of self.old)) (W.contents (stream_of self.new)) piece.now }
        ensures closed { IsClosedAfter result self.old.is_closed self.new.is_closed }
    {
        self.asked.note(piece);
        match write_through(&mut self.stream, piece) {
            Ok(()) => Put::Done,
            Err(refused) => {
                count_one(&mut self.faults);
                self.is_closed = self.is_closed || refused.kind() == io::ErrorKind::BrokenPipe;
                Put::Failed
            }
        }
    }
}

impl<W: Write + Drop> PipedSink for StdSink<W> {
    ghost closed = { λ s. s.is_closed };

    fn is_closed(&self) -> bool {
        self.is_closed
    }
}

/// Writes a piece, and whatever the stream holds back.
pub fn write_through<W: Write>(stream: &mut W, piece: &[u8]) -> io::Result<()>
    ensures { OnOk result (Appends (W.contents stream.old) (W.contents stream.new) piece.now) }
{
    stream.write_all(piece)?;
    stream.flush()
}

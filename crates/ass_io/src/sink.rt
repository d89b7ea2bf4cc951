//! Where bytes go.

ghost use Rattle.ass_io.specs.Sinks.{IsPutAnswered, SinkState};

/// How a put ended.
#[derive(Clone, Copy, Debug, PartialEq, Eq)]
pub enum Put {
    /// The whole piece was appended.
    Done,
    /// The sink failed, and a prefix of the piece, or nothing, was appended.
    Failed,
    /// Memory was wanting, and nothing was appended.
    OutOfMemory,
}

/// A sink, by the bytes that it holds, where it tells them, by a count of its faults, by the pieces that it was asked to put,
/// which real streams have too, and by the names of the files that it made.
pub trait Sink {
    ghost state: { Self → SinkState };

    /// Appends a piece.
    fn put(&mut self, piece: &[u8]) -> Put
        ensures { IsPutAnswered piece.now result (state self.old) (state self.new) };
}

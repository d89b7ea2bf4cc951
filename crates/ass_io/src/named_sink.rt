//! Where bytes go that may go to a file.

ghost use Rattle.ass_io.specs.Outputs.{IsMakingAnswered};

use crate::sink::Sink;

/// How the making of a file ended.
#[derive(Clone, Copy, Debug, PartialEq, Eq)]
pub enum Making {
    /// The file is there, and empty.
    Made,
    /// It couldn't be made.
    Failed,
    /// Memory was wanting.
    OutOfMemory,
}

/// A sink that can be told the name of a file. All that it is put goes to the file that it made last, and before to the stream
/// that it began with.
pub trait NamedSink: Sink {
    /// Makes the file of this name, empty, in place of what had the name. After any answer but `Made` pieces go where they went.
    fn make(&mut self, name: &str) -> Making
        ensures { IsMakingAnswered name.now result (Self.state self.old) (Self.state self.new) };
}

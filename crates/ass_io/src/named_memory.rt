//! A sink in memory that can be told names.

ghost use Rattle.std.specs.Prelude.{◌≡◌};
ghost use Rattle.ass_io.specs.Outputs.{IsMakingAnswered};

use crate::count::count_one;
use crate::failing_sink::FailingSink;
use crate::named_sink::{Making, NamedSink};
use crate::piece_log::PieceLog;
use crate::sink::{Put, Sink};

/// A sink in memory that makes each file that it is told of, or none. It holds all that it was put: what went to the stream,
/// and behind it what went to files.
#[derive(Drop)]
pub struct NamedMemory {
    sink: FailingSink,
    makes: bool,
    file_at: Option<usize>,
    faults: u64,
    asked: PieceLog,
    made: PieceLog,
}

impl NamedMemory {
    ghost use Rattle.std.specs.Prelude.{[], None};
    ghost use Rattle.ass_io.specs.Failing.{bytes_in};
    ghost use Rattle.ass_io.specs.NamedMemories.{bytes_put, file_place, made_files, makes_files};

    /// A sink that puts to that one, and makes files or fails to.
    pub fn new(sink: FailingSink, makes: bool) -> NamedMemory
        ensures bytes { bytes_put result ≡ bytes_in sink }
        ensures made { made_files result ≡ [] }
        ensures makes { makes_files result ≡ makes }
        ensures place { file_place result ≡ None }
    {
        NamedMemory {
            sink,
            makes,
            file_at: None,
            faults: 0,
            asked: PieceLog::new(),
            made: PieceLog::new(),
        }
    }

    /// What it holds.
    pub fn bytes(&self) -> &[u8]
        ensures { result.now ≡ bytes_put self.now }
    {
        self.sink.bytes()
    }

    /// How many bytes it held before it made the last file.
    pub fn file_at(&self) -> Option<usize>
        ensures { result ≡ file_place self.now }
    {
        self.file_at
    }
}

impl Sink for NamedMemory {
    ghost use Rattle.ass_io.specs.NamedMemories.{named_memory_state};

    ghost state = { λ s. named_memory_state s };

    fn put(&mut self, piece: &[u8]) -> Put {
        self.asked.note(piece);
        let put = self.sink.put(piece);
        if put == Put::Failed {
            count_one(&mut self.faults);
        }
        put
    }
}

impl NamedSink for NamedMemory {
    ghost use Rattle.ass_io.specs.NamedMemories.{bytes_put, file_place, makes_files, making_of, named_memory_state, place_after};

    fn make(&mut self, name: &str) -> Making
        ensures made { IsMakingAnswered name.now result (named_memory_state self.old) (named_memory_state self.new) }
        ensures answer { result ≡ making_of (makes_files self.old) }
        ensures makes { makes_files self.new ≡ makes_files self.old }
        ensures place { file_place self.new ≡ place_after result (file_place self.old) (bytes_put self.old) }
    {
        if !self.makes {
            count_one(&mut self.faults);
            return Making::Failed;
        }
        self.file_at = Some(self.sink.bytes().len());
        self.made.note(name.as_bytes());
        Making::Made
    }
}

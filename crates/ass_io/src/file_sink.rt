//! A sink over a standard stream, or over a real file.

ghost use Rattle.std.specs.Prelude.{◌≡◌, [], None, OnOk};
ghost use Rattle.ass_io.specs.Outputs.{IsMakingAnswered};
ghost use Rattle.ass_io.specs.Sinks.{IsPutAnswered};

use crate::count::count_one;
use crate::named_sink::{Making, NamedSink};
use crate::piece_log::PieceLog;
use crate::sink::{Put, Sink};
use crate::std_sink::write_through;
use std::fs;
use std::io::{self, Write};
use std::rt::Files;

/// A sink over a standard stream, until it is told the name of a file. It tells no contents.
#[derive(Drop)]
pub struct FileSink<W: Write + Drop, R: Files + Drop> {
    stream: W,
    rt: R,
    file: Option<R::File>,
    faults: u64,
    asked: PieceLog,
    made: PieceLog,
}

impl<W: Write + Drop, R: Files + Drop> FileSink<W, R> {
    ghost use Rattle.ass_io.specs.FileSinks.{IsApart, IsSent, first_stream, last_file, names_made};

    /// A sink over this stream, and the files that the runtime makes.
    pub fn new(stream: W, rt: R) -> FileSink<W, R>
        ensures stream { first_stream result ≡ stream }
        ensures file { last_file result ≡ None }
        ensures made { names_made result ≡ [] }
    {
        FileSink {
            stream,
            rt,
            file: None,
            faults: 0,
            asked: PieceLog::new(),
            made: PieceLog::new(),
        }
    }

    /// Writes a piece to the file, or to the stream.
    fn write(&mut self, piece: &[u8]) -> io::Result<()>
        ensures faults { self.new.faults ≡ self.old.faults }
        ensures asked { self.new.asked.pieces ≡ self.old.asked.pieces }
        ensures made { self.new.made.pieces ≡ self.old.made.pieces }
        ensures apart { IsApart self.old.file self.new.file self.old.stream self.new.stream }
        ensures sent { OnOk result (IsSent W.contents R.File.contents self.old.file self.new.file
            self.old.stream self.new.stream piece.now) }
    {
        match &mut self.file {
            Some(file) => write_through(file, piece),
            None => write_through(&mut self.stream, piece),
        }
    }
}

impl<W: Write + Drop, R: Files + Drop> Sink for FileSink<W, R> {
    ghost use Rattle.ass_io.specs.FileSinks.{IsApart, IsSent, file_sink_state, first_stream, last_file};

    ghost state = { λ s. file_sink_state s };

    fn put(&mut self, piece: &[u8]) -> Put
        ensures put { IsPutAnswered piece.now result (file_sink_state self.old) (file_sink_state self.new) }

        // Once there is a file, nothing goes to the stream.
        ensures apart { IsApart (last_file self.old) (last_file self.new) (first_stream self.old) (first_stream self.new) }
        ensures sent { result ≡ Put.Done → IsSent W.contents R.File.contents (last_file self.old) (last_file self.new)
            (first_stream self.old) (first_stream self.new) piece.now }
    {
        self.asked.note(piece);
        match self.write(piece) {
            Ok(()) => Put::Done,
            Err(_) => {
                count_one(&mut self.faults);
                Put::Failed
            }
        }
    }
}

impl<W: Write + Drop, R: Files + Drop> NamedSink for FileSink<W, R> {
    ghost use Rattle.ass_io.specs.FileSinks.{IsFileAfter, file_sink_state, first_stream, last_file};

    fn make(&mut self, name: &str) -> Making
        ensures made { IsMakingAnswered name.now result (file_sink_state self.old) (file_sink_state self.new) }
        ensures file { IsFileAfter result (last_file self.old) (last_file self.new) }
        ensures stream { first_stream self.new ≡ first_stream self.old }
    {
        match fs::create(&self.rt, name) {
            Ok(file) => {
                self.file = Some(file);
                self.made.note(name.as_bytes());
                Making::Made
            }
            Err(refused) if refused.kind() == io::ErrorKind::OutOfMemory => Making::OutOfMemory,
            Err(_) => {
                count_one(&mut self.faults);
                Making::Failed
            }
        }
    }
}

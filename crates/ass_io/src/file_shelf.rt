//! A shelf of real files.

ghost use Rattle.std.specs.Prelude.{◌≡◌, [], None};
ghost use Rattle.ass_io.specs.Fetched.{IsFetched};
ghost use Rattle.ass_io.specs.Files.{IsFileRead};

use crate::count::count_one;
use crate::fetch_log::FetchLog;
use crate::shelf::{Fetch, MAX_FILE_BYTES, Shelf};
use std::alloc::Global;
use std::io::{Input, Read};
use std::rt::Files;
use std::{fs, io};

/// A shelf of real files, by their paths, and of standard input as `-`. It tells no contents. A name that the system does not
/// find is `Missing`; a folder, a path through a file, and whatever else can't be opened or read, but
/// for lack of memory, is `Failed`.
#[derive(Drop)]
pub struct FileShelf<R: Files + Drop> {
    rt: R,
    faults: u64,
    log: FetchLog,
}

impl<R: Files + Input + Drop> FileShelf<R> {
    ghost use Rattle.ass_io.specs.Files.{shelf_faults};

    /// The files that the runtime opens, and its standard input.
    pub fn new(rt: R) -> FileShelf<R>
        ensures { shelf_faults result ≡ 0 }
    {
        FileShelf {
            rt,
            faults: 0,
            log: FetchLog::new(),
        }
    }
}

impl<R: Files + Input + Drop> Shelf for FileShelf<R> {
    ghost told = { λ _ _. None };

    ghost faults = { λ s. s.faults };

    ghost log = { λ s. s.log.fetches };

    fn fetch(&mut self, _alloc: Global, name: &str, into: &mut Vec<u8>) -> Fetch {
        let fetched = if name == "-" {
            read_file(self.rt.reader(), into)
        } else {
            read_path(&self.rt, name, into)
        };
        if fetched == Fetch::Failed {
            count_one(&mut self.faults);
        }
        self.log.note(name.as_bytes(), &fetched, into.as_slice());
        fetched
    }
}

/// Reads the file of a path.
fn read_path<R: Files>(rt: &R, path: &str, into: &mut Vec<u8>) -> Fetch
    requires { into.old.items ≡ [] }
    ensures { IsFetched None result into.new.items }
{
    match fs::open(rt, path) {
        Ok(file) => read_file(file, into),
        Err(refused) => match refused.kind() {
            io::ErrorKind::NotFound => Fetch::Missing,
            io::ErrorKind::OutOfMemory => Fetch::OutOfMemory,
            _ => Fetch::Failed,
        },
    }
}

/// Reads an open file, or standard input, to its end, into an empty vector. `TooLarge` comes once more than `MAX_FILE_BYTES`
/// bytes were read; after any answer but `Got` the vector is empty again.
pub fn read_file<F: Read + Drop>(file: F, into: &mut Vec<u8>) -> Fetch
    requires { into.old.items ≡ [] }
    ensures { IsFileRead (F.remaining file) result into.new.items }
{
    let fetched = match file.take(MAX_FILE_BYTES as u64 + 1).read_to_end(into) {
        Ok(_) if into.len() <= MAX_FILE_BYTES => return Fetch::Got,
        Ok(_) => Fetch::TooLarge,
        Err(refused) if refused.kind() == io::ErrorKind::OutOfMemory => Fetch::OutOfMemory,
        Err(_) => Fetch::Failed,
    };
    into.clear();
    fetched
}

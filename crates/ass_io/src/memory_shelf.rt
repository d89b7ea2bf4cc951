//! A shelf in memory.

ghost use Rattle.std.specs.Prelude.{◌≡◌, ℕ, List, OnOk, OnErr, Some, None};

use crate::fetch_log::FetchLog;
use crate::shelf::{Fetch, MAX_FILE_BYTES, Shelf};
use ass_num::Mem;
use std::alloc::Global;
use std::collections::BTreeMap;

/// A shelf in memory, which tells all that it holds and never fails.
#[derive(Drop)]
pub struct MemoryShelf {
    files: BTreeMap<String, Vec<u8>>,
    log: FetchLog,
}

impl MemoryShelf {
    ghost use Rattle.ass_io.specs.MemoryShelves.{held_by, Replaces};

    /// An empty shelf.
    pub fn new(alloc: Global) -> MemoryShelf
        ensures { (name : List ℕ) → held_by result name ≡ None }
    {
        MemoryShelf {
            files: BTreeMap::new(alloc),
            log: FetchLog::new(),
        }
    }

    /// Puts bytes under a name, in place of what is there. For out of memory the shelf holds
    /// what it held.
    pub fn add(&mut self, alloc: Global, name: &str, bytes: &[u8]) -> Mem<()>
        ensures ok { OnOk result (Replaces self.old self.new name.now bytes.now) }
        ensures err { OnErr result (
            (other : List ℕ) → held_by self.new other ≡ held_by self.old other) }
    {
        let name = String::from_str(alloc, name)?;
        let bytes = Vec::from_slice(alloc, bytes)?;
        self.files.insert(name, bytes)?;
        Ok(())
    }
}

impl Shelf for MemoryShelf {
    ghost use Rattle.ass_io.specs.MemoryShelves.{held_by};

    ghost told = { λ s name. Some (held_by s name) };

    ghost faults = { λ _. 0 };

    ghost log = { λ s. s.log.fetches };

    fn fetch(&mut self, _alloc: Global, name: &str, into: &mut Vec<u8>) -> Fetch {
        let fetched = match self.files.get(name) {
            None => Fetch::Missing,
            Some(bytes) if bytes.len() > MAX_FILE_BYTES => Fetch::TooLarge,
            Some(bytes) => match into.extend_from_slice(bytes.as_slice()) {
                Ok(()) => Fetch::Got,
                Err(_) => Fetch::OutOfMemory,
            },
        };
        self.log.note(name.as_bytes(), &fetched, into.as_slice());
        fetched
    }
}

//! A shelf that fails at chosen calls.

ghost use Rattle.std.specs.Prelude.{Some};

use crate::count::count_one;
use crate::fetch_log::FetchLog;
use crate::memory_shelf::MemoryShelf;
use crate::plan::Plan;
use crate::shelf::{Fetch, Shelf};
use std::alloc::Global;

/// A shelf in memory that fails at the fetches whose numbers, from 1, are in a list.
#[derive(Drop)]
pub struct FailingShelf {
    shelf: MemoryShelf,
    plan: Plan,
    faults: u64,
    log: FetchLog,
}

impl FailingShelf {
    ghost use Rattle.std.specs.Prelude.{◌≡◌, ℕ, List};
    ghost use Rattle.ass_io.specs.Failing.{failing_fetches, fetches_of, shelf_in};
    ghost use Rattle.ass_io.specs.MemoryShelves.{held_by};

    /// A shelf that holds what that one holds, and fails at these fetches.
    pub fn new(shelf: MemoryShelf, fails: Vec<u64>) -> FailingShelf
        ensures held { (name : List ℕ) → held_by (shelf_in result) name ≡ held_by shelf name }
        ensures fails { failing_fetches result ≡ fails.items }
        ensures fetches { fetches_of result ≡ 0 }
    {
        FailingShelf {
            shelf,
            plan: Plan::new(fails),
            faults: 0,
            log: FetchLog::new(),
        }
    }
}

impl Shelf for FailingShelf {
    ghost use Rattle.ass_io.specs.Failing.{shelf_in};
    ghost use Rattle.ass_io.specs.MemoryShelves.{held_by};

    ghost told = { λ s name. Some (held_by (shelf_in s) name) };

    ghost faults = { λ s. s.faults };

    ghost log = { λ s. s.log.fetches };

    fn fetch(&mut self, alloc: Global, name: &str, into: &mut Vec<u8>) -> Fetch {
        if self.plan.next_fails() {
            count_one(&mut self.faults);
            self.log
                .note(name.as_bytes(), &Fetch::Failed, into.as_slice());
            return Fetch::Failed;
        }
        let fetched = self.shelf.fetch(alloc, name, into);
        self.log.note(name.as_bytes(), &fetched, into.as_slice());
        fetched
    }
}

//! Which calls are to fail.

ghost use Rattle.std.specs.Prelude.{◌≡◌, ◌↔◌, Contains, IsTrue};
ghost use Rattle.ass_io.specs.Counts.{IsOneMore};

use crate::count::count_one;

/// The numbers, from 1, of the calls that are to fail, and how many calls there were.
#[derive(Drop)]
pub struct Plan {
    fails: Vec<u64>,
    calls: u64,
}

impl Plan {
    /// A plan before its first call.
    pub fn new(fails: Vec<u64>) -> Plan
        ensures fails { result.fails ≡ fails }
        ensures calls { result.calls ≡ 0 }
    {
        Plan { fails, calls: 0 }
    }

    /// Counts a call, and says whether it is to fail.
    pub fn next_fails(&mut self) -> bool
        ensures counted { IsOneMore self.old.calls self.new.calls }
        ensures same { self.new.fails ≡ self.old.fails }
        ensures fails { IsTrue result ↔ Contains self.new.fails.items self.new.calls }
    {
        count_one(&mut self.calls);
        self.fails.contains(&self.calls)
    }
}

//! The runs of a row, by a walk along its crossings.

ghost use Rattle.std.specs.Prelude.{◌≡◌, [], ◌+◌, ◌<◌, ◌^◌, OnOk};
ghost use Rattle.sample_region.specs.Crossings.{IsAscending, downs, ups};
ghost use Rattle.sample_region.specs.Rows.{IsRowOf, Reopens};

use crate::sweep::Crossing;
use ass_num::{Mem, Run};
use std::alloc::Global;

/// How many crossings went down and up, where the run that is open began, and the runs before it.
#[derive(Drop)]
pub struct RowCrossings {
    downs: usize,
    ups: usize,
    from: i32,
    pub runs: Vec<Run>,
}

impl RowCrossings {
    ghost use Rattle.sample_region.specs.Walks.{Passes};

    /// A walk that has found nothing yet.
    pub fn new(alloc: Global) -> RowCrossings
        ensures { result.runs.items ≡ [] }
    {
        RowCrossings {
            downs: 0,
            ups: 0,
            from: 0,
            runs: Vec::new(alloc),
        }
    }

    fn pass(&mut self, c: Crossing) -> Mem<()>
        requires downs { self.old.downs + 1 < 2 ^ 64 }
        requires ups { self.old.ups + 1 < 2 ^ 64 }
        ensures { OnOk result (Passes c self.old self.new) }
    {
        let outside = self.downs == self.ups;
        self.downs += usize::from(c.down);
        self.ups += usize::from(!c.down);
        if outside {
            self.from = reopened(&mut self.runs, c.at);
            return Ok(());
        }
        if self.downs != self.ups {
            return Ok(());
        }
        if self.from < c.at {
            self.runs.push(Run {
                from: self.from,
                to: c.at,
            })?;
            return Ok(());
        }
        Ok(())
    }

    /// Walks along the crossings of a row, in ascending order, and leaves its runs.
    pub fn walk(&mut self, crossings: &[Crossing]) -> Mem<()>
        requires ascending { IsAscending crossings.now }
        requires even { downs crossings.now ≡ ups crossings.now }
        ensures { OnOk result (IsRowOf crossings.now self.new.runs.items) }
    {
        self.downs = 0;
        self.ups = 0;
        self.runs.clear();
        for c in crossings {
            self.pass(*c)?;
        }
        Ok(())
    }
}

/// Takes back the last run where it ends at `place`, and says where the run that opens there began.
fn reopened(runs: &mut Vec<Run>, place: i32) -> i32
    ensures { Reopens place runs.old.items result runs.new.items }
{
    let count = runs.len();
    if count > 0 {
        let last = runs[count - 1];
        if last.to == place {
            runs.truncate(count - 1);
            return last.from;
        }
    }
    place
}

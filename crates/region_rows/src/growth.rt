//! A region that grows row by row.

ghost use Rattle.std.specs.Prelude.{◌≡◌, ℤ, Bool, true, false, ◌≤ℤ◌, ◌<ℤ◌, pos, OnOk};
ghost use Rattle.ass_num.specs.Regions.{is_canonical, member};

use ass_num::{FlatLists, Mem, Region, Run};
use std::alloc::Global;

/// Rows from `first` up to but not with `end`.
#[derive(Clone, Copy)]
pub struct RowRange {
    pub first: i32,
    pub end: i32,
}

/// The rows so far, from the first one that isn't empty, and how many there are up to the last that isn't.
#[derive(Drop)]
pub struct Growth {
    top: i32,
    filled: usize,
    rows: FlatLists<Run>,
}

impl Growth {
    ghost use Rattle.region_rows.specs.Grown.{AddsRuns, HasRoom, IsGrown, IsWholeGrowth};

    /// No rows yet, and the first that may come.
    pub fn new(alloc: Global, first: i32) -> Growth
        ensures { (wanted : ℤ → ℤ → Bool) → ((i j : ℤ) → j <ℤ first → wanted i j ≡ false) → IsGrown wanted first result }
    {
        Growth {
            top: first,
            filled: 0,
            rows: FlatLists::new(alloc),
        }
    }

    /// Adds the next row.
    pub fn add(&mut self, runs: &[Run]) -> Mem<()>
        requires { HasRoom self.old }
        ensures { OnOk result (AddsRuns runs.now self.old self.new) }
    {
        if runs.is_empty() {
            if self.rows.len() == 0 {
                self.top += 1;
                return Ok(());
            }
            self.rows.push(runs)?;
            return Ok(());
        }
        self.rows.push(runs)?;
        self.filled = self.rows.len();
        Ok(())
    }

    /// The region of the rows, without the empty rows at the end. It keeps no more memory than it needs.
    pub fn finish(self) -> Region
        requires { IsWholeGrowth self }
        ensures samples { (wanted : ℤ → ℤ → Bool) (last : ℤ) → IsGrown wanted last self → ((i j : ℤ) → last ≤ℤ j → wanted i j ≡ false) → (i j : ℤ)
            → member result.top result.rows i j ≡ wanted i j }
        ensures canonical { is_canonical result.top result.rows ≡ true }
    {
        let Growth {
            top,
            filled,
            mut rows,
        } = self;
        rows.truncate(filled);
        rows.shrink_to_fit();
        if filled == 0 {
            return Region::new(0, rows);
        }
        Region::new(top, rows)
    }
}

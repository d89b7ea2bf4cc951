//! Strips: runs of rows that follow one another, each going on in the next.

ghost use Rattle.std.specs.Prelude.{◌≡◌, ℕ, ◌+◌, ◌<◌, true, All, length, MatchOption, OnOk};
ghost use Rattle.std.specs.Bool.{MatchBool};
ghost use Rattle.ass_num.specs.Limits.{IsRegionWithin, max_sample};
ghost use Rattle.ass_num.specs.Regions.{all_ascend, ascend};
ghost use Rattle.border_region.specs.Reach.{IsSide};
ghost use Rattle.border_region.specs.Strips.{AreBefore, EndsShortOf, FollowsOne, GoesOn, BeginsStrip, IsStripFrom, runs_of_row};

use ass_num::{FlatLists, Mem, Region, Run};
use std::alloc::Global;

/// Whether the run before the one at `n`, if there is one, ends before the place.
fn ends_before(runs: &[Run], n: usize, place: i32) -> bool
    requires { n < length runs.now }
    ensures { MatchBool result (EndsShortOf runs.now n place) (EndsShortOf runs.now n place → ⊥) }
{
    if n == 0 {
        return true;
    }
    runs[n - 1].to < place
}

/// Whether a run goes on in a run of the row below: they meet, and the run before neither meets the other.
fn goes_on(above: &[Run], p: usize, below: &[Run], n: usize) -> bool
    requires above { p < length above.now }
    requires below { n < length below.now }
    ensures { MatchBool result (GoesOn above.now p below.now n) (GoesOn above.now p below.now n → ⊥) }
{
    let (a, b) = (above[p], below[n]);
    if b.to < a.from {
        return false;
    }
    if a.to < b.from {
        return false;
    }
    if !ends_before(above, p, b.from) {
        return false;
    }
    ends_before(below, n, a.from)
}

/// How many runs of a row end before the place.
fn count_before(runs: &[Run], place: i32) -> usize
    requires { ascend runs.now ≡ true }
    ensures { AreBefore place runs.now result }
{
    runs.partition_point(|run| run.to < place)
}

/// The run of the row below in which a run goes on.
fn next_of(above: &[Run], p: usize, below: &[Run]) -> Option<usize>
    requires above { p < length above.now }
    requires ascends { ascend below.now ≡ true }
    ensures { MatchOption result ((n : ℕ) → GoesOn above.now p below.now n → ⊥) (λ n. GoesOn above.now p below.now n) }
{
    let n = count_before(below, above[p].from);
    if n == below.len() {
        return None;
    }
    if goes_on(above, p, below, n) {
        return Some(n);
    }
    None
}

/// Whether no run of the row above goes on in a run.
fn begins(above: &[Run], below: &[Run], n: usize) -> bool
    requires ascends { ascend above.now ≡ true }
    requires below { n < length below.now }
    ensures { MatchBool result ((p : ℕ) → GoesOn above.now p below.now n → ⊥) ((p : ℕ) × GoesOn above.now p below.now n) }
{
    let p = count_before(above, below[n].from);
    if p == above.len() {
        return true;
    }
    if goes_on(above, p, below, n) {
        return false;
    }
    true
}

/// Whether a strip begins with run n of row k.
pub fn strip_begins(rows: &FlatLists<Run>, k: usize, n: usize) -> bool
    requires ascends { all_ascend rows.now ≡ true }
    requires row { k < length rows.now }
    requires run { n < length (runs_of_row rows.now k) }
    ensures { MatchBool result (BeginsStrip rows.now k n) (FollowsOne rows.now k n) }
{
    if k == 0 {
        return true;
    }
    begins(rows.get(k - 1), rows.get(k), n)
}

/// The run of the next row in which run p of row k goes on.
fn next_below(rows: &FlatLists<Run>, k: usize, p: usize) -> Option<usize>
    requires ascends { all_ascend rows.now ≡ true }
    requires row { k < length rows.now }
    requires run { p < length (runs_of_row rows.now k) }
    ensures { MatchOption result ((n : ℕ) → GoesOn (runs_of_row rows.now k) p (runs_of_row rows.now (k + 1)) n → ⊥)
        (λ n. GoesOn (runs_of_row rows.now k) p (runs_of_row rows.now (k + 1)) n) }
{
    if rows.len() == k + 1 {
        return None;
    }
    next_of(rows.get(k), p, rows.get(k + 1))
}

/// A strip by its sides, row by row: where its run begins, and where it ends with the sign turned.
#[derive(Drop)]
pub struct Strip {
    pub lefts: Vec<i32>,
    pub rights: Vec<i32>,
}

impl Strip {
    ghost use Rattle.std.specs.Prelude.{◌++◌, ◌∷◌, [], neg_ℤ, ◌<ℤ◌};
    ghost use Rattle.ass_num.specs.Limits.{IsRunWithin};

    /// A strip without rows.
    pub fn new(alloc: Global) -> Strip {
        Strip {
            lefts: Vec::new(alloc),
            rights: Vec::new(alloc),
        }
    }

    /// Adds the run of the next row.
    fn push(&mut self, run: Run) -> Mem<()>
        requires within { IsRunWithin max_sample run }
        requires full { run.from <ℤ run.to }
        ensures lefts { OnOk result (self.new.lefts.items ≡ self.old.lefts.items ++ run.from ∷ []) }
        ensures rights { OnOk result (self.new.rights.items ≡ self.old.rights.items ++ neg_ℤ run.to ∷ []) }
    {
        self.lefts.push(run.from)?;
        self.rights.push(-run.to)?;
        Ok(())
    }

    /// Takes the runs from run n of row k down, as far as each goes on in the next row.
    fn follow(&mut self, rows: &FlatLists<Run>, k: usize, n: usize) -> Mem<()>
        requires ascends { all_ascend rows.now ≡ true }
        requires within { All (All (IsRunWithin max_sample)) rows.now }
        requires row { k < length rows.now }
        requires run { n < length (runs_of_row rows.now k) }
        requires lefts { self.old.lefts.items ≡ [] }
        requires rights { self.old.rights.items ≡ [] }
        ensures { OnOk result (IsStripFrom rows.now k n self.new.lefts.items self.new.rights.items) }
    {
        let mut at = n;
        for row in k..rows.len() {
            self.push(rows.get(row)[at])?;
            match next_below(rows, row, at) {
                Some(next) => at = next,
                None => return Ok(()),
            }
        }
        Ok(())
    }

    /// Finds the strip that begins with run n of row k.
    pub fn find(&mut self, region: &Region, k: usize, n: usize) -> Mem<()>
        requires within { IsRegionWithin max_sample region.now.top region.now.rows }
        requires row { k < length region.now.rows }
        requires run { n < length (runs_of_row region.now.rows k) }
        ensures strip { OnOk result (IsStripFrom region.now.rows k n self.new.lefts.items self.new.rights.items) }
        ensures lefts { OnOk result (IsSide self.new.lefts.items) }
        ensures rights { OnOk result (IsSide self.new.rights.items) }
    {
        self.lefts.clear();
        self.rights.clear();
        self.follow(region.rows(), k, n)
    }
}

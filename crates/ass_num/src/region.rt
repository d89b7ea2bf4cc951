//! Regions of samples.

ghost use Rattle.std.specs.Prelude.{◌≡◌, [], pos, true, int_lt, ◌&&◌};
ghost use Rattle.ass_num.specs.Regions.{RegionValue, ascend, all_ascend, has_run, is_canonical};

use crate::flat_lists::FlatLists;
use std::alloc::Global;
use std::marker::Model;

/// The samples of one row from `from` up to but not with `to`.
#[derive(Clone, Copy, Debug, PartialEq, Eq, Hash)]
pub struct Run {
    pub from: i32,
    pub to: i32,
}

/// A set of samples in its one canonical form: rows from `top` down, each the ascending runs of its samples.
/// Neither the first nor the last row is empty, runs of a row don't touch, and a region without rows has the top 0.
#[derive(Debug, Drop)]
pub struct Region {
    top: i32,
    rows: FlatLists<Run>,
}

impl Model for Region {
    ghost use Rattle.std.specs.Prelude.{◌≡◌, true};
    ghost use Rattle.ass_num.specs.Regions.{RegionValue, is_canonical};

    ghost Value = { RegionValue };

    ghost view = { λ r. record { top = r.top; rows = r.rows } };

    ghost invariant = { λ r. is_canonical r.top r.rows ≡ true };
}

impl Region {
    /// The region of rows that are in canonical form; `is_canonical` tells whether they are.
    pub fn new(top: i32, rows: FlatLists<Run>) -> Region
        requires { is_canonical top rows ≡ true }
        ensures { result ≡ record { top = top; rows = rows } }
    {
        Region { top, rows }
    }

    /// The region without samples; it takes no memory.
    pub fn empty(alloc: Global) -> Region
        ensures { result ≡ record { top = pos 0; rows = [] } }
    {
        Region {
            top: 0,
            rows: FlatLists::new(alloc),
        }
    }

    /// The first row that has a sample, or 0.
    pub fn top(&self) -> i32
        ensures { result ≡ self.now.top }
    {
        self.top
    }

    /// The rows from the top down.
    pub fn rows(&self) -> &FlatLists<Run>
        ensures rows { result.now ≡ self.now.rows }
        ensures canonical { is_canonical self.now.top self.now.rows ≡ true }
    {
        &self.rows
    }
}

/// Whether rows from `top` down are in canonical form.
pub fn is_canonical(top: i32, rows: &FlatLists<Run>) -> bool
    ensures { result ≡ is_canonical top rows.now }
{
    let count = rows.len();
    if count == 0 {
        return top == 0;
    }
    if !has_run(rows.get(0)) {
        return false;
    }
    if !has_run(rows.get(count - 1)) {
        return false;
    }
    all_ascend(rows)
}

/// Whether a row has a run.
fn has_run(runs: &[Run]) -> bool
    ensures { result ≡ has_run runs.now }
{
    !runs.is_empty()
}

/// Whether the runs of each row ascend and don't touch.
fn all_ascend(rows: &FlatLists<Run>) -> bool
    ensures { result ≡ all_ascend rows.now }
{
    for k in 0..rows.len() {
        if !ascend(rows.get(k)) {
            return false;
        }
    }
    true
}

/// Whether runs ascend and don't touch.
fn ascend(runs: &[Run]) -> bool
    ensures { result ≡ ascend runs.now }
{
    let [first, rest @ ..] = runs else {
        return true;
    };
    let mut last = *first;
    for run in rest {
        if !precedes(last, *run) {
            return false;
        }
        last = *run;
    }
    has_samples(last)
}

/// Whether a run has samples, and the next begins after it without touching it.
fn precedes(run: Run, next: Run) -> bool
    ensures { result ≡ (int_lt run.from run.to && int_lt run.to next.from) }
{
    run.from < run.to && run.to < next.from
}

/// Whether a run has samples.
fn has_samples(run: Run) -> bool
    ensures { result ≡ int_lt run.from run.to }
{
    run.from < run.to
}

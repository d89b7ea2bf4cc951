//! The rows of a widened region, from the strips that reach each of them.

ghost use Rattle.std.specs.Prelude.{◌≡◌, ◌≤ℤ◌, ◌+ℤ◌, pos, neg_ℤ, All, Contains, [], int_lt, filter, IsPermutation, OnOk};
ghost use Rattle.ass_num.specs.Regions.{in_runs};
ghost use Rattle.region_rows.specs.Growths.{IsRowHolding};
ghost use Rattle.border_region.specs.Limits.{max_key};
ghost use Rattle.border_region.specs.Held.{BeginInOrder, AreStripSpans};
ghost use Rattle.border_region.specs.StripRows.{AddsRowRun, AreRowRuns, BeginAfter, IsFullRun, AreLive, IsRising, IsRowHeld};

use crate::merge::rows_between;
use crate::wide_strips::{Span, WideStrips};
use ass_num::{Mem, Run};
use region_rows::add_run;
use std::alloc::Global;

/// How far a walk over the rows has come: how many strips have begun, those of them that may reach a later row, and the runs of a row.
#[derive(Drop)]
pub struct StripRows {
    begun: usize,
    live: Vec<Span>,
    found: Vec<Run>,
    pub runs: Vec<Run>,
}

impl StripRows {
    /// A walk that hasn't begun.
    pub fn new(alloc: Global) -> StripRows
        ensures begun { result.begun ≡ 0 }
        ensures live { result.live.items ≡ [] }
    {
        StripRows {
            begun: 0,
            live: Vec::new(alloc),
            found: Vec::new(alloc),
            runs: Vec::new(alloc),
        }
    }

    /// Takes in the strips that begin in row j or before it.
    fn begin(&mut self, spans: &[Span], j: i32) -> Mem<()>
        requires ordered { BeginInOrder spans.now }
        requires live { AreLive j spans.now self.old.begun self.old.live.items }
        ensures live { OnOk result (AreLive j spans.now self.new.begun self.new.live.items) }
        ensures rest { OnOk result (BeginAfter j spans.now self.new.begun) }
    {
        for s in self.begun..spans.len() {
            if j < spans[s].first {
                return Ok(());
            }
            self.live.push(spans[s])?;
            self.begun = s + 1;
        }
        Ok(())
    }

    /// Finds the runs of row j, the next one.
    pub fn find_row(&mut self, wide: &WideStrips, j: i32) -> Mem<()>
        requires low { neg_ℤ (pos max_key) ≤ℤ j }
        requires high { j ≤ℤ pos max_key }
        requires spans { AreStripSpans wide.now.spans.items wide.now.runs }
        requires live { AreLive j wide.now.spans.items self.old.begun self.old.live.items }
        ensures live { OnOk result (AreLive (j +ℤ pos 1) wide.now.spans.items self.new.begun self.new.live.items) }
        ensures row { OnOk result (IsRowHeld wide.now.spans.items wide.now.runs j self.new.runs.items) }
    {
        drop_ended(&mut self.live, j);
        self.begin(wide.spans.as_slice(), j)?;
        find_runs(self.live.as_slice(), wide, j, &mut self.found)?;
        sort(&mut self.found);
        unite(self.found.as_slice(), &mut self.runs)
    }
}

/// Drops the strips that end above row j.
fn drop_ended(live: &mut Vec<Span>, j: i32)
    ensures { live.new.items ≡ filter (λ span. int_lt j span.end) live.old.items }
{
    live.retain(
        |span| -> bool
            ensures { result ≡ int_lt j span.now.end }
        { j < span.end },
    );
}

/// Adds the run that a strip has in row j, if it reaches the row.
fn add_row_run(span: Span, wide: &WideStrips, j: i32, found: &mut Vec<Run>) -> Mem<()>
    requires low { neg_ℤ (pos max_key) ≤ℤ j }
    requires high { j ≤ℤ pos max_key }
    requires spans { AreStripSpans wide.now.spans.items wide.now.runs }
    requires span { Contains wide.now.spans.items span }
    ensures { OnOk result (AddsRowRun wide.now.spans.items wide.now.runs j span found.old.items found.new.items) }
{
    if j < span.first {
        return Ok(());
    }
    if span.end <= j {
        return Ok(());
    }
    let m = rows_between(span.first, j);
    found.push(wide.runs.get(span.place)[m])?;
    Ok(())
}

/// Finds the runs that strips have in row j, in any order.
fn find_runs(live: &[Span], wide: &WideStrips, j: i32, found: &mut Vec<Run>) -> Mem<()>
    requires low { neg_ℤ (pos max_key) ≤ℤ j }
    requires high { j ≤ℤ pos max_key }
    requires spans { AreStripSpans wide.now.spans.items wide.now.runs }
    requires live { All (Contains wide.now.spans.items) live.now }
    ensures { OnOk result (AreRowRuns wide.now.spans.items wide.now.runs j live.now found.new.items) }
{
    found.clear();
    for span in live {
        add_row_run(*span, wide, j, found)?;
    }
    Ok(())
}

fn sort(runs: &mut Vec<Run>)
    ensures permutation { IsPermutation runs.old.items runs.new.items }
    ensures ascending { IsRising runs.new.items }
{
    runs.sort_unstable_by_key(|run| run.from);
}

/// The runs of the samples of all runs, which rise by where they begin.
fn unite(found: &[Run], runs: &mut Vec<Run>) -> Mem<()>
    requires full { All IsFullRun found.now }
    requires rising { IsRising found.now }
    ensures { OnOk result (IsRowHolding (in_runs found.now) runs.new.items) }
{
    runs.clear();
    for run in found {
        add_run(runs, *run)?;
    }
    Ok(())
}

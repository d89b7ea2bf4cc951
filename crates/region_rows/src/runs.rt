//! Rows of runs that are joined run by run.

ghost use Rattle.std.specs.Prelude.{◌≡◌, ℤ, ◌<ℤ◌, ◌||◌, ◌+◌, ◌≤◌, ◌<◌, ◌⊎◌, true, length, OnOk};
ghost use Rattle.std.specs.Bool.{MatchBool};
ghost use Rattle.ass_num.specs.Regions.{ascend, in_runs};
ghost use Rattle.region_rows.specs.Joins.{AllBegin, BeginsFirst, AreRunsJoined, IsJoinedTo};

use ass_num::{Mem, Run};

/// Adds a run that begins no earlier than the last one, joined to it where they meet.
pub fn add_run(runs: &mut Vec<Run>, run: Run) -> Mem<()>
    requires samples { run.from <ℤ run.to }
    requires ascends { ascend runs.old.items ≡ true }
    requires begin { AllBegin run.from runs.old.items }
    ensures { OnOk result (IsJoinedTo runs.old.items run runs.new.items) }
{
    let Some(last) = runs.pop() else {
        runs.push(run)?;
        return Ok(());
    };
    if last.to < run.from {
        runs.push(last)?;
        runs.push(run)?;
        return Ok(());
    }
    runs.push(Run {
        from: last.from,
        to: last.to.max(run.to),
    })?;
    Ok(())
}

/// Whether the run of `a` at `k` begins no later than that of `b` at `m`, and is there.
fn is_first(a: &[Run], k: usize, b: &[Run], m: usize) -> bool
    requires left { k ≤ length a.now }
    requires right { m ≤ length b.now }
    ensures { MatchBool result (BeginsFirst a.now k b.now m) ((k < length a.now) ⊎ (m < length b.now) → BeginsFirst b.now m a.now k) }
{
    if k == a.len() {
        return false;
    }
    if m == b.len() {
        return true;
    }
    a[k].from <= b[m].from
}

/// Adds the run of `a` at `k`.
fn add_first(a: &[Run], k: usize, b: &[Run], m: usize, runs: &mut Vec<Run>) -> Mem<()>
    requires ascends { ascend a.now ≡ true }
    requires first { BeginsFirst a.now k b.now m }
    requires joined { AreRunsJoined a.now k b.now m runs.old.items }
    ensures { OnOk result (AreRunsJoined a.now (k + 1) b.now m runs.new.items) }
{
    add_run(runs, a[k])
}

/// The runs of the samples of either row.
pub fn join(a: &[Run], b: &[Run], runs: &mut Vec<Run>) -> Mem<()>
    requires left { ascend a.now ≡ true }
    requires right { ascend b.now ≡ true }
    ensures covers { OnOk result ((i : ℤ) → in_runs runs.new.items i ≡ (in_runs a.now i || in_runs b.now i)) }
    ensures ascends { OnOk result (ascend runs.new.items ≡ true) }
{
    runs.clear();
    let mut k = 0;
    let mut m = 0;
    while k < a.len() || m < b.len() {
        if is_first(a, k, b, m) {
            add_first(a, k, b, m, runs)?;
            k += 1;
        } else {
            add_first(b, m, a, k, runs)?;
            m += 1;
        }
    }
    Ok(())
}

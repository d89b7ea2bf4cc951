//! Rows whose runs reach further to both sides.

ghost use Rattle.std.specs.Prelude.{◌≡◌, ℕ, ℤ, pos, ◌+ℤ◌, ◌-ℤ◌, ◌≤◌, true, All, IsTrue, OnOk};
ghost use Rattle.border_region.specs.Limits.{max_radius};
ghost use Rattle.ass_num.specs.Limits.{IsRunWithin, max_sample};
ghost use Rattle.ass_num.specs.Regions.{ascend};
ghost use Rattle.border_region.specs.Widths.{Covers, IsRunCovered, IsWidenedRow};

use ass_num::{Mem, Run};
use region_rows::add_run;

/// A run that reaches so much further to both sides.
fn wider(run: Run, width: u16) -> Run
    requires within { IsRunWithin max_sample run }
    requires small { width ≤ max_radius }
    ensures from { result.from ≡ run.from -ℤ pos width }
    ensures to { result.to ≡ run.to +ℤ pos width }
{
    Run {
        from: run.from - i32::from(width),
        to: run.to + i32::from(width),
    }
}

/// Whether one of the runs holds all samples of a run. The runs ascend, else it may be missed.
fn covers(runs: &[Run], run: Run) -> bool
    ensures { IsTrue result → IsRunCovered run runs.now }
{
    let k = runs.partition_point(|r| r.to < run.to);
    if k == runs.len() {
        return false;
    }
    let other = runs[k];
    other.from <= run.from && run.to <= other.to
}

/// Whether each run of a row, widened, lies within one of the runs.
pub fn covers_row(runs: &[Run], row: &[Run], width: u16) -> bool
    requires within { All (IsRunWithin max_sample) row.now }
    requires small { width ≤ max_radius }
    ensures { IsTrue result → Covers width row.now runs.now }
{
    for run in row {
        if !covers(runs, wider(*run, width)) {
            return false;
        }
    }
    true
}

/// Finds the runs of a row's samples, widened to both sides.
pub fn widen_row(row: &[Run], width: u16, wide: &mut Vec<Run>) -> Mem<()>
    requires ascends { ascend row.now ≡ true }
    requires within { All (IsRunWithin max_sample) row.now }
    requires small { width ≤ max_radius }
    ensures { OnOk result (IsWidenedRow width row.now wide.new.items) }
{
    wide.clear();
    for run in row {
        add_run(wide, wider(*run, width))?;
    }
    Ok(())
}

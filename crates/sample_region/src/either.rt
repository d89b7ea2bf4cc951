//! The samples of either of two regions.

ghost use Rattle.std.specs.Prelude.{◌≡◌, ℕ, ℤ, pos, ◌+ℤ◌, ◌-ℤ◌, ◌≤ℤ◌, ◌<ℤ◌, ◌||◌, ◌+◌, ◌≤◌, ◌<◌, ◌⊎◌, true, length, IfOk, OnOk, neg_ℤ};
ghost use Rattle.std.specs.Bool.{MatchBool};
ghost use Rattle.ass_num.specs.Limits.{IsRegionWithin, max_sample};
ghost use Rattle.ass_num.specs.Regions.{ascend, in_runs, is_canonical, member, row_at};
ghost use Rattle.region_rows.specs.Grown.{IsGrown};
ghost use Rattle.sample_region.specs.Unions.{in_either};

use ass_num::{Mem, Region, Run};
use region_rows::{Growth, RowRange, end, join, row};
use std::alloc::Global;

/// Adds row j, the next one, of both regions.
fn add_row(a: &Region, b: &Region, j: i32, runs: &mut Vec<Run>, growth: &mut Growth) -> Mem<()>
    requires near_a { IsRegionWithin max_sample a.now.top a.now.rows }
    requires near_b { IsRegionWithin max_sample b.now.top b.now.rows }
    requires low { neg_ℤ (pos max_sample) ≤ℤ j }
    requires high { j ≤ℤ pos max_sample }
    requires rows { IsGrown (in_either a.now b.now) j growth.old }
    ensures { OnOk result (IsGrown (in_either a.now b.now) (j +ℤ pos 1) growth.new) }
{
    join(row(a, j), row(b, j), runs)?;
    growth.add(runs.as_slice())?;
    Ok(())
}

/// Adds rows from `first` up to `end` of both regions.
fn add_rows(
    alloc: Global,
    a: &Region,
    b: &Region,
    first: i32,
    end: i32,
    growth: &mut Growth,
) -> Mem<()>
    requires near_a { IsRegionWithin max_sample a.now.top a.now.rows }
    requires near_b { IsRegionWithin max_sample b.now.top b.now.rows }
    requires low { neg_ℤ (pos max_sample) ≤ℤ first }
    requires ordered { first ≤ℤ end }
    requires high { end ≤ℤ pos (max_sample + 1) }
    requires rows { IsGrown (in_either a.now b.now) first growth.old }
    ensures { OnOk result (IsGrown (in_either a.now b.now) end growth.new) }
{
    let mut runs = Vec::new(alloc);
    for j in first..end {
        add_row(a, b, j, &mut runs, growth)?;
    }
    Ok(())
}

/// The rows of both regions.
fn rows_of(a: &Region, b: &Region) -> RowRange
    requires near_a { IsRegionWithin max_sample a.now.top a.now.rows }
    requires near_b { IsRegionWithin max_sample b.now.top b.now.rows }
    ensures above_a { result.first ≤ℤ a.now.top }
    ensures above_b { result.first ≤ℤ b.now.top }
    ensures below_a { (a.now.top +ℤ pos (length a.now.rows)) ≤ℤ result.end }
    ensures below_b { (b.now.top +ℤ pos (length b.now.rows)) ≤ℤ result.end }
    ensures low { neg_ℤ (pos max_sample) ≤ℤ result.first }
    ensures high { result.end ≤ℤ pos (max_sample + 1) }
{
    RowRange {
        first: a.top().min(b.top()),
        end: end(a).max(end(b)),
    }
}

/// The samples of either region. The samples of both lie within 131,072 of 0.
pub fn union(alloc: Global, a: &Region, b: &Region) -> Mem<Region>
    requires near_a { IsRegionWithin max_sample a.now.top a.now.rows }
    requires near_b { IsRegionWithin max_sample b.now.top b.now.rows }
    ensures samples { IfOk result (λ r. (i j : ℤ) → member r.top r.rows i j ≡ (member a.now.top a.now.rows i j || member b.now.top b.now.rows i j)) }
    ensures canonical { IfOk result (λ r. is_canonical r.top r.rows ≡ true) }
    ensures within { IfOk result (λ r. (limit : ℕ) → IsRegionWithin limit a.now.top a.now.rows → IsRegionWithin limit b.now.top b.now.rows
        → IsRegionWithin limit r.top r.rows) }
{
    let rows = rows_of(a, b);
    let mut growth = Growth::new(alloc, rows.first);
    add_rows(alloc, a, b, rows.first, rows.end, &mut growth)?;
    Ok(growth.finish())
}

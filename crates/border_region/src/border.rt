//! A region widened by an ellipse.

ghost use Rattle.std.specs.Prelude.{◌≡◌, ℕ, ℤ, pos, ◌+ℤ◌, ◌-ℤ◌, ◌≤ℤ◌, ◌≤◌, ◌+◌, true, length, IfOk, OnOk, neg_ℤ};
ghost use Rattle.border_region.specs.Limits.{max_radius, max_key};
ghost use Rattle.ass_num.specs.Limits.{IsRegionWithin, max_sample};
ghost use Rattle.ass_num.specs.Regions.{is_canonical, member};
ghost use Rattle.region_rows.specs.Widened.{in_widened};
ghost use Rattle.border_region.specs.Frontier.{AreChanges};

use crate::ellipse::{Ellipse, ellipse_of};
use crate::frontier::{changes, frontier};
use crate::merge::Merge;
use crate::strip_rows::StripRows;
use crate::wide_strips::{WideStrips, wide_strips};
use ass_num::{Mem, Region};
use region_rows::{Growth, RowRange, end};
use std::alloc::Global;

/// A widened region that grows row by row.
#[derive(Drop)]
struct Border {
    ellipse: Ellipse,
    above: Vec<i32>,
    below: Vec<i32>,
    merge: Merge,
    growth: Growth,
}

impl Border {
    ghost use Rattle.border_region.specs.Borders.{HasWidened};

    /// Finds row j, the next one, and adds it.
    fn add_row(&mut self, region: &Region, j: i32) -> Mem<()>
        requires within { IsRegionWithin max_sample region.now.top region.now.rows }
        requires low { neg_ℤ (pos max_key) ≤ℤ j }
        requires high { j ≤ℤ pos max_key }
        requires rows { HasWidened region.now self.old.ellipse.rx self.old.ellipse.ry j self.old }
        ensures { OnOk result (HasWidened region.now self.old.ellipse.rx self.old.ellipse.ry (j +ℤ pos 1) self.new) }
    {
        self.merge.find_row(
            region,
            self.above.as_slice(),
            self.below.as_slice(),
            &self.ellipse,
            j,
        )?;
        self.growth.add(self.merge.runs.as_slice())?;
        Ok(())
    }

    /// Adds rows from `first` up to `end`.
    fn add_rows(&mut self, region: &Region, first: i32, end: i32) -> Mem<()>
        requires within { IsRegionWithin max_sample region.now.top region.now.rows }
        requires low { neg_ℤ (pos max_key) ≤ℤ first }
        requires ordered { first ≤ℤ end }
        requires high { end ≤ℤ pos max_key }
        requires rows { HasWidened region.now self.old.ellipse.rx self.old.ellipse.ry first self.old }
        ensures { OnOk result (HasWidened region.now self.old.ellipse.rx self.old.ellipse.ry end self.new) }
    {
        for j in first..end {
            self.add_row(region, j)?;
        }
        Ok(())
    }
}

/// A widened region that grows row by row from widened strips.
#[derive(Drop)]
struct StripBorder {
    rows: StripRows,
    growth: Growth,
}

impl StripBorder {
    ghost use Rattle.border_region.specs.Borders.{HasUnited};

    /// Finds row j, the next one, and adds it.
    fn add_row(&mut self, wide: &WideStrips, j: i32) -> Mem<()>
        requires low { neg_ℤ (pos max_key) ≤ℤ j }
        requires high { j ≤ℤ pos max_key }
        requires rows { HasUnited wide.now j self.old }
        ensures { OnOk result (HasUnited wide.now (j +ℤ pos 1) self.new) }
    {
        self.rows.find_row(wide, j)?;
        self.growth.add(self.rows.runs.as_slice())?;
        Ok(())
    }

    /// Adds rows from `first` up to `end`.
    fn add_rows(&mut self, wide: &WideStrips, first: i32, end: i32) -> Mem<()>
        requires low { neg_ℤ (pos max_key) ≤ℤ first }
        requires ordered { first ≤ℤ end }
        requires high { end ≤ℤ pos max_key }
        requires rows { HasUnited wide.now first self.old }
        ensures { OnOk result (HasUnited wide.now end self.new) }
    {
        for j in first..end {
            self.add_row(wide, j)?;
        }
        Ok(())
    }
}

/// The rows that may hold samples within `ry` rows of the region.
fn rows_around(region: &Region, ry: u32) -> RowRange
    requires within { IsRegionWithin max_sample region.now.top region.now.rows }
    requires down { ry ≤ max_radius }
    ensures first { result.first ≡ region.now.top -ℤ pos ry }
    ensures end { result.end ≡ (region.now.top +ℤ pos (length region.now.rows)) +ℤ pos ry }
{
    RowRange {
        first: region.top() - ry as i32,
        end: end(region) + ry as i32,
    }
}

/// Widens by the rows at which the region changes: quick where few do.
fn widened_by_changes(
    alloc: Global,
    region: &Region,
    changes: &[i32],
    rx: u32,
    ry: u32,
) -> Mem<Region>
    requires within { IsRegionWithin max_sample region.now.top region.now.rows }
    requires across { rx ≤ max_radius }
    requires down { ry ≤ max_radius }
    requires changes { AreChanges region.now changes.now }
    ensures samples { IfOk result (λ r. (i j : ℤ) → member r.top r.rows i j ≡ in_widened (member region.now.top region.now.rows) rx ry i j) }
    ensures canonical { IfOk result (λ r. is_canonical r.top r.rows ≡ true) }
{
    let rows = rows_around(region, ry);
    let mut border = Border {
        ellipse: ellipse_of(alloc, rx, ry)?,
        above: frontier(alloc, region, changes, true)?,
        below: frontier(alloc, region, changes, false)?,
        merge: Merge::new(alloc),
        growth: Growth::new(alloc, rows.first),
    };
    border.add_rows(region, rows.first, rows.end)?;
    let Border {
        ellipse: _,
        above: _,
        below: _,
        merge: _,
        growth,
    } = border;
    Ok(growth.finish())
}

/// Widens strip by strip: quick where most rows change.
fn widened_by_strips(alloc: Global, region: &Region, rx: u32, ry: u32) -> Mem<Region>
    requires within { IsRegionWithin max_sample region.now.top region.now.rows }
    requires across { rx ≤ max_radius }
    requires down { ry ≤ max_radius }
    ensures samples { IfOk result (λ r. (i j : ℤ) → member r.top r.rows i j ≡ in_widened (member region.now.top region.now.rows) rx ry i j) }
    ensures canonical { IfOk result (λ r. is_canonical r.top r.rows ≡ true) }
{
    let rows = rows_around(region, ry);
    let wide = wide_strips(alloc, region, rx, ry)?;
    let mut grown = StripBorder {
        rows: StripRows::new(alloc),
        growth: Growth::new(alloc, rows.first),
    };
    grown.add_rows(&wide, rows.first, rows.end)?;
    let StripBorder { rows: _, growth } = grown;
    Ok(growth.finish())
}

/// Whether so few of the rows change that it is quicker to go by the changes.
fn are_few(changes: usize, rows: usize) -> bool {
    changes <= rows / 16
}

/// Widens a region that has rows, in the way that is quicker for it.
fn widened_quickly(alloc: Global, region: &Region, rx: u32, ry: u32) -> Mem<Region>
    requires within { IsRegionWithin max_sample region.now.top region.now.rows }
    requires across { rx ≤ max_radius }
    requires down { ry ≤ max_radius }
    ensures samples { IfOk result (λ r. (i j : ℤ) → member r.top r.rows i j ≡ in_widened (member region.now.top region.now.rows) rx ry i j) }
    ensures canonical { IfOk result (λ r. is_canonical r.top r.rows ≡ true) }
{
    let changes = changes(alloc, region)?;
    if are_few(changes.len(), region.rows().len()) {
        return widened_by_changes(alloc, region, changes.as_slice(), rx, ry);
    }
    widened_by_strips(alloc, region, rx, ry)
}

/// The samples with one of the region within the ellipse around them, which reaches `rx` samples across and `ry` rows
/// up and down. The samples of the region lie within 131,072 of 0, and neither radius is above 1,600.
pub fn widened(alloc: Global, region: &Region, rx: u32, ry: u32) -> Mem<Region>
    requires within { IsRegionWithin max_sample region.now.top region.now.rows }
    requires across { rx ≤ max_radius }
    requires down { ry ≤ max_radius }
    ensures samples { IfOk result (λ r. (i j : ℤ) → member r.top r.rows i j ≡ in_widened (member region.now.top region.now.rows) rx ry i j) }
    ensures canonical { IfOk result (λ r. is_canonical r.top r.rows ≡ true) }
    ensures within { IfOk result (λ r. (limit further : ℕ) → rx ≤ further → ry ≤ further → IsRegionWithin limit region.now.top region.now.rows
        → IsRegionWithin (limit + further) r.top r.rows) }
{
    if region.rows().len() == 0 {
        return Ok(Region::empty(alloc));
    }
    let wide = widened_quickly(alloc, region, rx, ry)?;
    Ok(wide)
}

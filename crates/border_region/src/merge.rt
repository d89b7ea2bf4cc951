//! A row of a widened region, found by merging the rows that reach it.

ghost use Rattle.std.specs.Prelude.{◌≡◌, pos, ◌+ℤ◌, ◌-ℤ◌, ◌≤ℤ◌, ◌-◌, ◌<◌, ◌≤◌, true, false, length, All, OnOk, neg_ℤ, ◌+◌};
ghost use Rattle.border_region.specs.Limits.{max_radius, max_key};
ghost use Rattle.ass_num.specs.Limits.{IsRegionWithin, IsRunWithin, max_sample};
ghost use Rattle.ass_num.specs.Regions.{ascend, member};
ghost use Rattle.region_rows.specs.Growths.{IsRowHolding};
ghost use Rattle.region_rows.specs.Widened.{in_widened};
ghost use Rattle.border_region.specs.Ellipse.{AreFalling, AreHalfWidths};
ghost use Rattle.border_region.specs.Frontier.{IsFrontier};
ghost use Rattle.border_region.specs.Keys.{AreAscending, AreUpTo};
ghost use Rattle.border_region.specs.Sides.{AddsSide, HoldsMiddle};
ghost use Rattle.border_region.specs.Widths.{AddsWidened};

use crate::ellipse::Ellipse;
use crate::frontier::seen_row;
use crate::wide_rows::{covers_row, widen_row};
use ass_num::{Mem, Region, Run};
use region_rows::join;
use std::alloc::Global;
use std::mem;

/// How many of the ascending keys are at most `key`.
fn count_up_to(keys: &[i32], key: i32) -> usize
    requires { AreAscending keys.now }
    ensures { AreUpTo key keys.now result }
{
    keys.partition_point(|k| *k <= key)
}

/// How many rows a greater key is further on.
pub fn rows_between(key: i32, other: i32) -> usize
    requires low { neg_ℤ (pos max_key) ≤ℤ key }
    requires ordered { key ≤ℤ other }
    requires high { other ≤ℤ pos max_key }
    ensures { pos result ≡ other -ℤ key }
{
    (other - key) as usize
}

/// The last key from which the row at `key` can be reached.
fn last_key(key: i32, widths: &[u16]) -> i32
    requires low { neg_ℤ (pos max_key) ≤ℤ key }
    requires high { key ≤ℤ pos max_key }
    requires some { 0 < length widths.now }
    requires few { length widths.now ≤ max_radius + 1 }
    ensures { result ≡ key +ℤ pos (length widths.now - 1) }
{
    key + (widths.len() - 1) as i32
}

/// The runs of a row of the widened region while they are found, and room for the next step.
#[derive(Drop)]
pub struct Merge {
    pub runs: Vec<Run>,
    wide: Vec<Run>,
    spare: Vec<Run>,
}

impl Merge {
    /// Nothing merged yet.
    pub fn new(alloc: Global) -> Merge {
        Merge {
            runs: Vec::new(alloc),
            wide: Vec::new(alloc),
            spare: Vec::new(alloc),
        }
    }

    /// Adds the samples within `width` of those of a row.
    fn add(&mut self, row: &[Run], width: u16) -> Mem<()>
        requires ascends { ascend self.old.runs.items ≡ true }
        requires row_ascends { ascend row.now ≡ true }
        requires within { All (IsRunWithin max_sample) row.now }
        requires small { width ≤ max_radius }
        ensures { OnOk result (AddsWidened width row.now self.old.runs.items self.new.runs.items) }
    {
        if covers_row(self.runs.as_slice(), row, width) {
            return Ok(());
        }
        widen_row(row, width, &mut self.wide)?;
        join(self.runs.as_slice(), self.wide.as_slice(), &mut self.spare)?;
        mem::swap(&mut self.runs, &mut self.spare);
        Ok(())
    }

    /// Adds what the rows at greater keys reach in the row at `key`. The runs hold already what that row reaches.
    fn add_side(
        &mut self,
        region: &Region,
        upwards: bool,
        keys: &[i32],
        widths: &[u16],
        key: i32,
    ) -> Mem<()>
        requires within { IsRegionWithin max_sample region.now.top region.now.rows }
        requires low { neg_ℤ (pos max_key) ≤ℤ key }
        requires high { key ≤ℤ pos max_key }
        requires keys { IsFrontier region.now upwards keys.now }
        requires widths { AreFalling widths.now }
        requires middle { HoldsMiddle region.now upwards widths.now key self.old.runs.items }
        requires ascends { ascend self.old.runs.items ≡ true }
        ensures { OnOk result (AddsSide region.now upwards widths.now key self.old.runs.items self.new.runs.items) }
    {
        let end = count_up_to(keys, last_key(key, widths));
        for k in count_up_to(keys, key)..end {
            let width = widths[rows_between(key, keys[k])];
            self.add(seen_row(region, upwards, keys[k]), width)?;
        }
        Ok(())
    }

    /// Finds the runs of row j.
    pub fn find_row(
        &mut self,
        region: &Region,
        above: &[i32],
        below: &[i32],
        ellipse: &Ellipse,
        j: i32,
    ) -> Mem<()>
        requires within { IsRegionWithin max_sample region.now.top region.now.rows }
        requires low { neg_ℤ (pos max_key) ≤ℤ j }
        requires high { j ≤ℤ pos max_key }
        requires above { IsFrontier region.now true above.now }
        requires below { IsFrontier region.now false below.now }
        requires falling { AreFalling ellipse.now.half_widths.items }
        requires widths { AreHalfWidths ellipse.now.rx ellipse.now.ry ellipse.now.half_widths.items }
        ensures { OnOk result (IsRowHolding (λ i. in_widened (member region.now.top region.now.rows) ellipse.now.rx ellipse.now.ry i j) self.new.runs.items) }
    {
        let widths = ellipse.half_widths.as_slice();
        widen_row(seen_row(region, false, j), widths[0], &mut self.runs)?;
        self.add_side(region, true, above, widths, -j)?;
        self.add_side(region, false, below, widths, j)?;
        Ok(())
    }
}

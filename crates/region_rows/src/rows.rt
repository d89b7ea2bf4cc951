//! The rows of a region.

ghost use Rattle.std.specs.Prelude.{◌≡◌, pos, neg_ℤ, ◌+ℤ◌, ◌-ℤ◌, ◌≤ℤ◌, true, length};
ghost use Rattle.ass_num.specs.Limits.{IsRegionWithin, IsWithin, max_sample};
ghost use Rattle.ass_num.specs.Regions.{ascend, row_at};
ghost use Rattle.region_rows.specs.Limits.{max_row};

use ass_num::{Region, Run};

/// The runs of row j.
pub fn row(region: &Region, j: i32) -> &[Run]
    requires top { neg_ℤ (pos max_row) ≤ℤ region.now.top }
    requires row { IsWithin max_row j }
    ensures runs { result.now ≡ row_at region.now.rows (j -ℤ region.now.top) }
    ensures ascends { ascend result.now ≡ true }
{
    let top = region.top();
    if j < top {
        return &[];
    }
    let k = (j - top) as usize;
    if k >= region.rows().len() {
        return &[];
    }
    region.rows().get(k)
}

/// The row after the last one.
pub fn end(region: &Region) -> i32
    requires { IsRegionWithin max_sample region.now.top region.now.rows }
    ensures { result ≡ region.now.top +ℤ pos (length region.now.rows) }
{
    region.top() + region.rows().len() as i32
}

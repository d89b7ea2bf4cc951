//! The rows of a region that reach beyond the rows before them.

ghost use Rattle.std.specs.Prelude.{◌≡◌, ℤ, pos, ◌≤ℤ◌, ◌<◌, true, All, IfOk, length, neg_ℤ};
ghost use Rattle.border_region.specs.Limits.{max_seen};
ghost use Rattle.ass_num.specs.Limits.{IsRegionWithin, IsRunWithin, max_sample};
ghost use Rattle.ass_num.specs.Regions.{ascend, in_runs};
ghost use Rattle.border_region.specs.Frontier.{AreChanges, AreRowsNear, IsFrontier, change_key, is_seen, row_of_key};

use crate::wide_rows::covers_row;
use ass_num::{Mem, Region, Run};
use region_rows::{end, row};
use std::alloc::Global;

/// The row at a key: the key itself, or with its sign turned where rows are taken upwards.
fn row_of_key(upwards: bool, key: i32) -> i32
    requires low { neg_ℤ (pos max_seen) ≤ℤ key }
    requires high { key ≤ℤ pos max_seen }
    ensures { result ≡ row_of_key upwards key }
{
    if upwards { -key } else { key }
}

/// The runs of the row at a key.
pub fn seen_row(region: &Region, upwards: bool, key: i32) -> &[Run]
    requires within { IsRegionWithin max_sample region.now.top region.now.rows }
    requires low { neg_ℤ (pos max_seen) ≤ℤ key }
    requires high { key ≤ℤ pos max_seen }
    ensures seen { (i : ℤ) → in_runs result.now i ≡ is_seen region.now upwards key i }
    ensures ascends { ascend result.now ≡ true }
    ensures within { All (IsRunWithin max_sample) result.now }
{
    row(region, row_of_key(upwards, key))
}

/// The rows that don't have the runs of the row before them, in ascending order.
pub fn changes(alloc: Global, region: &Region) -> Mem<Vec<i32>>
    requires { IsRegionWithin max_sample region.now.top region.now.rows }
    ensures { IfOk result (λ rows. AreChanges region.now rows.items) }
{
    let mut found = Vec::new(alloc);
    for j in region.top()..end(region) + 1 {
        if row(region, j) != row(region, j - 1) {
            found.push(j)?;
        }
    }
    Ok(found)
}

/// The key at which the n-th change is met.
fn change_key(changes: &[i32], upwards: bool, n: usize) -> i32
    requires within { n < length changes.now }
    requires near { AreRowsNear changes.now }
    ensures { result ≡ change_key upwards changes.now n }
{
    if upwards {
        return 1 - changes[changes.len() - 1 - n];
    }
    changes[n]
}

/// The keys of the rows with a run that the row before doesn't cover, in ascending order.
pub fn frontier(alloc: Global, region: &Region, changes: &[i32], upwards: bool) -> Mem<Vec<i32>>
    requires within { IsRegionWithin max_sample region.now.top region.now.rows }
    requires changes { AreChanges region.now changes.now }
    ensures { IfOk result (λ keys. IsFrontier region.now upwards keys.items) }
{
    let mut found = Vec::new(alloc);
    for n in 0..changes.len() {
        let key = change_key(changes, upwards, n);
        let before = seen_row(region, upwards, key - 1);
        if !covers_row(before, seen_row(region, upwards, key), 0) {
            found.push(key)?;
        }
    }
    Ok(found)
}

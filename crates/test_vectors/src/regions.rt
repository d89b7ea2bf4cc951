//! Regions of rings, their unions, and borders around one sample.

ghost use Rattle.std.specs.Prelude.{IfOk};
ghost use Rattle.ass_num.specs.Limits.{IsRegionWithin, max_sample};

use crate::rings::outline_of;
use crate::telling::{numbers, parted, shown};
use ass_num::{FlatLists, Mem, Region, Run};
use border_region::widened;
use sample_region::{region_of, union};
use std::alloc::Global;

fn region_within(alloc: Global, rings: &str) -> Mem<Region>
    ensures { IfOk result (λ r. IsRegionWithin max_sample r.top r.rows) }
{
    let outline = outline_of(alloc, rings)?;
    Ok(region_of(alloc, &outline)?)
}

fn both_told(alloc: Global, first: &Region, second: &Region) -> Mem<String>
    requires first { IsRegionWithin max_sample first.now.top first.now.rows }
    requires second { IsRegionWithin max_sample second.now.top second.now.rows }
{
    let both = union(alloc, first, second)?;
    shown(alloc, &[first, second, &both])
}

/// The regions of the rings before and behind a bar, and their union.
pub fn regions(alloc: Global, question: &str) -> Mem<String> {
    let (first, second) = parted(question, "|");
    let first = region_within(alloc, first)?;
    let second = region_within(alloc, second)?;
    both_told(alloc, &first, &second)
}

/// The region of sample 5 of row -7.
fn sample(alloc: Global) -> Mem<Region>
    ensures { IfOk result (λ r. IsRegionWithin max_sample r.top r.rows) }
{
    let mut rows = FlatLists::new(alloc);
    rows.push(&[Run { from: 5, to: 6 }])?;
    Ok(Region::new(-7, rows))
}

/// The border of a sample, by its radii.
pub fn border(alloc: Global, question: &str) -> Mem<String> {
    let [rx, ry, _, _, _, _, _, _] = numbers(question);
    if rx < 0 || rx > 1_600 || ry < 0 || ry > 1_600 {
        return shown(alloc, &"no radii");
    }
    let sample = sample(alloc)?;
    let border = widened(alloc, &sample, rx as u32, ry as u32)?;
    shown(alloc, &border)
}

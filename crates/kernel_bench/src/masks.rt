//! Masks of the glyphs whose regions are measured, and sums of masks.

ghost use Rattle.std.specs.Prelude.{IfOk, ◌<◌, ◌≤◌};
ghost use Rattle.std.specs.List.{All};
ghost use Rattle.ass_num.specs.Limits.{IsRegionWithin, max_sample};
ghost use Rattle.mask_cover.specs.Sums.{IsPlaceableMask};

use crate::blurring::square;
use crate::border::region;
use crate::glyph::leanings;
use crate::laps::Laps;
use crate::stop::Stop;
use crate::telling::tell;
use ass_num::{Mask, Region};
use mask_cover::{cover, sum_of};
use std::alloc::Global;
use std::time::Instant;

/// Times the mask of a region.
fn measure_mask(rt: &HostRuntime, name: &str, region: &Region, turns: u32) -> Result<(), Stop>
    requires { IsRegionWithin max_sample region.now.top region.now.rows }
{
    let mut laps = Laps::new();
    let mut count = 0;
    for _ in 0..turns {
        let began = Instant::now(rt)?;
        let mask = cover(rt.alloc(), region, 3, 5)?;
        laps.add(began.elapsed(rt)?);
        count = mask.bytes().len();
    }
    tell(rt, "cover", name, count, "pixels", &laps)
}

/// Times the mask of a glyph that is so many pixels high.
pub fn measure_cover(rt: &HostRuntime, pixels: u32, turns: u32) -> Result<(), Stop> {
    for (name, side, lean) in leanings(pixels) {
        let region = region(rt.alloc(), side, lean)?;
        measure_mask(rt, name, &region, turns)?;
    }
    Ok(())
}

/// The longest side of a square.
const MAX_SIDE: u16 = 1_080;

/// How many squares a sum has.
const COUNT: u8 = 10;

/// Square k of a row, in which each is moved right by half of its side from that before it.
fn part(alloc: Global, side: u16, k: u8) -> Result<(Mask, i32, i32), Stop>
    requires side { side ≤ MAX_SIDE }
    requires place { k < COUNT }
    ensures { IfOk result IsPlaceableMask }
{
    Ok((
        square(alloc, side, 255, 1)?,
        i32::from(k) * i32::from(side / 2),
        0,
    ))
}

/// A row of squares with sides of so many pixels.
fn squares(alloc: Global, side: u16) -> Result<Vec<(Mask, i32, i32)>, Stop>
    requires { side ≤ MAX_SIDE }
    ensures { IfOk result (λ parts. All IsPlaceableMask parts.items) }
{
    let mut parts = Vec::new(alloc);
    for k in 0..COUNT {
        parts.push(part(alloc, side, k)?)?;
    }
    Ok(parts)
}

/// Times the sum of ten squares with sides of so many pixels, of which each covers half of the next.
pub fn measure_sum(rt: &HostRuntime, side: u32, turns: u32) -> Result<(), Stop> {
    if side > u32::from(MAX_SIDE) {
        return Err(Stop::SizeOutOfRange);
    }
    let parts = squares(rt.alloc(), side as u16)?;
    let mut laps = Laps::new();
    let mut count = 0;
    for _ in 0..turns {
        let began = Instant::now(rt)?;
        let sum = sum_of(rt.alloc(), parts.as_slice())?;
        laps.add(began.elapsed(rt)?);
        count = sum.bytes().len();
    }
    tell(rt, "sum", "ten squares", count, "pixels", &laps)
}

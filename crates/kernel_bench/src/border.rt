//! Borders of the glyphs whose regions are measured.

ghost use Rattle.std.specs.Prelude.{IfOk, ◌≤◌, ◌*◌};
ghost use Rattle.ass_num.specs.Limits.{IsRegionWithin, max_sample};
ghost use Rattle.border_region.specs.Limits.{max_radius};

use crate::glyph::{glyph, leanings};
use crate::laps::Laps;
use crate::stop::Stop;
use crate::telling::tell;
use ass_num::{Mem, Region};
use border_region::widened;
use sample_region::region_of;
use std::alloc::Global;
use std::time::Instant;

/// The region of a glyph.
pub fn region(alloc: Global, side: i64, lean: i64) -> Mem<Region>
    ensures { IfOk result (λ r. IsRegionWithin max_sample r.top r.rows) }
{
    let region = region_of(alloc, &glyph(alloc, side, lean)?)?;
    Ok(region)
}

/// Times a border of so many pixels around a region.
fn measure_border(
    rt: &HostRuntime,
    kernel: &str,
    name: &str,
    region: &Region,
    pixels: u32,
    turns: u32,
) -> Result<(), Stop>
    requires within { IsRegionWithin max_sample region.now.top region.now.rows }
    requires pixels { 16 * pixels ≤ max_radius }
{
    let radius = 16 * pixels;
    let mut laps = Laps::new();
    let mut rows = 0;
    for _ in 0..turns {
        let began = Instant::now(rt)?;
        let border = widened(rt.alloc(), region, radius, radius)?;
        laps.add(began.elapsed(rt)?);
        rows = border.rows().len();
    }
    tell(rt, kernel, name, rows, "rows", &laps)
}

/// Times borders of 2 and of 20 pixels around a glyph that is so many pixels high.
pub fn measure(rt: &HostRuntime, pixels: u32, turns: u32) -> Result<(), Stop> {
    for (name, side, lean) in leanings(pixels) {
        let region = region(rt.alloc(), side, lean)?;
        measure_border(rt, "border of 2 pixels", name, &region, 2, turns)?;
        measure_border(rt, "border of 20 pixels", name, &region, 20, turns)?;
    }
    Ok(())
}

//! Regions of a glyph that is made of dots.

ghost use Rattle.std.specs.Prelude.{OnOk, IfOk};
ghost use Rattle.ass_num.specs.Limits.{IsOutline, IsOutlinePoint};

use crate::laps::Laps;
use crate::stop::Stop;
use crate::telling::tell;
use ass_num::{FlatLists, Mem, Outline, Point};
use sample_region::region_of;
use std::alloc::Global;
use std::time::Instant;

/// A point, held near 0.
fn point(x: i64, y: i64) -> Point
    ensures { IsOutlinePoint result }
{
    Point {
        x: x.max(-262144).min(262144),
        y: y.max(-262144).min(262144),
    }
}

/// Adds a square dot with this corner, side and lean.
pub fn add_dot(rings: &mut FlatLists<Point>, x: i64, y: i64, side: i64, lean: i64) -> Mem<()>
    requires { IsOutline rings.old }
    ensures { OnOk result (IsOutline rings.new) }
{
    let (right, bottom) = (x.wrapping_add(side), y.wrapping_add(side));
    let ring = [
        point(x, y),
        point(right, y.wrapping_sub(lean)),
        point(right.wrapping_add(lean), bottom.wrapping_sub(lean)),
        point(x.wrapping_add(lean), bottom),
    ];
    rings.push(&ring)?;
    Ok(())
}

/// Adds the dot in this column and row, where the glyph has one.
fn add_cell(rings: &mut FlatLists<Point>, column: u8, row: u8, side: i64, lean: i64) -> Mem<()>
    requires { IsOutline rings.old }
    ensures { OnOk result (IsOutline rings.new) }
{
    let (a, b) = (u32::from(column), u32::from(row));
    let place = a * a + 3 * b * b + a * b;
    if place & 3 == 1 || place & 3 == 2 {
        return Ok(());
    }
    let (i, j) = (i64::from(column), i64::from(row));
    add_dot(
        rings,
        i.wrapping_mul(side).wrapping_add(j.wrapping_mul(lean)),
        j.wrapping_mul(side).wrapping_sub(i.wrapping_mul(lean)),
        side,
        lean,
    )
}

/// A glyph of 160 dots on a grid of 16 by 16.
pub fn glyph(alloc: Global, side: i64, lean: i64) -> Mem<Outline>
    ensures { IfOk result (λ outline. IsOutline outline.rings) }
{
    let mut rings = FlatLists::new(alloc);
    for column in 0..16u8 {
        for row in 0..16u8 {
            add_cell(&mut rings, column, row, side, lean)?;
        }
    }
    Ok(Outline { rings })
}

/// Times the region of an outline.
pub fn measure_region(
    rt: &HostRuntime,
    name: &str,
    outline: &Outline,
    turns: u32,
) -> Result<(), Stop>
    requires { IsOutline outline.now.rings }
{
    let mut laps = Laps::new();
    let mut rows = 0;
    for _ in 0..turns {
        let began = Instant::now(rt)?;
        let region = region_of(rt.alloc(), outline)?;
        laps.add(began.elapsed(rt)?);
        rows = region.rows().len();
    }
    tell(rt, "region", name, rows, "rows", &laps)
}

/// A glyph that is so many pixels high, and the same glyph turned a little: what they are called, and the side and the lean of
/// their dots.
pub fn leanings(pixels: u32) -> [(&'static str, i64, i64); 2] {
    let side = i64::from(pixels) * 4;
    [
        ("upright", side, 0),
        ("turned", side - side / 80, side * 3 / 20),
    ]
}

/// Times the regions of a glyph that is so many pixels high.
pub fn measure(rt: &HostRuntime, pixels: u32, turns: u32) -> Result<(), Stop> {
    for (name, side, lean) in leanings(pixels) {
        let outline = glyph(rt.alloc(), side, lean)?;
        measure_region(rt, name, &outline, turns)?;
    }
    Ok(())
}

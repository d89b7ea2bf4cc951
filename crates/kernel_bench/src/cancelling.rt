//! Edges that cancel, in glyphs of many pixels.

ghost use Rattle.std.specs.Prelude.{IfOk, OnOk};
ghost use Rattle.ass_num.specs.Limits.{IsOutline};

use crate::glyph::add_dot;
use crate::laps::Laps;
use crate::stop::Stop;
use crate::telling::tell;
use ass_num::{FlatLists, Mem, Outline, Point};
use cancelled_edges::cancelled;
use std::alloc::Global;
use std::time::Instant;

/// Adds the quad of set pixel k of a chessboard.
fn add_pixel(rings: &mut FlatLists<Point>, k: u32, columns: u32, block: u16) -> Mem<()>
    requires { IsOutline rings.old }
    ensures { OnOk result (IsOutline rings.new) }
{
    let (place, row) = (i64::from(k % columns.max(1)), i64::from(k / columns.max(1)));
    let block = i64::from(block.max(1));
    let column = place / block * block + place + row / block % 2 * block;
    add_dot(rings, column.wrapping_mul(64), row.wrapping_mul(64), 64, 0)
}

/// A chessboard of so many set pixels, each a pixel of the picture. Its fields are `block` set pixels wide and high, and a row has
/// a quarter more set pixels than there are rows.
fn chessboard(alloc: Global, pixels: u32, block: u16) -> Mem<Outline>
    ensures { IfOk result (λ outline. IsOutline outline.rings) }
{
    let columns = (pixels / 4).saturating_mul(5).isqrt();
    let mut rings = FlatLists::new(alloc);
    for k in 0..pixels {
        add_pixel(&mut rings, k, columns, block)?;
    }
    Ok(Outline { rings })
}

fn edge_count(outline: &Outline) -> usize {
    outline.rings.all_items().len()
}

/// Times cancelling the edges of an outline.
fn measure_cancelled(
    rt: &HostRuntime,
    name: &str,
    outline: &Outline,
    turns: u32,
) -> Result<(), Stop> {
    let mut laps = Laps::new();
    let mut left = 0;
    for _ in 0..turns {
        let began = Instant::now(rt)?;
        let boundary = cancelled(rt.alloc(), outline)?;
        laps.add(began.elapsed(rt)?);
        left = edge_count(&boundary);
    }
    tell(rt, "cancel", name, left, "edges left", &laps)
}

fn measure_chessboard(
    rt: &HostRuntime,
    name: &str,
    pixels: u32,
    block: u16,
    turns: u32,
) -> Result<(), Stop> {
    let outline = chessboard(rt.alloc(), pixels, block)?;
    measure_cancelled(rt, name, &outline, turns)
}

/// Times a rectangle of so many set pixels, a chessboard with fields of 4 by 4 pixels, and one of single pixels, where no
/// edges cancel.
pub fn measure(rt: &HostRuntime, pixels: u32, turns: u32) -> Result<(), Stop> {
    if pixels > 200_000 {
        return Err(Stop::SizeOutOfRange);
    }
    measure_chessboard(rt, "rectangle", pixels, u16::MAX, turns)?;
    measure_chessboard(rt, "fields of 4 by 4", pixels, 4, turns)?;
    measure_chessboard(rt, "single pixels", pixels, 1, turns)
}

//! Outlines of glyphs that aren't turned: a rectangle for each run of set pixels of a row.

ghost use Rattle.std.specs.Prelude.{◌≡◌, ℤ, ◌<◌, ◌≤◌, ◌+ℤ◌, pos, length, slice_get, Some, IfOk, OnOk};
ghost use Rattle.ass_num.specs.Limits.{IsOutline};
ghost use Rattle.ass_num.specs.Winding.{winding};
ghost use Rattle.bdf_font.specs.GlyphRings.{bitmap_of, rings_of_glyph, shape_rings};
ghost use Rattle.bdf_font.specs.Ranges.{IsBitmap, IsFont};
ghost use Rattle.outline_points.specs.Glyphs.{row_quads, bitmap_quads};
ghost use Rattle.outline_points.specs.Placing.{IsMatrix};
ghost use Rattle.fixed_outline.specs.Runs.{IsGap, IsSetRun, run_quads};

use crate::bars::add_bars;
use crate::glyphs::{column_left, contours_drawn, row_top};
use crate::style::{Style, add_quad, style_of};
use ass_num::{FlatLists, Matrix, Mem, Outline, Point};
use bdf_font::{Font, Pixels};
use std::alloc::Global;

/// The first set pixel of row j from column `from` on, or the width.
fn run_start(pixels: &Pixels, j: u32, from: u32) -> u32
    requires bitmap { IsBitmap pixels.now }
    requires row { j < pixels.now.h }
    requires from { from ≤ pixels.now.w }
    ensures { IsGap (bitmap_of pixels.now) j from result }
{
    let mut i = from;
    while i < pixels.w && !pixels.is_set(i, j) {
        i += 1;
    }
    i
}

/// The first pixel of row j from column `from` on that isn't set, or the width.
fn run_end(pixels: &Pixels, j: u32, from: u32) -> u32
    requires bitmap { IsBitmap pixels.now }
    requires row { j < pixels.now.h }
    requires from { from ≤ pixels.now.w }
    ensures { IsSetRun (bitmap_of pixels.now) j from result }
{
    let mut i = from;
    while i < pixels.w && pixels.is_set(i, j) {
        i += 1;
    }
    i
}

/// Adds the rectangle of the pixels of row j from column `from` up to `to`, and its bold one.
fn add_run(
    style: &Style,
    pixels: &Pixels,
    j: u32,
    from: u32,
    to: u32,
    rings: &mut FlatLists<Point>,
) -> Mem<()>
    requires bitmap { IsBitmap pixels.now }
    requires row { j < pixels.now.h }
    requires some { from < to }
    requires run { IsSetRun (bitmap_of pixels.now) j from to }
    requires upright { style.now.matrix.turn ≡ pos 0 }
    ensures winding { OnOk result ((i k : ℤ) → winding rings.new i k ≡ winding rings.old i k
        +ℤ winding (run_quads style.now.matrix style.now.bold (bitmap_of pixels.now) j from to) i k) }
    ensures within { OnOk result (IsOutline rings.old → IsOutline rings.new) }
{
    let (left, right) = (column_left(pixels, from), column_left(pixels, to - 1) + 1);
    let top = row_top(pixels, j);
    add_quad(style, left, top, right, top + 1, rings)?;
    if style.bold {
        add_quad(style, left + 1, top, right + 1, top + 1, rings)?;
        return Ok(());
    }
    Ok(())
}

/// Adds the rectangles of row j.
fn add_row(style: &Style, pixels: &Pixels, j: u32, rings: &mut FlatLists<Point>) -> Mem<()>
    requires bitmap { IsBitmap pixels.now }
    requires row { j < pixels.now.h }
    requires upright { style.now.matrix.turn ≡ pos 0 }
    ensures winding { OnOk result ((i k : ℤ) → winding rings.new i k ≡ winding rings.old i k
        +ℤ winding (row_quads style.now.matrix style.now.bold (bitmap_of pixels.now) j) i k) }
    ensures within { OnOk result (IsOutline rings.old → IsOutline rings.new) }
{
    let mut from = run_start(pixels, j, 0);
    while from < pixels.w {
        let to = run_end(pixels, j, from);
        add_run(style, pixels, j, from, to, rings)?;
        from = run_start(pixels, j, to);
    }
    Ok(())
}

/// Adds the rectangles of all rows.
fn add_rows(style: &Style, pixels: &Pixels, rings: &mut FlatLists<Point>) -> Mem<()>
    requires bitmap { IsBitmap pixels.now }
    requires upright { style.now.matrix.turn ≡ pos 0 }
    ensures winding { OnOk result ((i k : ℤ) → winding rings.new i k ≡ winding rings.old i k
        +ℤ winding (bitmap_quads style.now.matrix style.now.bold (bitmap_of pixels.now)) i k) }
    ensures within { OnOk result (IsOutline rings.old → IsOutline rings.new) }
{
    for j in 0..pixels.h {
        add_row(style, pixels, j, rings)?;
    }
    Ok(())
}

/// The rectangles of a bitmap.
fn runs(alloc: Global, style: &Style, pixels: &Pixels) -> Mem<FlatLists<Point>>
    requires bitmap { IsBitmap pixels.now }
    requires upright { style.now.matrix.turn ≡ pos 0 }
    ensures winding { IfOk result (λ rings. (i k : ℤ) → winding rings i k
        ≡ winding (bitmap_quads style.now.matrix style.now.bold (bitmap_of pixels.now)) i k) }
    ensures within { IfOk result IsOutline }
{
    let mut rings = FlatLists::new(alloc);
    add_rows(style, pixels, &mut rings)?;
    Ok(rings)
}

/// Rings with the winding numbers of those of a glyph's shape.
fn runs_of_shape(alloc: Global, style: &Style, font: &Font, glyph: u32) -> Mem<FlatLists<Point>>
    requires font { IsFont font.now }
    requires glyph { glyph < length font.now.glyphs }
    requires upright { style.now.matrix.turn ≡ pos 0 }
    ensures winding { IfOk result (λ rings. (g : _) → slice_get font.now.glyphs glyph ≡ Some g
        → (i k : ℤ) → winding rings i k ≡ winding (shape_rings style.now.matrix style.now.bold font.now.bold_step g.shape) i k) }
    ensures within { IfOk result IsOutline }
{
    match font.pixels_at(glyph) {
        Some(pixels) => runs(alloc, style, pixels),
        None => contours_drawn(alloc, style, font, glyph),
    }
}

/// An outline with the winding numbers of a glyph's rings, where the matrix doesn't turn: the rings of its contours, or a
/// rectangle for each run of set pixels of a row, each with its bold one; and then the bars.
pub fn runs_of(
    alloc: Global,
    font: &Font,
    glyph: u32,
    m: &Matrix,
    bold: bool,
    underline: bool,
    strikeout: bool,
) -> Mem<Outline>
    requires font { IsFont font.now }
    requires glyph { glyph < length font.now.glyphs }
    requires matrix { IsMatrix m.now }
    requires upright { m.now.turn ≡ pos 0 }
    ensures winding { IfOk result (λ o. (g : _) → slice_get font.now.glyphs glyph ≡ Some g
        → (i k : ℤ) → winding o.rings i k ≡ winding (rings_of_glyph m.now bold underline strikeout font.now g) i k) }
    ensures within { IfOk result (λ o. IsOutline o.rings) }
{
    let style = style_of(m, bold);
    let mut rings = runs_of_shape(alloc, &style, font, glyph)?;
    add_bars(&style, font, glyph, underline, strikeout, &mut rings)?;
    Ok(Outline { rings })
}

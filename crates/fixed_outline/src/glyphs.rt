//! The quads of bitmaps, and the outlines of glyphs.

ghost use Rattle.std.specs.Prelude.{◌≡◌, ◌<◌, ◌≤◌, ◌+◌, ◌*◌, ◌++◌, length, pos, neg_ℤ, ◌+ℤ◌, ◌-ℤ◌, slice_get, Some, IfOk, OnOk};
ghost use Rattle.ass_num.specs.Limits.{IsOutline, IsWithin};
ghost use Rattle.bdf_font.specs.GlyphRings.{bitmap_of, rings_of_glyph, shape_rings};
ghost use Rattle.bdf_font.specs.Pixels.{contours_in, strokes_in};
ghost use Rattle.bdf_font.specs.Ranges.{IsBitmap, IsFont};
ghost use Rattle.outline_points.specs.Contours.{contour_rings};
ghost use Rattle.outline_points.specs.CubicContours.{stroke_rings};
ghost use Rattle.outline_points.specs.Placing.{IsMatrix};
ghost use Rattle.outline_points.specs.Glyphs.{row_quads, bitmap_quads, pixel_quads, set_quads};
ghost use Rattle.fixed_outline.specs.Limits.{max_corner, max_bitmap_bytes};

use crate::bars::add_bars;
use crate::contours::add_contours;
use crate::strokes::add_stroke_rings;
use crate::style::{Style, add_quad, style_of};
use ass_num::{FlatLists, Matrix, Mem, Outline, Point};
use bdf_font::{Font, Pixels};
use std::alloc::Global;

/// The quads of a set pixel whose upper left corner is (a, b).
fn add_pixel(style: &Style, a: i64, b: i64, rings: &mut FlatLists<Point>) -> Mem<()>
    requires a { IsWithin max_corner a }
    requires b { IsWithin max_corner b }
    ensures added { OnOk result (rings.new ≡ rings.old ++ set_quads style.now.matrix style.now.bold a b) }
    ensures within { OnOk result (IsOutline rings.old → IsOutline rings.new) }
{
    add_quad(style, a, b, a + 1, b + 1, rings)?;
    if style.bold {
        let right = a + 1;
        add_quad(style, right, b, right + 1, b + 1, rings)?;
        return Ok(());
    }
    Ok(())
}

/// The left edge of column i of a bitmap.
pub fn column_left(pixels: &Pixels, i: u32) -> i64
    requires bitmap { IsBitmap pixels.now }
    requires column { i < pixels.now.w }
    ensures value { result ≡ pixels.now.x +ℤ pos i }
    ensures within { IsWithin max_corner result }
{
    i64::from(pixels.x) + i64::from(i)
}

/// The upper edge of row j of a bitmap.
pub fn row_top(pixels: &Pixels, j: u32) -> i64
    requires bitmap { IsBitmap pixels.now }
    requires row { j < pixels.now.h }
    ensures value { result ≡ neg_ℤ ((pixels.now.y +ℤ pos pixels.now.h) -ℤ pos j) }
    ensures within { IsWithin max_corner result }
{
    -(i64::from(pixels.y) + i64::from(pixels.h) - i64::from(j))
}

/// The quads of the pixel in column i and row j, if it is set.
fn add_place(
    style: &Style,
    pixels: &Pixels,
    i: u32,
    j: u32,
    rings: &mut FlatLists<Point>,
) -> Mem<()>
    requires bitmap { IsBitmap pixels.now }
    requires column { i < pixels.now.w }
    requires row { j < pixels.now.h }
    ensures added { OnOk result (rings.new ≡ rings.old ++ pixel_quads style.now.matrix style.now.bold (bitmap_of pixels.now) j i) }
    ensures within { OnOk result (IsOutline rings.old → IsOutline rings.new) }
{
    if pixels.is_set(i, j) {
        add_pixel(style, column_left(pixels, i), row_top(pixels, j), rings)?;
        return Ok(());
    }
    Ok(())
}

/// The quads of row j of a bitmap.
fn add_row(style: &Style, pixels: &Pixels, j: u32, rings: &mut FlatLists<Point>) -> Mem<()>
    requires bitmap { IsBitmap pixels.now }
    requires row { j < pixels.now.h }
    ensures added { OnOk result (rings.new ≡ rings.old ++ row_quads style.now.matrix style.now.bold (bitmap_of pixels.now) j) }
    ensures within { OnOk result (IsOutline rings.old → IsOutline rings.new) }
{
    for i in 0..pixels.w {
        add_place(style, pixels, i, j, rings)?;
    }
    Ok(())
}

/// The quads of all rows of a bitmap.
fn add_rows(style: &Style, pixels: &Pixels, rings: &mut FlatLists<Point>) -> Mem<()>
    requires { IsBitmap pixels.now }
    ensures added { OnOk result (rings.new ≡ rings.old ++ bitmap_quads style.now.matrix style.now.bold (bitmap_of pixels.now)) }
    ensures within { OnOk result (IsOutline rings.old → IsOutline rings.new) }
{
    for j in 0..pixels.h {
        add_row(style, pixels, j, rings)?;
    }
    Ok(())
}

/// The sum of the bits that are set in each byte.
fn set_bits(bits: &[u8]) -> usize
    requires { length bits.now ≤ max_bitmap_bytes }
    ensures { result ≤ 255 * length bits.now }
{
    let mut count = 0;
    for byte in bits {
        count += byte.count_ones() as usize;
    }
    count
}

/// How many rings there is room for: those of all set bits of the bitmap, and two bars.
fn room_of(style: &Style, pixels: &Pixels) -> usize
    requires { IsBitmap pixels.now }
    ensures { result ≤ 510 * max_bitmap_bytes + 2 }
{
    let set = set_bits(pixels.bits.as_slice());
    if style.bold {
        return 2 * set + 2;
    }
    set + 2
}

/// The quads of a bitmap, with room for two bars.
fn quads(alloc: Global, style: &Style, pixels: &Pixels) -> Mem<FlatLists<Point>>
    requires { IsBitmap pixels.now }
    ensures value { IfOk result (λ rings. rings ≡ bitmap_quads style.now.matrix style.now.bold (bitmap_of pixels.now)) }
    ensures within { IfOk result IsOutline }
{
    let room = room_of(style, pixels);
    let mut rings = FlatLists::with_capacity(alloc, room, 4 * room)?;
    add_rows(style, pixels, &mut rings)?;
    Ok(rings)
}

/// The rings of the contours of a glyph; none of a bitmap.
pub fn contours_drawn(
    alloc: Global,
    style: &Style,
    font: &Font,
    glyph: u32,
) -> Mem<FlatLists<Point>>
    requires font { IsFont font.now }
    requires glyph { glyph < length font.now.glyphs }
    ensures value { IfOk result (λ rings. (g : _) → slice_get font.now.glyphs glyph ≡ Some g
        → rings ≡ contour_rings style.now.matrix style.now.bold font.now.bold_step (contours_in g.shape)
        ++ stroke_rings style.now.matrix style.now.bold font.now.bold_step (strokes_in g.shape)) }
    ensures within { IfOk result IsOutline }
{
    let step = i64::from(font.bold_step());
    let contours = font.contours_at(alloc, glyph)?;
    let strokes = font.strokes_at(alloc, glyph)?;
    let mut rings = FlatLists::new(alloc);
    add_contours(alloc, style, step, &contours, &mut rings)?;
    add_stroke_rings(alloc, style, step, &strokes, &mut rings)?;
    Ok(rings)
}

/// The rings of a glyph's shape.
fn rings_of_shape(alloc: Global, style: &Style, font: &Font, glyph: u32) -> Mem<FlatLists<Point>>
    requires font { IsFont font.now }
    requires glyph { glyph < length font.now.glyphs }
    ensures value { IfOk result (λ rings. (g : _) → slice_get font.now.glyphs glyph ≡ Some g
        → rings ≡ shape_rings style.now.matrix style.now.bold font.now.bold_step g.shape) }
    ensures within { IfOk result IsOutline }
{
    match font.pixels_at(glyph) {
        Some(pixels) => quads(alloc, style, pixels),
        None => contours_drawn(alloc, style, font, glyph),
    }
}

/// The outline of a glyph: the rings of its contours, or a quad for each set pixel, row by row, each with its bold one; and
/// then the bars.
pub fn quads_of(
    alloc: Global,
    font: &Font,
    glyph: u32,
    m: &Matrix,
    bold: bool,
    underline: bool,
    strikeout: bool,
) -> Mem<Outline>
    requires font { IsFont font.now }
    requires glyph { glyph < length font.now.glyphs }
    requires matrix { IsMatrix m.now }
    ensures value { IfOk result (λ o. (g : _) → slice_get font.now.glyphs glyph ≡ Some g
        → o.rings ≡ rings_of_glyph m.now bold underline strikeout font.now g) }
    ensures within { IfOk result (λ o. IsOutline o.rings) }
{
    let style = style_of(m, bold);
    let mut rings = rings_of_shape(alloc, &style, font, glyph)?;
    add_bars(&style, font, glyph, underline, strikeout, &mut rings)?;
    Ok(Outline { rings })
}

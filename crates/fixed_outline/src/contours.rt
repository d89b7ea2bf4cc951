//! The rings of contours.

ghost use Rattle.std.specs.Prelude.{◌≡◌, ◌<◌, ◌≤◌, ◌-◌, ◌++◌, ◌∷◌, [], length, map, All, IfOk, OnOk, if◌then◌else◌, pos, ◌*ℤ◌};
ghost use Rattle.std.specs.List.{range_with_len};
ghost use Rattle.ass_num.specs.Floor.{floor_div};
ghost use Rattle.ass_num.specs.Limits.{IsOutline, IsOutlinePoint, IsPointWithin, IsWithin, one_16};
ghost use Rattle.outline_points.specs.Contours.{IsGlyphPoint, bold_shift, contour_points, contour_ring, contour_rings, moved_rings};
ghost use Rattle.outline_points.specs.Contours.{place_before, place_behind, point_at, points_between, quadratic_point, quadratic_points};
ghost use Rattle.outline_points.specs.Limits.{max_contour, max_pixel, max_scaled_length};
ghost use Rattle.outline_points.specs.Placing.{IsMatrix, IsScale, outline_point};

use crate::style::Style;
use ass_num::{FlatLists, Matrix, Mem, Point};
use outline_points::{GlyphPoint, Turn, contour_point, curve_end, quadratic_point, steps_of};
use std::alloc::Global;

/// The last step of a curve that is drawn: not that of a point of the contour itself.
fn last_step(n: u16, ends_on: bool) -> u16
    requires { 1 ≤ n }
    ensures value { result ≡ (if ends_on then n - 1 else n) }
    ensures most { result ≤ n }
{
    if ends_on {
        return n - 1;
    }
    n
}

/// Adds the points of a quadratic curve of n steps, turned and held, from its first step up to `last`.
fn add_steps(
    turn: &Turn,
    a: Point,
    b: Point,
    c: Point,
    n: u16,
    last: u16,
    ring: &mut Vec<Point>,
) -> Mem<()>
    requires a { IsPointWithin max_contour a }
    requires b { IsPointWithin max_contour b }
    requires c { IsPointWithin max_contour c }
    requires some { 1 ≤ n }
    requires steps { n ≤ 32 }
    requires last { last ≤ n }
    ensures added { OnOk result (ring.new.items
        ≡ ring.old.items ++ map (outline_point turn.now.angle) (map (quadratic_point a b c n) (range_with_len 1 last))) }
    ensures within { OnOk result (All IsOutlinePoint ring.old.items → All IsOutlinePoint ring.new.items) }
{
    for u in 1..last + 1 {
        ring.push(turn.outline_point(quadratic_point(a, b, c, n, u)))?;
    }
    Ok(())
}

/// Adds the points of a quadratic curve, turned and held, without its first point.
fn add_curve(
    turn: &Turn,
    a: Point,
    b: Point,
    c: Point,
    ends_on: bool,
    ring: &mut Vec<Point>,
) -> Mem<()>
    requires a { IsPointWithin max_contour a }
    requires b { IsPointWithin max_contour b }
    requires c { IsPointWithin max_contour c }
    ensures added { OnOk result (ring.new.items ≡ ring.old.items ++ map (outline_point turn.now.angle) (quadratic_points a b c ends_on)) }
    ensures within { OnOk result (All IsOutlinePoint ring.old.items → All IsOutlinePoint ring.new.items) }
{
    let n = steps_of(a, b, c);
    let last = last_step(n, ends_on);
    add_steps(turn, a, b, c, n, last, ring)?;
    Ok(())
}

/// Adds what a point adds to its ring: itself, or a curve between its neighbours.
fn add_between(
    style: &Style,
    shift: i64,
    before: GlyphPoint,
    here: GlyphPoint,
    behind: GlyphPoint,
    ring: &mut Vec<Point>,
) -> Mem<()>
    requires shift { IsWithin max_scaled_length shift }
    requires before { IsGlyphPoint before }
    requires here { IsGlyphPoint here }
    requires behind { IsGlyphPoint behind }
    ensures added { OnOk result (ring.new.items
        ≡ ring.old.items ++ map (outline_point style.now.matrix.turn) (points_between style.now.matrix shift before here behind)) }
    ensures within { OnOk result (All IsOutlinePoint ring.old.items → All IsOutlinePoint ring.new.items) }
{
    let m = &style.matrix;
    let b = contour_point(m, shift, here);
    if here.is_on {
        ring.push(style.turn.outline_point(b))?;
        return Ok(());
    }
    let a = curve_end(before.is_on, contour_point(m, shift, before), b);
    let c = curve_end(behind.is_on, contour_point(m, shift, behind), b);
    add_curve(&style.turn, a, b, c, behind.is_on, ring)?;
    Ok(())
}

/// The place before place i of n in a circle.
fn place_before(n: usize, i: usize) -> usize
    requires { i < n }
    ensures value { result ≡ place_before n i }
    ensures within { result < n }
{
    if i == 0 {
        return n - 1;
    }
    i - 1
}

/// The place behind place i of n in a circle.
fn place_behind(n: usize, i: usize) -> usize
    requires { i < n }
    ensures value { result ≡ place_behind n i }
    ensures within { result < n }
{
    if i + 1 == n {
        return 0;
    }
    i + 1
}

/// The point at a place of a contour.
fn point_at(contour: &[GlyphPoint], i: usize) -> GlyphPoint
    requires { i < length contour.now }
    ensures { result ≡ point_at contour.now i }
{
    contour[i]
}

/// Adds the points of a contour's ring.
fn add_points(style: &Style, shift: i64, contour: &[GlyphPoint], ring: &mut Vec<Point>) -> Mem<()>
    requires shift { IsWithin max_scaled_length shift }
    requires contour { All IsGlyphPoint contour.now }
    ensures added { OnOk result (ring.new.items
        ≡ ring.old.items ++ map (outline_point style.now.matrix.turn) (contour_points style.now.matrix shift contour.now)) }
    ensures within { OnOk result (All IsOutlinePoint ring.old.items → All IsOutlinePoint ring.new.items) }
{
    let n = contour.len();
    for i in 0..n {
        let before = point_at(contour, place_before(n, i));
        let here = point_at(contour, i);
        let behind = point_at(contour, place_behind(n, i));
        add_between(style, shift, before, here, behind, ring)?;
    }
    Ok(())
}

/// Adds the ring of a contour. The points of `ring` are cleared.
fn add_ring(
    style: &Style,
    shift: i64,
    contour: &[GlyphPoint],
    ring: &mut Vec<Point>,
    rings: &mut FlatLists<Point>,
) -> Mem<()>
    requires shift { IsWithin max_scaled_length shift }
    requires contour { All IsGlyphPoint contour.now }
    ensures added { OnOk result (rings.new ≡ rings.old ++ contour_ring style.now.matrix shift contour.now ∷ []) }
    ensures within { OnOk result (IsOutline rings.old → IsOutline rings.new) }
{
    ring.clear();
    add_points(style, shift, contour, ring)?;
    rings.push(ring.as_slice())?;
    Ok(())
}

/// Adds the rings of contours that are moved to the right.
fn add_moved(
    alloc: Global,
    style: &Style,
    shift: i64,
    contours: &FlatLists<GlyphPoint>,
    rings: &mut FlatLists<Point>,
) -> Mem<()>
    requires shift { IsWithin max_scaled_length shift }
    requires contours { All (All IsGlyphPoint) contours.now }
    ensures added { OnOk result (rings.new ≡ rings.old ++ moved_rings style.now.matrix shift contours.now) }
    ensures within { OnOk result (IsOutline rings.old → IsOutline rings.new) }
{
    let mut ring = Vec::new(alloc);
    for k in 0..contours.len() {
        add_ring(style, shift, contours.get(k), &mut ring, rings)?;
    }
    Ok(())
}

/// A length in a font's units, scaled.
fn scaled_length(a: i64, u: i64) -> i64
    requires length { IsWithin max_pixel a }
    requires scale { IsScale u }
    ensures value { result ≡ floor_div (a *ℤ u) (pos one_16) }
    ensures within { IsWithin max_scaled_length result }
{
    (a * u).div_euclid(65_536)
}

/// How far a step to the right moves a point once it is scaled.
pub fn bold_shift(m: &Matrix, step: i64) -> i64
    requires matrix { IsMatrix m.now }
    requires step { IsWithin max_pixel step }
    ensures value { result ≡ bold_shift m.now step }
    ensures within { IsWithin max_scaled_length result }
{
    scaled_length(step, m.ux)
}

/// Adds the rings of contours, and where the glyph is bold those of the contours once more, a step to the right.
pub fn add_contours(
    alloc: Global,
    style: &Style,
    step: i64,
    contours: &FlatLists<GlyphPoint>,
    rings: &mut FlatLists<Point>,
) -> Mem<()>
    requires step { IsWithin max_pixel step }
    requires contours { All (All IsGlyphPoint) contours.now }
    ensures added { OnOk result (rings.new ≡ rings.old ++ contour_rings style.now.matrix style.now.bold step contours.now) }
    ensures within { OnOk result (IsOutline rings.old → IsOutline rings.new) }
{
    add_moved(alloc, style, 0, contours, rings)?;
    if style.bold {
        let shift = bold_shift(&style.matrix, step);
        add_moved(alloc, style, shift, contours, rings)?;
        return Ok(());
    }
    Ok(())
}

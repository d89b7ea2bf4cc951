//! The rings of contours of strokes.

ghost use Rattle.std.specs.Prelude.{◌≡◌, ◌≤◌, ◌++◌, ◌∷◌, [], map, All, OnOk, pos};
ghost use Rattle.std.specs.List.{range_with_len};
ghost use Rattle.ass_num.specs.Limits.{IsOutline, IsOutlinePoint, IsPointWithin, IsWithin};
ghost use Rattle.outline_points.specs.CubicContours.{IsGlyphStroke, curve_points, max_stroke, moved_stroke_rings, point_of_cubic, points_from, stroke_end, stroke_points, stroke_ring, stroke_rings};
ghost use Rattle.outline_points.specs.Limits.{max_contour, max_pixel, max_scaled_length};
ghost use Rattle.outline_points.specs.Placing.{outline_point};

use crate::contours::bold_shift;
use crate::style::Style;
use ass_num::{FlatLists, Mem, Point};
use outline_points::{Stroke, Turn, cubic_steps, point_of_cubic, stroke_point};
use std::alloc::Global;

/// Adds the points of a cubic curve, turned and held, without its first point.
fn add_cubic_curve(
    turn: &Turn,
    a: Point,
    b: Point,
    c: Point,
    d: Point,
    ring: &mut Vec<Point>,
) -> Mem<()>
    requires a { IsPointWithin max_contour a }
    requires b { IsPointWithin max_contour b }
    requires c { IsPointWithin max_contour c }
    requires d { IsPointWithin max_contour d }
    ensures added { OnOk result (ring.new.items ≡ ring.old.items ++ map (outline_point turn.now.angle) (curve_points a b c d)) }
    ensures within { OnOk result (All IsOutlinePoint ring.old.items → All IsOutlinePoint ring.new.items) }
{
    let n = cubic_steps(a, b, c, d);
    for u in 1..n + 1 {
        ring.push(turn.outline_point(point_of_cubic(a, b, c, d, n, u)))?;
    }
    Ok(())
}

/// The point that the next stroke begins at.
fn stroke_end(stroke: &Stroke) -> Point
    ensures value { result ≡ stroke_end stroke.now }
    ensures within { IsGlyphStroke stroke.now → IsPointWithin max_stroke result }
{
    match stroke {
        Stroke::Line(p) => *p,
        Stroke::Curve(_, _, d) => *d,
    }
}

/// Adds the points of a stroke from a point.
fn add_stroke(
    style: &Style,
    shift: i64,
    from: Point,
    stroke: &Stroke,
    ring: &mut Vec<Point>,
) -> Mem<()>
    requires shift { IsWithin max_scaled_length shift }
    requires from { IsPointWithin max_stroke from }
    requires stroke { IsGlyphStroke stroke.now }
    ensures added { OnOk result (ring.new.items
        ≡ ring.old.items ++ map (outline_point style.now.matrix.turn) (stroke_points style.now.matrix shift from stroke.now)) }
    ensures within { OnOk result (All IsOutlinePoint ring.old.items → All IsOutlinePoint ring.new.items) }
{
    let m = &style.matrix;
    match stroke {
        Stroke::Line(p) => Ok(ring.push(style.turn.outline_point(stroke_point(m, shift, *p)))?),
        Stroke::Curve(b, c, d) => add_cubic_curve(
            &style.turn,
            stroke_point(m, shift, from),
            stroke_point(m, shift, *b),
            stroke_point(m, shift, *c),
            stroke_point(m, shift, *d),
            ring,
        ),
    }
}

/// Adds the points of a contour's ring.
fn add_strokes(style: &Style, shift: i64, contour: &[Stroke], ring: &mut Vec<Point>) -> Mem<()>
    requires shift { IsWithin max_scaled_length shift }
    requires contour { All IsGlyphStroke contour.now }
    ensures added { OnOk result (ring.new.items
        ≡ ring.old.items ++ map (outline_point style.now.matrix.turn) (points_from style.now.matrix shift (record { x = pos 0; y = pos 0 }) contour.now)) }
    ensures within { OnOk result (All IsOutlinePoint ring.old.items → All IsOutlinePoint ring.new.items) }
{
    let mut from = Point { x: 0, y: 0 };
    for stroke in contour {
        add_stroke(style, shift, from, stroke, ring)?;
        from = stroke_end(stroke);
    }
    Ok(())
}

/// Adds the ring of a contour. The points of `ring` are cleared.
fn add_stroke_ring(
    style: &Style,
    shift: i64,
    contour: &[Stroke],
    ring: &mut Vec<Point>,
    rings: &mut FlatLists<Point>,
) -> Mem<()>
    requires shift { IsWithin max_scaled_length shift }
    requires contour { All IsGlyphStroke contour.now }
    ensures added { OnOk result (rings.new ≡ rings.old ++ stroke_ring style.now.matrix shift contour.now ∷ []) }
    ensures within { OnOk result (IsOutline rings.old → IsOutline rings.new) }
{
    ring.clear();
    add_strokes(style, shift, contour, ring)?;
    rings.push(ring.as_slice())?;
    Ok(())
}

/// Adds the rings of contours that are moved to the right.
fn add_moved_strokes(
    alloc: Global,
    style: &Style,
    shift: i64,
    contours: &FlatLists<Stroke>,
    rings: &mut FlatLists<Point>,
) -> Mem<()>
    requires shift { IsWithin max_scaled_length shift }
    requires contours { All (All IsGlyphStroke) contours.now }
    ensures added { OnOk result (rings.new ≡ rings.old ++ moved_stroke_rings style.now.matrix shift contours.now) }
    ensures within { OnOk result (IsOutline rings.old → IsOutline rings.new) }
{
    let mut ring = Vec::new(alloc);
    for k in 0..contours.len() {
        add_stroke_ring(style, shift, contours.get(k), &mut ring, rings)?;
    }
    Ok(())
}

/// Adds the rings of contours of strokes, and where the glyph is bold those of the contours once more, a step to the right.
pub fn add_stroke_rings(
    alloc: Global,
    style: &Style,
    step: i64,
    contours: &FlatLists<Stroke>,
    rings: &mut FlatLists<Point>,
) -> Mem<()>
    requires step { IsWithin max_pixel step }
    requires contours { All (All IsGlyphStroke) contours.now }
    ensures added { OnOk result (rings.new ≡ rings.old ++ stroke_rings style.now.matrix style.now.bold step contours.now) }
    ensures within { OnOk result (IsOutline rings.old → IsOutline rings.new) }
{
    add_moved_strokes(alloc, style, 0, contours, rings)?;
    if style.bold {
        let shift = bold_shift(&style.matrix, step);
        add_moved_strokes(alloc, style, shift, contours, rings)?;
        return Ok(());
    }
    Ok(())
}

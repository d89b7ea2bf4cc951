//! The points of drawings.

ghost use Rattle.std.specs.Prelude.{◌≡◌, ◌≤◌, ◌++◌, ◌∷◌, [], length, map, All, OnOk, IfOk, drop};
ghost use Rattle.ass_num.specs.Limits.{IsPointWithin, IsHeldPoint};
ghost use Rattle.ass_num.specs.Paths.{IsSegment, IsPath};
ghost use Rattle.outline_points.specs.Limits.{max_scaled, max_length};
ghost use Rattle.outline_points.specs.Placing.{IsMatrix};
ghost use Rattle.outline_points.specs.Curves.{cubic_points, piece_points};
ghost use Rattle.outline_points.specs.Drawings.{scaled_point, spline_points, last_point, end_point, segment_points, walk_points, drawing_extent, larger_point};
ghost use Rattle.outline_points.specs.Drawings.{largest_from};

use crate::curves::{cubic_point, spline_point};
use crate::products::scaled;
use ass_num::{Matrix, Mem, Path, Point, Seg};
use std::alloc::Global;

/// 1 in products of a coordinate of a path and a scale: thousandths with 16 fraction bits.
const PATH_UNIT: u32 = 65_536_000;

/// A point of a path, from thousandths of a script unit to 1/64 pixel.
pub fn scaled_point(m: &Matrix, p: Point) -> Point
    requires matrix { IsMatrix m.now }
    requires point { IsHeldPoint p }
    ensures value { result ≡ scaled_point m.now p }
    ensures within { IsPointWithin max_scaled result }
{
    Point {
        x: scaled(p.x, m.ux, PATH_UNIT),
        y: scaled(p.y, m.uy, PATH_UNIT),
    }
}

/// Where the segment behind this one begins, where this one begins at `vertex`.
pub fn end_point(vertex: Point, seg: &Seg) -> Point
    ensures value { result ≡ end_point vertex seg.now }
    ensures within { IsHeldPoint vertex → IsSegment seg.now → IsHeldPoint result }
{
    match seg {
        Seg::Move(p) => *p,
        Seg::Line(p) => *p,
        Seg::Cubic(_, _, d) => *d,
        Seg::Spline(controls, _) => last_point(vertex, controls.as_slice()),
    }
}

/// The last of the points, or else `vertex`.
fn last_point(vertex: Point, points: &[Point]) -> Point
    ensures value { result ≡ last_point vertex points.now }
    ensures within { IsHeldPoint vertex → All IsHeldPoint points.now → IsHeldPoint result }
{
    if points.is_empty() {
        return vertex;
    }
    points[points.len() - 1]
}

/// Adds a cubic curve without its first point.
fn add_cubic(a: Point, b: Point, c: Point, d: Point, points: &mut Vec<Point>) -> Mem<()>
    requires a { IsPointWithin max_scaled a }
    requires b { IsPointWithin max_scaled b }
    requires c { IsPointWithin max_scaled c }
    requires d { IsPointWithin max_scaled d }
    ensures added { OnOk result (points.new.items ≡ points.old.items ++ cubic_points a b c d) }
    ensures within { OnOk result (All (IsPointWithin max_length) points.old.items → All (IsPointWithin max_length) points.new.items) }
{
    for u in 1..17 {
        points.push(cubic_point(a, b, c, d, u))?;
    }
    Ok(())
}

/// Adds a piece of a spline.
fn add_piece(a: Point, b: Point, c: Point, d: Point, points: &mut Vec<Point>) -> Mem<()>
    requires a { IsPointWithin max_scaled a }
    requires b { IsPointWithin max_scaled b }
    requires c { IsPointWithin max_scaled c }
    requires d { IsPointWithin max_scaled d }
    ensures added { OnOk result (points.new.items ≡ points.old.items ++ piece_points a b c d) }
    ensures within { OnOk result (All (IsPointWithin max_length) points.old.items → All (IsPointWithin max_length) points.new.items) }
{
    for u in 0..17 {
        points.push(spline_point(a, b, c, d, u))?;
    }
    Ok(())
}

/// Adds the points of a spline.
fn add_spline(m: &Matrix, controls: &[Point], points: &mut Vec<Point>) -> Mem<()>
    requires matrix { IsMatrix m.now }
    requires controls { All IsHeldPoint controls.now }
    ensures added { OnOk result (points.new.items ≡ points.old.items ++ spline_points (map (scaled_point m.now) controls.now)) }
    ensures within { OnOk result (All (IsPointWithin max_length) points.old.items → All (IsPointWithin max_length) points.new.items) }
{
    if controls.len() < 3 {
        return Ok(());
    }
    let a = scaled_point(m, controls[0]);
    let b = scaled_point(m, controls[1]);
    let c = scaled_point(m, controls[2]);
    add_pieces(m, a, b, c, &controls[3..], points)
}

/// Adds the points of a spline whose first three control points are scaled already.
fn add_pieces(
    m: &Matrix,
    a: Point,
    b: Point,
    c: Point,
    rest: &[Point],
    points: &mut Vec<Point>,
) -> Mem<()>
    requires matrix { IsMatrix m.now }
    requires a { IsPointWithin max_scaled a }
    requires b { IsPointWithin max_scaled b }
    requires c { IsPointWithin max_scaled c }
    requires rest { All IsHeldPoint rest.now }
    ensures added { OnOk result (points.new.items ≡ points.old.items ++ spline_points (a ∷ b ∷ c ∷ map (scaled_point m.now) rest.now)) }
    ensures within { OnOk result (All (IsPointWithin max_length) points.old.items → All (IsPointWithin max_length) points.new.items) }
{
    let (mut a, mut b, mut c) = (a, b, c);
    for control in rest {
        let d = scaled_point(m, *control);
        add_piece(a, b, c, d, points)?;
        a = b;
        b = c;
        c = d;
    }
    Ok(())
}

/// Adds the points of a segment that begins at `vertex` (Aegisub tag reference, "Drawing tags").
fn push_segment(m: &Matrix, vertex: Point, seg: &Seg, points: &mut Vec<Point>) -> Mem<()>
    requires matrix { IsMatrix m.now }
    requires vertex { IsHeldPoint vertex }
    requires segment { IsSegment seg.now }
    ensures added { OnOk result (points.new.items ≡ points.old.items ++ segment_points m.now vertex seg.now) }
    ensures within { OnOk result (All (IsPointWithin max_length) points.old.items → All (IsPointWithin max_length) points.new.items) }
{
    match seg {
        Seg::Move(p) => Ok(points.push(scaled_point(m, *p))?),
        Seg::Line(p) => Ok(points.push(scaled_point(m, *p))?),
        Seg::Cubic(b, c, d) => add_cubic(
            scaled_point(m, vertex),
            scaled_point(m, *b),
            scaled_point(m, *c),
            scaled_point(m, *d),
            points,
        ),
        Seg::Spline(controls, _) => add_spline(m, controls.as_slice(), points),
    }
}

/// Puts the points of a segment that begins at `vertex` behind `points` (Aegisub tag reference, "Drawing tags").
pub fn add_segment(m: &Matrix, vertex: Point, seg: &Seg, points: Vec<Point>) -> Mem<Vec<Point>>
    requires matrix { IsMatrix m.now }
    requires vertex { IsHeldPoint vertex }
    requires segment { IsSegment seg.now }
    ensures added { IfOk result (λ all. all.items ≡ points.items ++ segment_points m.now vertex seg.now) }
    ensures within { IfOk result (λ all. All (IsPointWithin max_length) points.items → All (IsPointWithin max_length) all.items) }
{
    let mut points = points;
    push_segment(m, vertex, seg, &mut points)?;
    Ok(points)
}

/// The larger x and the larger y of two points.
fn larger_point(p: Point, q: Point) -> Point
    ensures { result ≡ larger_point p q }
{
    Point {
        x: p.x.max(q.x),
        y: p.y.max(q.y),
    }
}

/// The largest x and y of `largest` and the points.
fn largest_from(largest: Point, points: &[Point]) -> Point
    ensures value { result ≡ largest_from largest points.now }
    ensures within { IsPointWithin max_length largest → All (IsPointWithin max_length) points.now → IsPointWithin max_length result }
{
    let mut largest = largest;
    for p in points {
        largest = larger_point(largest, *p);
    }
    largest
}

/// The largest x and the largest y of a drawing before it is shifted and turned, curves by their points; 0 and 0 of none.
pub fn drawing_extent(alloc: Global, path: &Path, m: &Matrix) -> Mem<Point>
    requires matrix { IsMatrix m.now }
    requires path { IsPath path.now.segs }
    ensures value { IfOk result (λ p. p ≡ drawing_extent m.now path.now.segs) }
    ensures within { IfOk result (IsPointWithin max_length) }
{
    let segs = path.segs.as_slice();
    if segs.is_empty() {
        return Ok(Point { x: 0, y: 0 });
    }
    let vertex = end_point(Point { x: 0, y: 0 }, &segs[0]);
    extent_from(alloc, m, vertex, scaled_point(m, vertex), &segs[1..])
}

/// The largest x and y of `largest` and the points of segments from `vertex`.
fn extent_from(alloc: Global, m: &Matrix, vertex: Point, largest: Point, segs: &[Seg]) -> Mem<Point>
    requires matrix { IsMatrix m.now }
    requires vertex { IsHeldPoint vertex }
    requires segments { All IsSegment segs.now }
    requires largest { IsPointWithin max_length largest }
    ensures value { IfOk result (λ p. p ≡ largest_from largest (walk_points m.now vertex segs.now)) }
    ensures within { IfOk result (IsPointWithin max_length) }
{
    let mut vertex = vertex;
    let mut largest = largest;
    let mut points = Vec::new(alloc);
    for seg in segs {
        points = add_segment(m, vertex, seg, points)?;
        largest = largest_from(largest, points.as_slice());
        vertex = end_point(vertex, seg);
        points.clear();
    }
    Ok(largest)
}

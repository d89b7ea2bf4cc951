//! What path operators draw: lines and curves, each by steps from point to point.

ghost use Rattle.std.specs.Prelude.{◌≡◌, ◌++◌, ◌+ℤ◌, OnOk, IfSome};
ghost use Rattle.ass_num.specs.Limits.{IsPointWithin, IsWithin};
ghost use Rattle.outline_points.specs.CubicContours.{max_stroke};
ghost use Rattle.cff_font.specs.Strokes.{glyph_coordinate, point_of, point_behind, step_along, stroke_lines, turning_lines, curves_of, even_curves};
ghost use Rattle.cff_font.specs.Strokes.{even_curves_of, sole, turning_curves, end_of_steps, last_step};

use ass_num::{Mem, Point};
use outline_points::Stroke;

/// The farthest from 0 that a coordinate may be: 65,535 units.
const MAX_STROKE: i128 = 4_294_901_760;

/// A coordinate that isn't too far from 0.
pub fn glyph_coordinate(z: i128) -> Option<i64>
    ensures value { result ≡ glyph_coordinate z }
    ensures within { IfSome result (IsWithin max_stroke) }
{
    if -MAX_STROKE <= z && z <= MAX_STROKE {
        return Some(z as i64);
    }
    None
}

/// A coordinate and a step, if their sum isn't too far from 0.
fn coordinate_behind(coordinate: i64, step: i64) -> Option<i64>
    ensures value { result ≡ glyph_coordinate (coordinate +ℤ step) }
    ensures within { IfSome result (IsWithin max_stroke) }
{
    glyph_coordinate(i128::from(coordinate) + i128::from(step))
}

/// The point of two coordinates, if both are there.
pub fn point_of(x: Option<i64>, y: Option<i64>) -> Option<Point>
    ensures { result ≡ point_of x y }
{
    match x {
        Some(x) => match y {
            Some(y) => Some(Point { x, y }),
            None => None,
        },
        None => None,
    }
}

/// The point that is a step behind another, if it isn't too far from 0.
pub fn point_behind(point: Point, step: Point) -> Option<Point>
    ensures value { result ≡ point_behind point step }
    ensures within { IfSome result (IsPointWithin max_stroke) }
{
    point_of(
        coordinate_behind(point.x, step.x),
        coordinate_behind(point.y, step.y),
    )
}

/// A step along an axis, and one across it.
fn step_along(is_level: bool, along: i64, across: i64) -> Point
    ensures { result ≡ step_along is_level along across }
{
    if is_level {
        return Point {
            x: along,
            y: across,
        };
    }
    Point {
        x: across,
        y: along,
    }
}

/// Adds lines by two numbers each.
pub fn add_lines(operands: &[i64], strokes: &mut Vec<Stroke>) -> Mem<()>
    ensures { OnOk result (strokes.new.items ≡ strokes.old.items ++ stroke_lines operands.now) }
{
    let mut rest = operands;
    while let [x, y, more @ ..] = rest {
        strokes.push(Stroke::Line(Point { x: *x, y: *y }))?;
        rest = more;
    }
    Ok(())
}

/// Adds lines that are level and upright in turn.
pub fn add_turning_lines(is_level: bool, operands: &[i64], strokes: &mut Vec<Stroke>) -> Mem<()>
    ensures { OnOk result (strokes.new.items ≡ strokes.old.items ++ turning_lines is_level operands.now) }
{
    let mut is_level = is_level;
    let mut rest = operands;
    while let [length, more @ ..] = rest {
        strokes.push(Stroke::Line(step_along(is_level, *length, 0)))?;
        is_level = !is_level;
        rest = more;
    }
    Ok(())
}

/// Adds curves by six numbers each.
pub fn add_curves(operands: &[i64], strokes: &mut Vec<Stroke>) -> Mem<()>
    ensures { OnOk result (strokes.new.items ≡ strokes.old.items ++ curves_of operands.now) }
{
    let mut rest = operands;
    while let [a, b, c, d, e, f, more @ ..] = rest {
        let first = Point { x: *a, y: *b };
        let second = Point { x: *c, y: *d };
        let end = Point { x: *e, y: *f };
        strokes.push(Stroke::Curve(first, second, end))?;
        rest = more;
    }
    Ok(())
}

/// Adds curves by four numbers each, which begin and end level, or upright; the first begins so but for `aside`.
fn add_even_curves(
    is_level: bool,
    aside: i64,
    operands: &[i64],
    strokes: &mut Vec<Stroke>,
) -> Mem<()>
    ensures { OnOk result (strokes.new.items ≡ strokes.old.items ++ even_curves is_level aside operands.now) }
{
    let mut aside = aside;
    let mut rest = operands;
    while let [a, b, c, d, more @ ..] = rest {
        let first = step_along(is_level, *a, aside);
        let second = Point { x: *b, y: *c };
        let end = step_along(is_level, *d, 0);
        strokes.push(Stroke::Curve(first, second, end))?;
        aside = 0;
        rest = more;
    }
    Ok(())
}

/// The same, with `aside` in front of the numbers where their count isn't one of four each.
pub fn add_even_curves_of(is_level: bool, operands: &[i64], strokes: &mut Vec<Stroke>) -> Mem<()>
    ensures { OnOk result (strokes.new.items ≡ strokes.old.items ++ even_curves_of is_level operands.now) }
{
    if operands.is_empty() {
        return Ok(());
    }
    if (operands.len() - 1) % 4 == 0 {
        return add_even_curves(is_level, operands[0], &operands[1..], strokes);
    }
    add_even_curves(is_level, 0, operands, strokes)
}

/// The number that is the only one, or 0.
fn sole(operands: &[i64]) -> i64
    ensures { result ≡ sole operands.now }
{
    match operands {
        [number] => *number,
        _ => 0,
    }
}

/// Adds curves by four numbers each, which begin level and end upright, or the other way, in turn; the last one ends so
/// but for a fifth number.
pub fn add_turning_curves(is_level: bool, operands: &[i64], strokes: &mut Vec<Stroke>) -> Mem<()>
    ensures { OnOk result (strokes.new.items ≡ strokes.old.items ++ turning_curves is_level operands.now) }
{
    let mut is_level = is_level;
    let mut rest = operands;
    while let [a, b, c, d, more @ ..] = rest {
        let first = step_along(is_level, *a, 0);
        let second = Point { x: *b, y: *c };
        let end = step_along(!is_level, *d, sole(more));
        strokes.push(Stroke::Curve(first, second, end))?;
        is_level = !is_level;
        rest = more;
    }
    Ok(())
}

/// The point behind steps of two numbers each.
pub fn end_of_steps(from: Point, operands: &[i64]) -> Option<Point>
    ensures value { result ≡ end_of_steps from operands.now }
    ensures within { IsPointWithin max_stroke from → IfSome result (IsPointWithin max_stroke) }
{
    let mut point = from;
    let mut rest = operands;
    while let [x, y, more @ ..] = rest {
        point = point_behind(point, Point { x: *x, y: *y })?;
        rest = more;
    }
    Some(point)
}

/// The last step of a flex: the number is its part along the axis along which the steps before lead farther; across it
/// the step goes back.
pub fn last_step(far: Point, last: i64) -> Point
    requires { IsPointWithin max_stroke far }
    ensures { result ≡ last_step far last }
{
    if far.x.unsigned_abs() > far.y.unsigned_abs() {
        return Point { x: last, y: -far.y };
    }
    Point { x: -far.x, y: last }
}

//! The points of contours: scaled, and as quadratic curves.

ghost use Rattle.std.specs.Prelude.{◌≡◌, ◌≤◌, ◌*◌, pos, ◌+ℤ◌, ◌*ℤ◌};
ghost use Rattle.ass_num.specs.Limits.{IsPointWithin, IsWithin};
ghost use Rattle.outline_points.specs.Contours.{IsGlyphPoint, bend, bold_shift, contour_point, curve_end, max_quadratic_weight};
ghost use Rattle.outline_points.specs.Contours.{middle, quadratic_mean, quadratic_point, steps_for, steps_of};
ghost use Rattle.outline_points.specs.Limits.{max_contour, max_scaled_length, max_unit, max_unturned};
ghost use Rattle.outline_points.specs.Placing.{IsMatrix};

use crate::glyph_point::GlyphPoint;
use crate::glyphs::scaled_pixel;
use crate::products::scaled_length;
use ass_num::{Matrix, Point};

/// The bend of a quadratic curve in one step.
const QUADRATIC_FLATNESS: u64 = 4;

/// How far a step to the right moves a point once it is scaled.
pub fn bold_shift(m: &Matrix, step: i64) -> i64
    requires matrix { IsMatrix m.now }
    requires step { IsWithin max_unit step }
    ensures value { result ≡ bold_shift m.now step }
    ensures within { IsWithin max_scaled_length result }
{
    scaled_length(step, m.ux)
}

/// A point of a contour, scaled and slanted, and then moved to the right.
pub fn contour_point(m: &Matrix, shift: i64, p: GlyphPoint) -> Point
    requires matrix { IsMatrix m.now }
    requires shift { IsWithin max_scaled_length shift }
    requires point { IsGlyphPoint p }
    ensures value { result ≡ contour_point m.now shift p }
    ensures within { IsPointWithin max_contour result }
{
    let scaled = scaled_pixel(m, i64::from(p.x), -i64::from(p.y));
    Point {
        x: scaled.x + shift,
        y: scaled.y,
    }
}

/// The middle of two points.
fn middle(a: Point, b: Point) -> Point
    requires a { IsPointWithin max_contour a }
    requires b { IsPointWithin max_contour b }
    ensures value { result ≡ middle a b }
    ensures within { IsPointWithin max_contour result }
{
    Point {
        x: (a.x + b.x).div_euclid(2),
        y: (a.y + b.y).div_euclid(2),
    }
}

/// Where the curve of b ends on the side of a neighbour: there if that is on the contour, or else halfway.
pub fn curve_end(is_on: bool, neighbour: Point, b: Point) -> Point
    requires neighbour { IsPointWithin max_contour neighbour }
    requires b { IsPointWithin max_contour b }
    ensures value { result ≡ curve_end is_on neighbour b }
    ensures within { IsPointWithin max_contour result }
{
    if is_on {
        return neighbour;
    }
    middle(neighbour, b)
}

/// How far the control point lies from halfway between the ends, twice.
pub(crate) fn bend(a: i64, b: i64, c: i64) -> u64
    requires a { IsWithin max_contour a }
    requires b { IsWithin max_contour b }
    requires c { IsWithin max_contour c }
    ensures { result ≡ bend a b c }
{
    (a - 2 * b + c).unsigned_abs()
}

/// The number of steps n with which a bend is at most `flatness` n n, up to 32.
pub(crate) fn steps_for(flatness: u64, bend: u64) -> u16
    requires flatness { flatness ≤ 4 }
    ensures value { result ≡ steps_for flatness bend }
    ensures least { 1 ≤ result }
    ensures most { result ≤ 32 }
{
    if bend <= flatness {
        return 1;
    }
    if bend <= 4 * flatness {
        return 2;
    }
    if bend <= 16 * flatness {
        return 4;
    }
    if bend <= 64 * flatness {
        return 8;
    }
    if bend <= 256 * flatness {
        return 16;
    }
    32
}

/// The number of steps with which the quadratic curve from a to c with the control point b stays within 1/64 pixel of its
/// chords, up to 32.
pub fn steps_of(a: Point, b: Point, c: Point) -> u16
    requires a { IsPointWithin max_contour a }
    requires b { IsPointWithin max_contour b }
    requires c { IsPointWithin max_contour c }
    ensures value { result ≡ steps_of a b c }
    ensures least { 1 ≤ result }
    ensures most { result ≤ 32 }
{
    steps_for(
        QUADRATIC_FLATNESS,
        bend(a.x, b.x, c.x).max(bend(a.y, b.y, c.y)),
    )
}

/// A coordinate by its weight.
fn weighted_part(a: i64, weight: u16) -> i64
    requires a { IsWithin max_contour a }
    requires weight { weight ≤ max_quadratic_weight }
    ensures value { result ≡ a *ℤ pos weight }
    ensures within { IsWithin (max_contour * max_quadratic_weight) result }
{
    a * i64::from(weight)
}

fn sum_of_three(a: i64, b: i64, c: i64) -> i64
    requires a { IsWithin (max_contour * max_quadratic_weight) a }
    requires b { IsWithin (max_contour * max_quadratic_weight) b }
    requires c { IsWithin (max_contour * max_quadratic_weight) c }
    ensures value { result ≡ a +ℤ b +ℤ c }
    ensures within { IsWithin (3 * (max_contour * max_quadratic_weight)) result }
{
    a + b + c
}

/// The product of two numbers of steps.
fn steps_product(a: u16, b: u16) -> u16
    requires a { a ≤ 32 }
    requires b { b ≤ 32 }
    ensures value { result ≡ a * b }
    ensures most { result ≤ 1024 }
{
    a * b
}

/// A coordinate of a quadratic curve at step u of n.
fn quadratic_mean(n: u16, u: u16, a: i64, b: i64, c: i64) -> i64
    requires some { 1 ≤ n }
    requires steps { n ≤ 32 }
    requires step { u ≤ n }
    requires a { IsWithin max_contour a }
    requires b { IsWithin max_contour b }
    requires c { IsWithin max_contour c }
    ensures value { result ≡ quadratic_mean n u a b c }
    ensures within { IsWithin max_unturned result }
{
    let z = n - u;
    let a = weighted_part(a, steps_product(z, z));
    let b = weighted_part(b, 2 * steps_product(z, u));
    let c = weighted_part(c, steps_product(u, u));
    sum_of_three(a, b, c).div_euclid(i64::from(steps_product(n, n)))
}

/// The point at step u of n of the quadratic curve from a to c with the control point b.
pub fn quadratic_point(a: Point, b: Point, c: Point, n: u16, u: u16) -> Point
    requires some { 1 ≤ n }
    requires steps { n ≤ 32 }
    requires step { u ≤ n }
    requires a { IsPointWithin max_contour a }
    requires b { IsPointWithin max_contour b }
    requires c { IsPointWithin max_contour c }
    ensures value { result ≡ quadratic_point a b c n u }
    ensures within { IsPointWithin max_unturned result }
{
    Point {
        x: quadratic_mean(n, u, a.x, b.x, c.x),
        y: quadratic_mean(n, u, a.y, b.y, c.y),
    }
}

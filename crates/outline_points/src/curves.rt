//! The points of curves, a curve having 16 steps.

ghost use Rattle.std.specs.Prelude.{◌≡◌, ◌≤◌, ◌*◌, pos, ◌+ℤ◌};
ghost use Rattle.ass_num.specs.Floor.{floor_div};
ghost use Rattle.ass_num.specs.Limits.{IsWithin, IsPointWithin};
ghost use Rattle.outline_points.specs.Limits.{max_scaled, max_length};
ghost use Rattle.outline_points.specs.Curves.{AreAtMost, max_weight, weighted, weighted_point, cubic_unit, spline_unit, cubic_weights, spline_weights};
ghost use Rattle.outline_points.specs.Curves.{cubic_point, spline_point};

use crate::products::{product, quotient};
use ass_num::Point;

/// What the weights of a cubic curve sum to.
const CUBIC_UNIT: u32 = 4_096;

/// What the weights of a uniform cubic spline sum to.
const SPLINE_UNIT: u32 = 24_576;

/// The weights of four control points at a step of a curve.
#[derive(Clone, Copy)]
pub struct Weights {
    pub a: u16,
    pub b: u16,
    pub c: u16,
    pub d: u16,
}

/// The product of three numbers of at most 16.
fn three(a: u16, b: u16, c: u16) -> u16
    requires a { a ≤ 16 }
    requires b { b ≤ 16 }
    requires c { c ≤ 16 }
    ensures value { result ≡ a * b * c }
    ensures most { result ≤ cubic_unit }
{
    let two = a * b;
    two * c
}

/// The weights at step u of a cubic curve.
fn cubic_weights(u: u16) -> Weights
    requires { u ≤ 16 }
    ensures value { result ≡ cubic_weights u }
    ensures most { AreAtMost max_weight result }
{
    let z = 16 - u;
    Weights {
        a: three(z, z, z),
        b: 3 * three(z, z, u),
        c: 3 * three(z, u, u),
        d: three(u, u, u),
    }
}

/// The weights at step u of a uniform cubic spline.
fn spline_weights(u: u16) -> Weights
    requires { u ≤ 16 }
    ensures value { result ≡ spline_weights u }
    ensures most { AreAtMost max_weight result }
{
    let z = 16 - u;
    let cube = 3 * three(u, u, u);
    let square = 3 * three(16, u, u);
    let b = cube + 16_384 - 2 * square;
    let c = square + 768 * u + 4_096 - cube;
    Weights {
        a: three(z, z, z),
        b,
        c,
        d: three(u, u, u),
    }
}

/// Four numbers by their weights.
fn weighted(w: Weights, a: i64, b: i64, c: i64, d: i64) -> i128
    requires weights { AreAtMost max_weight w }
    requires a { IsWithin max_scaled a }
    requires b { IsWithin max_scaled b }
    requires c { IsWithin max_scaled c }
    requires d { IsWithin max_scaled d }
    ensures value { result ≡ weighted w a b c d }
    ensures within { IsWithin (4 * (max_scaled * max_weight)) result }
{
    let a = product(a, i64::from(w.a));
    let b = product(b, i64::from(w.b));
    let c = product(c, i64::from(w.c));
    let d = product(d, i64::from(w.d));
    sum_of_four(a, b, c, d)
}

fn sum_of_four(a: i128, b: i128, c: i128, d: i128) -> i128
    requires a { IsWithin (max_scaled * max_weight) a }
    requires b { IsWithin (max_scaled * max_weight) b }
    requires c { IsWithin (max_scaled * max_weight) c }
    requires d { IsWithin (max_scaled * max_weight) d }
    ensures value { result ≡ a +ℤ b +ℤ c +ℤ d }
    ensures within { IsWithin (4 * (max_scaled * max_weight)) result }
{
    a + b + c + d
}

/// A coordinate of a curve whose weights at the step sum to `unit`.
fn weighted_mean(w: Weights, unit: u32, a: i64, b: i64, c: i64, d: i64) -> i64
    requires weights { AreAtMost max_weight w }
    requires unit { cubic_unit ≤ unit }
    requires a { IsWithin max_scaled a }
    requires b { IsWithin max_scaled b }
    requires c { IsWithin max_scaled c }
    requires d { IsWithin max_scaled d }
    ensures value { result ≡ floor_div (weighted w a b c d) (pos unit) }
    ensures within { IsWithin max_length result }
{
    quotient(weighted(w, a, b, c, d), unit)
}

/// The point of a curve whose weights at the step sum to `unit`.
fn weighted_point(w: Weights, unit: u32, a: Point, b: Point, c: Point, d: Point) -> Point
    requires weights { AreAtMost max_weight w }
    requires unit { cubic_unit ≤ unit }
    requires a { IsPointWithin max_scaled a }
    requires b { IsPointWithin max_scaled b }
    requires c { IsPointWithin max_scaled c }
    requires d { IsPointWithin max_scaled d }
    ensures value { result ≡ weighted_point w unit a b c d }
    ensures within { IsPointWithin max_length result }
{
    Point {
        x: weighted_mean(w, unit, a.x, b.x, c.x, d.x),
        y: weighted_mean(w, unit, a.y, b.y, c.y, d.y),
    }
}

/// The point at step u of the cubic curve from a to d with the control points b and c (Aegisub tag reference, "b").
pub fn cubic_point(a: Point, b: Point, c: Point, d: Point, u: u16) -> Point
    requires step { u ≤ 16 }
    requires a { IsPointWithin max_scaled a }
    requires b { IsPointWithin max_scaled b }
    requires c { IsPointWithin max_scaled c }
    requires d { IsPointWithin max_scaled d }
    ensures value { result ≡ cubic_point a b c d u }
    ensures within { IsPointWithin max_length result }
{
    weighted_point(cubic_weights(u), CUBIC_UNIT, a, b, c, d)
}

/// The point at step u of the uniform cubic spline between its control points b and c (Aegisub tag reference, "s").
pub fn spline_point(a: Point, b: Point, c: Point, d: Point, u: u16) -> Point
    requires step { u ≤ 16 }
    requires a { IsPointWithin max_scaled a }
    requires b { IsPointWithin max_scaled b }
    requires c { IsPointWithin max_scaled c }
    requires d { IsPointWithin max_scaled d }
    ensures value { result ≡ spline_point a b c d u }
    ensures within { IsPointWithin max_length result }
{
    weighted_point(spline_weights(u), SPLINE_UNIT, a, b, c, d)
}

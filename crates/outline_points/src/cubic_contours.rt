//! The points of contours of lines and cubic curves: scaled, and as curves.

ghost use Rattle.std.specs.Prelude.{◌≡◌, ◌≤◌, ◌+◌, ◌*◌, pos, ◌≤ℤ◌, ◌+ℤ◌, ◌*ℤ◌, max};
ghost use Rattle.ass_num.specs.Floor.{floor_div};
ghost use Rattle.ass_num.specs.Limits.{IsPointWithin, IsWithin};
ghost use Rattle.outline_points.specs.Contours.{bend};
ghost use Rattle.outline_points.specs.CubicContours.{cubic_bend, cubic_mean, cubic_steps, max_cubic_weight, max_stroke, point_of_cubic, scaled_fraction, stroke_point};
ghost use Rattle.outline_points.specs.Limits.{max_contour, max_scaled_length, max_unturned};
ghost use Rattle.outline_points.specs.Placing.{IsMatrix, IsScale};

use crate::contours::{bend, steps_for};
use crate::glyphs::slant;
use crate::products::product;
use ass_num::{Matrix, Point, div_floor};

/// 1 in products of a coordinate and a scale: 1/65,536 with 16 fraction bits.
const STROKE_UNIT: i128 = 4_294_967_296;

/// The bend of a cubic curve in one step.
const CUBIC_FLATNESS: u64 = 3;

/// A coordinate in 1/65,536 of a unit, scaled.
fn scaled_fraction(coordinate: i64, scale: i64) -> i64
    requires coordinate { IsWithin max_stroke coordinate }
    requires scale { IsScale scale }
    ensures value { result ≡ scaled_fraction coordinate scale }
    ensures within { IsWithin max_scaled_length result }
{
    div_floor(product(coordinate, scale), STROKE_UNIT) as i64
}

/// A point of a stroke, scaled and slanted, and then moved to the right.
pub fn stroke_point(m: &Matrix, shift: i64, p: Point) -> Point
    requires matrix { IsMatrix m.now }
    requires shift { IsWithin max_scaled_length shift }
    requires point { IsPointWithin max_stroke p }
    ensures value { result ≡ stroke_point m.now shift p }
    ensures within { IsPointWithin max_contour result }
{
    let y = scaled_fraction(-p.y, m.uy);
    Point {
        x: scaled_fraction(p.x, m.ux) + slant(m.italic, y) + shift,
        y,
    }
}

/// How far the control points of a cubic curve lie from where they would be on its chord.
fn cubic_bend(a: i64, b: i64, c: i64, d: i64) -> u64
    requires a { IsWithin max_contour a }
    requires b { IsWithin max_contour b }
    requires c { IsWithin max_contour c }
    requires d { IsWithin max_contour d }
    ensures value { result ≡ cubic_bend a b c d }
    ensures most { result ≤ 4 * max_contour }
{
    bend(a, b, c).max(bend(b, c, d))
}

/// The number of steps with which a cubic curve stays within 9/256 of a pixel of its chords, up to 32.
pub fn cubic_steps(a: Point, b: Point, c: Point, d: Point) -> u16
    requires a { IsPointWithin max_contour a }
    requires b { IsPointWithin max_contour b }
    requires c { IsPointWithin max_contour c }
    requires d { IsPointWithin max_contour d }
    ensures value { result ≡ cubic_steps a b c d }
    ensures least { 1 ≤ result }
    ensures most { result ≤ 32 }
{
    let bend = cubic_bend(a.x, b.x, c.x, d.x).max(cubic_bend(a.y, b.y, c.y, d.y));
    steps_for(CUBIC_FLATNESS, bend)
}

/// The product of three numbers of steps.
fn steps_cube(a: u32, b: u32, c: u32) -> u32
    requires a { a ≤ 32 }
    requires b { b ≤ 32 }
    requires c { c ≤ 32 }
    ensures value { result ≡ a * b * c }
    ensures most { result ≤ 32768 }
{
    let two = a * b;
    two * c
}

/// The cube of the number of steps, which the weights at each step sum to.
fn steps_unit(n: u32) -> i64
    requires some { 1 ≤ n }
    requires steps { n ≤ 32 }
    ensures value { result ≡ pos (n * n * n) }
    ensures least { pos 1 ≤ℤ result }
    ensures most { result ≤ℤ pos 32768 }
{
    i64::from(steps_cube(n, n, n))
}

/// z times z times u, of which one is at most 16.
fn mixed_cube(z: u32, u: u32) -> u32
    requires { z + u ≤ 32 }
    ensures value { result ≡ z * z * u }
    ensures most { result ≤ 16384 }
{
    steps_cube(z, z, u)
}

/// A coordinate by its weight.
fn cubic_part(a: i64, weight: u32) -> i64
    requires a { IsWithin max_contour a }
    requires weight { weight ≤ max_cubic_weight }
    ensures value { result ≡ a *ℤ pos weight }
    ensures within { IsWithin (max_contour * max_cubic_weight) result }
{
    a * i64::from(weight)
}

fn cubic_sum(a: i64, b: i64, c: i64, d: i64) -> i64
    requires a { IsWithin (max_contour * max_cubic_weight) a }
    requires b { IsWithin (max_contour * max_cubic_weight) b }
    requires c { IsWithin (max_contour * max_cubic_weight) c }
    requires d { IsWithin (max_contour * max_cubic_weight) d }
    ensures value { result ≡ a +ℤ b +ℤ c +ℤ d }
    ensures within { IsWithin (4 * (max_contour * max_cubic_weight)) result }
{
    a + b + c + d
}

/// A coordinate of a cubic curve at step u of n.
fn cubic_mean(n: u32, u: u32, a: i64, b: i64, c: i64, d: i64) -> i64
    requires some { 1 ≤ n }
    requires steps { n ≤ 32 }
    requires step { u ≤ n }
    requires a { IsWithin max_contour a }
    requires b { IsWithin max_contour b }
    requires c { IsWithin max_contour c }
    requires d { IsWithin max_contour d }
    ensures value { result ≡ cubic_mean n u a b c d }
    ensures within { IsWithin max_unturned result }
{
    let z = n - u;
    let a = cubic_part(a, steps_cube(z, z, z));
    let b = cubic_part(b, 3 * mixed_cube(z, u));
    let c = cubic_part(c, 3 * mixed_cube(u, z));
    let d = cubic_part(d, steps_cube(u, u, u));
    cubic_sum(a, b, c, d).div_euclid(steps_unit(n))
}

/// The point at step u of n of the cubic curve from a to d with the control points b and c.
pub fn point_of_cubic(a: Point, b: Point, c: Point, d: Point, n: u16, u: u16) -> Point
    requires some { 1 ≤ n }
    requires steps { n ≤ 32 }
    requires step { u ≤ n }
    requires a { IsPointWithin max_contour a }
    requires b { IsPointWithin max_contour b }
    requires c { IsPointWithin max_contour c }
    requires d { IsPointWithin max_contour d }
    ensures value { result ≡ point_of_cubic a b c d n u }
    ensures within { IsPointWithin max_unturned result }
{
    let n = u32::from(n);
    let u = u32::from(u);
    Point {
        x: cubic_mean(n, u, a.x, b.x, c.x, d.x),
        y: cubic_mean(n, u, a.y, b.y, c.y, d.y),
    }
}

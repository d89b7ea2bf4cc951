//! The points of glyphs, and where those of a part are placed.

ghost use Rattle.std.specs.Prelude.{◌≡◌, ◌+ℤ◌, ◌*ℤ◌, ◌≤ℤ◌, neg_ℤ, pos, IfOk};
ghost use Rattle.sfnt_glyphs.specs.Glyphs.{held_unit, nearest_unit, placed_coordinate, point_if, placed_glyph_point, placed_points};

use ass_num::{Items, Mem, div_floor};
use outline_points::GlyphPoint;

/// The farthest from 0 that a coordinate may lie.
const MAX_UNIT: i128 = 65_535;

/// Where the points of a part are placed: x at a x + c y + dx, and y at b x + d y + dy, where a, b, c and d are in
/// 1/16,384.
#[derive(Clone, Copy)]
pub struct Placing {
    pub a: i32,
    pub b: i32,
    pub c: i32,
    pub d: i32,
    pub dx: i32,
    pub dy: i32,
}

/// A coordinate that isn't too far from 0.
pub fn held_unit(value: i128) -> Option<i32>
    ensures { result ≡ held_unit value }
{
    if -MAX_UNIT <= value && value <= MAX_UNIT {
        return Some(value as i32);
    }
    None
}

/// The product of two numbers.
fn product(a: i32, b: i32) -> i128
    ensures value { result ≡ a *ℤ b }
    ensures least { neg_ℤ (pos 9223372036854775808) ≤ℤ result }
    ensures most { result ≤ℤ pos 9223372036854775808 }
{
    i128::from(i64::from(a) * i64::from(b))
}

/// The sum of x and y, which count a and c times.
fn weighted_sum(x: i32, a: i32, y: i32, c: i32) -> i128
    ensures value { result ≡ (x *ℤ a) +ℤ (y *ℤ c) }
    ensures least { neg_ℤ (pos 18446744073709551616) ≤ℤ result }
    ensures most { result ≤ℤ pos 18446744073709551616 }
{
    product(x, a) + product(y, c)
}

/// The whole number that is nearest to a number in 1/16,384.
fn nearest_unit(sum: i128) -> i128
    requires least { neg_ℤ (pos 18446744073709551616) ≤ℤ sum }
    requires most { sum ≤ℤ pos 18446744073709551616 }
    ensures value { result ≡ nearest_unit sum }
    ensures least { neg_ℤ (pos 18446744073709551616) ≤ℤ result }
    ensures most { result ≤ℤ pos 18446744073709551616 }
{
    div_floor(sum + 8_192, 16_384)
}

/// A coordinate of a part's point: both coordinates of the point in 1/16,384, and then a shift.
fn placed_coordinate(x: i32, y: i32, a: i32, c: i32, shift: i32) -> i128
    ensures { result ≡ placed_coordinate x y a c shift }
{
    nearest_unit(weighted_sum(x, a, y, c)) + i128::from(shift)
}

fn point_if(x: Option<i32>, y: Option<i32>, is_on: bool) -> Option<GlyphPoint>
    ensures { result ≡ point_if x y is_on }
{
    match x {
        Some(x) => match y {
            Some(y) => Some(GlyphPoint { x, y, is_on }),
            None => None,
        },
        None => None,
    }
}

/// A point of a part in its place; `None` where it is too far from 0.
fn placed_glyph_point(placing: &Placing, point: &GlyphPoint) -> Option<GlyphPoint>
    ensures { result ≡ placed_glyph_point placing.now point.now }
{
    let x = placed_coordinate(point.x, point.y, placing.a, placing.c, placing.dx);
    let y = placed_coordinate(point.x, point.y, placing.b, placing.d, placing.dy);
    point_if(held_unit(x), held_unit(y), point.is_on)
}

/// The points of a part in their places, behind others; `None` where one is too far from 0.
pub fn placed_points(
    placing: &Placing,
    points: &[GlyphPoint],
    front: Items<GlyphPoint>,
) -> Mem<Option<Items<GlyphPoint>>>
    ensures { IfOk result (λ placed. placed ≡ placed_points placing.now points.now front) }
{
    let mut placed = front;
    for point in points {
        match placed_glyph_point(placing, point) {
            Some(next) => placed.push(next)?,
            None => return Ok(None),
        }
    }
    Ok(Some(placed))
}

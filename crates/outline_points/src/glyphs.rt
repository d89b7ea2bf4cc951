//! The quads of glyphs.

ghost use Rattle.std.specs.Prelude.{◌≡◌, ◌+◌, ◌*◌, ◌/◌, ◌<◌, ◌∷◌, [], length, All};
ghost use Rattle.ass_num.specs.Bitmaps.{pixel_is_set};
ghost use Rattle.ass_num.specs.Limits.{IsWithin, IsPointWithin, IsOutlinePoint};
ghost use Rattle.outline_points.specs.Limits.{max_pixel, max_scaled_length};
ghost use Rattle.outline_points.specs.Placing.{IsMatrix};
ghost use Rattle.outline_points.specs.Glyphs.{slant, scaled_pixel, glyph_point, quad};

use crate::placing::Turn;
use crate::products::scaled_length;
use ass_num::{Matrix, Point};

/// How far italic moves a point at this height to the right.
pub(crate) fn slant(italic: bool, y: i64) -> i64
    requires { IsWithin max_scaled_length y }
    ensures value { result ≡ slant italic y }
    ensures within { IsWithin max_scaled_length result }
{
    if italic {
        return (-y).div_euclid(4);
    }
    0
}

/// A point of the bitmap's plane, scaled and slanted.
pub(crate) fn scaled_pixel(m: &Matrix, a: i64, b: i64) -> Point
    requires matrix { IsMatrix m.now }
    requires a { IsWithin max_pixel a }
    requires b { IsWithin max_pixel b }
    ensures value { result ≡ scaled_pixel m.now a b }
    ensures within { IsPointWithin (2 * max_scaled_length) result }
{
    let x = scaled_length(a, m.ux);
    let y = scaled_length(b, m.uy);
    Point {
        x: x + slant(m.italic, y),
        y,
    }
}

/// The point of an outline for a point of the bitmap's plane, b downwards from the baseline. `turn` is the matrix's.
pub fn glyph_point(m: &Matrix, turn: &Turn, a: i64, b: i64) -> Point
    requires matrix { IsMatrix m.now }
    requires turn { turn.now.angle ≡ m.now.turn }
    requires a { IsWithin max_pixel a }
    requires b { IsWithin max_pixel b }
    ensures value { result ≡ glyph_point m.now a b }
    ensures within { IsOutlinePoint result }
{
    turn.outline_point(scaled_pixel(m, a, b))
}

/// A rectangle of the bitmap's plane, from its upper left corner clockwise.
pub fn quad(m: &Matrix, turn: &Turn, left: i64, top: i64, right: i64, bottom: i64) -> [Point; 4]
    requires matrix { IsMatrix m.now }
    requires turn { turn.now.angle ≡ m.now.turn }
    requires left { IsWithin max_pixel left }
    requires top { IsWithin max_pixel top }
    requires right { IsWithin max_pixel right }
    requires bottom { IsWithin max_pixel bottom }
    ensures value { result ≡ quad m.now left top right bottom }
    ensures within { All IsOutlinePoint result }
{
    [
        glyph_point(m, turn, left, top),
        glyph_point(m, turn, right, top),
        glyph_point(m, turn, right, bottom),
        glyph_point(m, turn, left, bottom),
    ]
}

/// Whether the pixel in column i and row j is set in a bitmap of rows of whole bytes, w pixels wide.
pub fn pixel_is_set(bits: &[u8], w: u32, i: u32, j: u32) -> bool
    requires column { i < w }
    requires row { (j + 1) * ((w + 7) / 8) < length bits.now + 1 }
    ensures { result ≡ pixel_is_set w bits.now i j }
{
    let row = j as usize * (w as usize).div_ceil(8);
    let byte = bits[row + i as usize / 8];
    (byte >> (7 - i % 8)) % 2 == 1
}

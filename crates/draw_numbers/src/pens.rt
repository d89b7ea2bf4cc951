//! Pens in samples, and where masks stand.

ghost use Rattle.std.specs.Prelude.{◌≡◌, ◌≤◌, ◌<◌, ◌*◌, pos, ◌+ℤ◌, ◌-ℤ◌};
ghost use Rattle.ass_num.specs.Floor.{floor_div};
ghost use Rattle.ass_num.specs.Limits.{IsPointWithin, IsWithin};
ghost use Rattle.mask_keys.specs.Keys.{samples_across};
ghost use Rattle.outline_points.specs.Limits.{max_length, max_unturned};
ghost use Rattle.outline_points.specs.Placing.{turned_point};
ghost use Rattle.draw_numbers.specs.Limits.{max_shadow_offset, max_pen, sample};
ghost use Rattle.draw_numbers.specs.Pens as rule;

use crate::widths::Offsets;
use ass_num::{Fix, Point, Size, hold};
use outline_points::Turn;

/// The farthest from 0 that a pen lies, in samples.
const MAX_PEN: i64 = 262_144;

/// The farthest from the frame that a mask may begin, in pixels.
const MAX_REACH: i64 = 8_192;

/// Where a mask stands: a pixel of the frame, and how many samples it lies behind that pixel's first in each direction, below 16.
#[derive(Clone, Copy, Debug, PartialEq, Eq)]
pub struct Spot {
    pub x: i32,
    pub y: i32,
    pub px: u8,
    pub py: u8,
}

/// How far a coordinate lies from another.
fn gap(a: Fix, b: Fix) -> Fix
    requires a { IsWithin max_length a }
    requires b { IsWithin max_length b }
    ensures value { result ≡ a -ℤ b }
    ensures within { IsWithin max_unturned result }
{
    a - b
}

/// How far a point lies from another.
fn minus(p: Point, q: Point) -> Point
    requires p { IsPointWithin max_length p }
    requires q { IsPointWithin max_length q }
    ensures value { result ≡ rule.point_difference p q }
    ensures within { IsPointWithin max_unturned result }
{
    Point {
        x: gap(p.x, q.x),
        y: gap(p.y, q.y),
    }
}

/// A coordinate moved by a turned one.
fn sum(a: Fix, b: Fix) -> Fix
    requires a { IsWithin max_length a }
    requires b { IsWithin (2 * max_unturned) b }
    ensures { result ≡ a +ℤ b }
{
    a + b
}

/// A point moved by a turned one.
fn plus(p: Point, q: Point) -> Point
    requires p { IsPointWithin max_length p }
    requires q { IsPointWithin (2 * max_unturned) q }
    ensures { result ≡ rule.point_sum p q }
{
    Point {
        x: sum(p.x, q.x),
        y: sum(p.y, q.y),
    }
}

/// A point turned about 0.
fn turned(turn: &Turn, p: Point) -> Point
    requires { IsPointWithin max_unturned p }
    ensures value { result ≡ turned_point turn.now.angle p }
    ensures within { IsPointWithin (2 * max_unturned) result }
{
    turn.point(p)
}

/// A point turned about an origin.
fn turned_about(origin: Point, turn: &Turn, p: Point) -> Point
    requires origin { IsPointWithin max_length origin }
    requires point { IsPointWithin max_length p }
    ensures { result ≡ rule.turned_about origin turn.now.angle p }
{
    plus(origin, turned(turn, minus(p, origin)))
}

/// A coordinate in samples, moved by an offset.
fn moved(units: Fix, offset: i64) -> i64
    requires { IsWithin max_shadow_offset offset }
    ensures { result ≡ floor_div units (pos sample) +ℤ offset }
{
    units.div_euclid(4) + offset
}

/// The same, held where pens may lie.
fn held_pen(units: Fix, offset: i64) -> i64
    requires { IsWithin max_shadow_offset offset }
    ensures value { result ≡ rule.held_pen units offset }
    ensures within { IsWithin max_pen result }
{
    hold(i128::from(moved(units, offset)), -MAX_PEN, MAX_PEN)
}

/// The pen of a mask, in samples.
fn pen_of(p: Point, offsets: Offsets) -> Point
    requires x { IsWithin max_shadow_offset offsets.x }
    requires y { IsWithin max_shadow_offset offsets.y }
    ensures value { result ≡ rule.pen_of p offsets }
    ensures within { IsPointWithin max_pen result }
{
    Point {
        x: held_pen(p.x, offsets.x),
        y: held_pen(p.y, offsets.y),
    }
}

/// The pixel in which a coordinate of a pen lies.
fn pixel_of(pen: i64) -> i32
    requires { IsWithin max_pen pen }
    ensures { result ≡ rule.pixel_of pen }
{
    pen.div_euclid(16) as i32
}

/// How many samples it lies behind the pixel's first.
fn phase_of(pen: i64) -> u8
    ensures value { result ≡ rule.phase_of pen }
    ensures within { result < samples_across }
{
    pen.rem_euclid(16) as u8
}

/// Where a mask stands by its pen.
fn spot_of(pen: Point) -> Spot
    requires { IsPointWithin max_pen pen }
    ensures value { result ≡ rule.spot_of pen }
    ensures px { result.px < samples_across }
    ensures py { result.py < samples_across }
{
    Spot {
        x: pixel_of(pen.x),
        y: pixel_of(pen.y),
        px: phase_of(pen.x),
        py: phase_of(pen.y),
    }
}

/// Where the mask stands whose pen is at a point in 1/64 pixel, turned about the origin and then moved by the offsets (Aegisub tag
/// reference, "\frz", "\org").
pub fn spot_at(origin: Point, turn: &Turn, p: Point, offsets: Offsets) -> Spot
    requires origin { IsPointWithin max_length origin }
    requires point { IsPointWithin max_length p }
    requires x { IsWithin max_shadow_offset offsets.x }
    requires y { IsWithin max_shadow_offset offsets.y }
    ensures value { result ≡ rule.spot_at origin turn.now.angle p offsets }
    ensures px { result.px < samples_across }
    ensures py { result.py < samples_across }
{
    spot_of(pen_of(turned_about(origin, turn, p), offsets))
}

/// Whether a pixel isn't too far outside a frame of so many pixels.
fn reaches(side: u32, pixel: i32) -> bool
    ensures { result ≡ rule.reaches side pixel }
{
    let pixel = i64::from(pixel);
    -MAX_REACH <= pixel && pixel < i64::from(side) + MAX_REACH
}

/// Whether a mask that stands there may reach the frame.
pub fn is_near_frame(size: &Size, spot: &Spot) -> bool
    ensures { result ≡ rule.is_near_frame size.now spot.now }
{
    reaches(size.w, spot.x) && reaches(size.h, spot.y)
}

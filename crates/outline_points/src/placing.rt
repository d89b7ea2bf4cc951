//! Turning and holding.

ghost use Rattle.std.specs.Prelude.{◌≡◌, ℕ, ◌*◌};
ghost use Rattle.ass_num.specs.Sine.{max_sine, sine_of, cosine_of};
ghost use Rattle.ass_num.specs.Limits.{IsWithin, IsPointWithin, IsOutlinePoint};
ghost use Rattle.outline_points.specs.Limits.{max_unturned};
ghost use Rattle.outline_points.specs.Placing.{turned_by, turned_point, outline_point, held_point};

use crate::products::{product, quotient};
use ass_num::{Milli, Point, cosine, hold, sine};

/// How far from 0 the points of an outline lie.
const MAX_COORDINATE: i64 = 262_144;

/// A turn about 0, counterclockwise, with its sine and cosine in ten-thousandths.
#[derive(Clone, Copy)]
pub struct Turn {
    /// In thousandths of a degree.
    pub angle: Milli,
    pub sine: i64,
    pub cosine: i64,
    ghost is_sine: { sine ≡ sine_of angle },
    ghost is_cosine: { cosine ≡ cosine_of angle },
    ghost sine_within: { IsWithin max_sine sine },
    ghost cosine_within: { IsWithin max_sine cosine },
}

impl Turn {
    /// The turn by an angle.
    pub fn new(angle: Milli) -> Turn
        ensures { result.angle ≡ angle }
    {
        Turn {
            angle,
            sine: sine(angle),
            cosine: cosine(angle),
        }
    }

    /// The point turned about 0. It goes at most twice as far from 0 in a coordinate.
    pub fn point(&self, p: Point) -> Point
        requires { IsPointWithin max_unturned p }
        ensures value { result ≡ turned_point self.now.angle p }
        ensures within { (m : ℕ) → IsPointWithin m p → IsPointWithin (2 * m) result }
    {
        turned_by(self.sine, self.cosine, p)
    }

    /// The point turned about 0, and each coordinate held where outlines may lie.
    pub fn outline_point(&self, p: Point) -> Point
        requires { IsPointWithin max_unturned p }
        ensures value { result ≡ outline_point self.now.angle p }
        ensures within { IsOutlinePoint result }
    {
        held_point(self.point(p))
    }
}

/// A point turned by an angle of this sine and cosine.
fn turned_by(sine: i64, cosine: i64, p: Point) -> Point
    requires sine { IsWithin max_sine sine }
    requires cosine { IsWithin max_sine cosine }
    requires point { IsPointWithin max_unturned p }
    ensures value { result ≡ turned_by sine cosine p }
    ensures within { (m : ℕ) → IsPointWithin m p → IsPointWithin (2 * m) result }
{
    let x_cosine = product(p.x, cosine);
    let y_sine = product(p.y, sine);
    let y_cosine = product(p.y, cosine);
    let x_sine = product(p.x, sine);
    Point {
        x: quotient(x_cosine + y_sine, 10_000),
        y: quotient(y_cosine - x_sine, 10_000),
    }
}

/// Each coordinate held where outlines may lie.
fn held_point(p: Point) -> Point
    ensures value { result ≡ held_point p }
    ensures within { IsOutlinePoint result }
{
    Point {
        x: hold(i128::from(p.x), -MAX_COORDINATE, MAX_COORDINATE),
        y: hold(i128::from(p.y), -MAX_COORDINATE, MAX_COORDINATE),
    }
}

/// A point turned about 0, counterclockwise, by an angle in thousandths of a degree. No coordinate goes farther from 0 than twice
/// the farther one of the point.
pub fn turned(p: &Point, turn: Milli) -> Point
    requires { IsPointWithin max_unturned p.now }
    ensures value { result ≡ turned_point turn p.now }
    ensures within { (m : ℕ) → IsPointWithin m p.now → IsPointWithin (2 * m) result }
{
    Turn::new(turn).point(*p)
}

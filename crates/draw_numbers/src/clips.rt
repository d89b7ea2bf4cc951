//! The bounds of rectangular clips.

ghost use Rattle.std.specs.Prelude.{◌≡◌, ◌*◌, pos, neg_ℤ, ◌+ℤ◌};
ghost use Rattle.ass_num.specs.Floor.{held};
ghost use Rattle.ass_num.specs.Limits.{IsHeldNumber, IsWithin, max_frame_side, max_held, one_16};
ghost use Rattle.frame_view.specs.FrameScales.{IsSideRatio};
ghost use Rattle.frame_view.specs.Limits.{max_layout_side};
ghost use Rattle.draw_numbers.specs.Limits.{max_bound};
ghost use Rattle.draw_numbers.specs.Clips as rule;

use crate::products::scaled;
use ass_num::{Milli, hold};
use frame_view::Ratio;

/// The farthest from 0 that a bound of a clip or the edge of a sweep lies, in pixels.
const MAX_BOUND: i64 = 262_144;

/// A column or a row of the frame, held where bounds may lie.
pub(crate) fn held_bound(pixel: i64) -> i32
    ensures value { result ≡ held (neg_ℤ (pos max_bound)) (pos max_bound) pixel }
    ensures within { IsWithin max_bound result }
{
    hold(i128::from(pixel), -MAX_BOUND, MAX_BOUND) as i32
}

/// The column or the row that is so many pixels from another.
fn pixels_from(begin: i32, pixels: i64) -> i64
    requires begin { IsWithin max_frame_side begin }
    requires pixels { IsWithin (max_held * one_16) pixels }
    ensures { result ≡ begin +ℤ pixels }
{
    i64::from(begin) + pixels
}

/// The column or the row of the frame at a coordinate of the script, whose canvas begins at a column or a row (Aegisub tag reference,
/// "\clip").
pub fn clip_bound(begin: i32, coordinate: Milli, ratio: Ratio) -> i32
    requires begin { IsWithin max_frame_side begin }
    requires coordinate { IsHeldNumber coordinate }
    requires ratio { IsSideRatio max_layout_side ratio }
    ensures value { result ≡ rule.clip_bound begin coordinate ratio }
    ensures within { IsWithin max_bound result }
{
    let pixels = scaled(coordinate, ratio.pixels, 1_000 * ratio.units);
    held_bound(pixels_from(begin, pixels))
}

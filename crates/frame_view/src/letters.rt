//! Numbers of a script at a size of letters.

ghost use Rattle.std.specs.Prelude.{◌≡◌, ◌≤◌, pos, neg_ℤ, ◌*ℤ◌, ◌≤ℤ◌};
ghost use Rattle.ass_num.specs.Floor.{floor_div, held};
ghost use Rattle.ass_num.specs.Limits.{IsHeldLength, IsHeldNumber, max_held};
ghost use Rattle.frame_view.specs.FrameScales.{magnified};
ghost use Rattle.frame_view.specs.Limits.{max_letter_scale, whole_letter_scale};

use ass_num::{Milli, hold};

/// The farthest from 0 that a number of a script may be.
const MAX_NUMBER: i64 = 1_000_000_000;

/// A number times a size of letters in thousandths, rounded down.
fn multiple(letter_scale: u32, number: Milli) -> i64
    requires scale { letter_scale ≤ max_letter_scale }
    requires number { IsHeldNumber number }
    ensures value { result ≡ floor_div (number *ℤ pos letter_scale) (pos whole_letter_scale) }
    ensures from_zero { pos 0 ≤ℤ number → pos 0 ≤ℤ result }
{
    (number * i64::from(letter_scale)).div_euclid(1_000)
}

/// The nearest number that a script may have.
fn held_number(number: i64) -> Milli
    ensures value { result ≡ held (neg_ℤ (pos max_held)) (pos max_held) number }
    ensures range { IsHeldNumber result }
    ensures from_zero { pos 0 ≤ℤ number → pos 0 ≤ℤ result }
{
    hold(i128::from(number), -MAX_NUMBER, MAX_NUMBER)
}

/// A number of a script at a size of letters in thousandths, held.
pub fn magnified(letter_scale: u32, number: Milli) -> Milli
    requires number { IsHeldNumber number }
    requires scale { letter_scale ≤ max_letter_scale }
    ensures value { result ≡ magnified letter_scale number }
    ensures range { IsHeldNumber result }
    ensures length { IsHeldLength number → IsHeldLength result }
{
    if letter_scale == 1_000 {
        number
    } else {
        held_number(multiple(letter_scale, number))
    }
}

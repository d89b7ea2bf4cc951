//! Sums and differences of lengths in 1/64 pixel.

ghost use Rattle.std.specs.Prelude.{◌≡◌, ◌≤◌, ◌*◌, ◌+ℤ◌, ◌-ℤ◌};
ghost use Rattle.ass_num.specs.Limits.{IsWithin};
ghost use Rattle.mask_keys.specs.Keys.{max_border};
ghost use Rattle.outline_points.specs.Limits.{max_length, max_unturned};
ghost use Rattle.event_draws.specs.Draws.{samples_long};

use ass_num::Fix;

/// A length and another.
pub(crate) fn sum(a: Fix, b: Fix) -> Fix
    requires a { IsWithin max_length a }
    requires b { IsWithin max_length b }
    ensures value { result ≡ a +ℤ b }
    ensures within { IsWithin max_unturned result }
{
    a + b
}

/// A length without another.
pub(crate) fn difference(a: Fix, b: Fix) -> Fix
    requires a { IsWithin max_length a }
    requires b { IsWithin max_length b }
    ensures value { result ≡ a -ℤ b }
    ensures within { IsWithin max_unturned result }
{
    a - b
}

/// So many samples as a length.
pub(crate) fn samples_long(radius: u32) -> Fix
    requires { radius ≤ 2 * max_border }
    ensures { result ≡ samples_long radius }
{
    4 * i64::from(radius)
}

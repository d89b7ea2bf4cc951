//! Products that don't overflow, and scaling.

ghost use Rattle.std.specs.Prelude.{◌≡◌, ℕ, ◌<◌, ◌*◌, pos, ◌*ℤ◌, ◌≤◌};
ghost use Rattle.ass_num.specs.Floor.{floor_div};
ghost use Rattle.ass_num.specs.Limits.{max_held, one_16, IsWithin};
ghost use Rattle.outline_points.specs.Limits.{max_pixel, max_scaled, max_scaled_length, max_unturned};
ghost use Rattle.outline_points.specs.Placing.{IsScale};

use ass_num::div_floor;

fn multiplied(a: i64, b: i64) -> i128
    ensures { result ≡ a *ℤ b }
{
    i128::from(a) * i128::from(b)
}

/// The product of two numbers.
pub fn product(a: i64, b: i64) -> i128
    ensures value { result ≡ a *ℤ b }
    ensures within { (m n : ℕ) → IsWithin m a → IsWithin n b → IsWithin (m * n) result }
{
    multiplied(a, b)
}

/// A quotient rounded down, where it fits.
pub fn quotient(a: i128, unit: u32) -> i64
    requires unit { 0 < unit }
    requires within { IsWithin (2 * max_unturned * unit) a }
    ensures value { result ≡ floor_div a (pos unit) }
    ensures within { (m : ℕ) → IsWithin (m * unit) a → IsWithin m result }
{
    div_floor(a, i128::from(unit)) as i64
}

/// A number times a scale, in a unit of it.
pub fn scaled(a: i64, u: i64, unit: u32) -> i64
    requires number { IsWithin max_held a }
    requires scale { IsScale u }
    requires unit { one_16 ≤ unit }
    ensures value { result ≡ floor_div (a *ℤ u) (pos unit) }
    ensures within { IsWithin max_scaled result }
{
    quotient(product(a, u), unit)
}

/// A length in pixels or in a font's units, scaled.
pub fn scaled_length(a: i64, u: i64) -> i64
    requires length { IsWithin max_pixel a }
    requires scale { IsScale u }
    ensures value { result ≡ floor_div (a *ℤ u) (pos one_16) }
    ensures within { IsWithin max_scaled_length result }
{
    (a * u).div_euclid(65_536)
}

//! The one division and the one holding of numbers.

ghost use Rattle.std.specs.Prelude.{◌≡◌, pos, ◌+ℤ◌, ◌*ℤ◌, ◌<ℤ◌, ◌≤ℤ◌};
ghost use Rattle.ass_num.specs.Floor.{floor_div, held};

/// The greatest whole number that isn't above `a / b`.
pub fn div_floor(a: i128, b: i128) -> i128
    requires { pos 0 <ℤ b }
    ensures value { result ≡ floor_div a b }
    ensures below { (result *ℤ b) ≤ℤ a }
    ensures above { a <ℤ ((result *ℤ b) +ℤ b) }
{
    a.div_euclid(b)
}

/// The number from `least` to `most` that is nearest to `x`.
pub fn hold(x: i128, least: i64, most: i64) -> i64
    requires { least ≤ℤ most }
    ensures value { result ≡ held least most x }
    ensures lower { least ≤ℤ result }
    ensures upper { result ≤ℤ most }
{
    x.clamp(i128::from(least), i128::from(most)) as i64
}

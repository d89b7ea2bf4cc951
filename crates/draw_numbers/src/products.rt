//! Products over whole numbers, rounded down.

ghost use Rattle.std.specs.Prelude.{◌≡◌, ◌≤◌, ◌<◌, ◌*◌, ◌^◌, pos, neg_ℤ, ◌+ℤ◌, ◌-ℤ◌, ◌*ℤ◌, ◌≤ℤ◌, ◌<ℤ◌};
ghost use Rattle.ass_num.specs.Floor.{floor_div};
ghost use Rattle.ass_num.specs.Limits.{IsHeldNumber, IsWithin, max_held, one_16};

use ass_num::Milli;
use event_instants::difference;

/// `number * factor / unit`, rounded down.
pub(crate) fn scaled(number: Milli, factor: u32, unit: u32) -> i64
    requires number { IsHeldNumber number }
    requires factor { factor ≤ one_16 }
    requires unit { 0 < unit }
    ensures value { result ≡ floor_div (number *ℤ pos factor) (pos unit) }
    ensures within { IsWithin (max_held * one_16) result }
{
    (number * i64::from(factor)).div_euclid(i64::from(unit))
}

/// The product of two numbers.
fn product(number: Milli, factor: u32) -> i64
    requires number { IsHeldNumber number }
    requires factor { factor ≤ one_16 }
    ensures value { result ≡ number *ℤ pos factor }
    ensures within { IsWithin (max_held * one_16) result }
{
    number * i64::from(factor)
}

/// `number * factor / (2 * half)`, rounded to the nearest number.
pub(crate) fn rounded(number: Milli, factor: u32, half: u32) -> i64
    requires number { IsHeldNumber number }
    requires factor { factor ≤ one_16 }
    requires some { 0 < half }
    requires most { half < 2 ^ 30 }
    ensures { result ≡ floor_div ((number *ℤ pos factor) +ℤ pos half) (pos (2 * half)) }
{
    let sum = product(number, factor) + i64::from(half);
    sum.div_euclid(i64::from(2 * half))
}

/// How long after `begin` it is `end`.
pub(crate) fn length_between(begin: i64, end: i64) -> i128
    requires { begin ≤ℤ end }
    ensures value { result ≡ end -ℤ begin }
    ensures from_zero { pos 0 ≤ℤ result }
    ensures below { result ≤ℤ pos (2 ^ 64) }
{
    difference(end, begin)
}

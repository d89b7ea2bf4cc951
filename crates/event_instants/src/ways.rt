//! Numbers on the way from one to another.

ghost use Rattle.std.specs.Prelude.{◌≡◌, ◌≤◌, ◌^◌, pos, neg_ℤ, ◌-ℤ◌, ◌*ℤ◌, ◌<ℤ◌, ◌≤ℤ◌};
ghost use Rattle.ass_num.specs.Limits.{one_16};
ghost use Rattle.event_instants.specs.Instants.{IsBetween};
ghost use Rattle.event_instants.specs.Instants as rule;

use ass_num::div_floor;

/// 1 as a weight.
pub(crate) const ONE: u32 = 65_536;

/// How far `a` is above `b`.
pub fn difference(a: i64, b: i64) -> i128
    ensures value { result ≡ a -ℤ b }
    ensures above { neg_ℤ (pos (2 ^ 64)) ≤ℤ result }
    ensures below { result ≤ℤ pos (2 ^ 64) }
{
    i128::from(a) - i128::from(b)
}

/// The number that has gone `part` of the `whole` way from `old` to `new`, rounded down.
pub fn between(old: i64, new: i64, part: i128, whole: i128) -> i64
    requires begun { pos 0 ≤ℤ part }
    requires not_past { part ≤ℤ whole }
    requires way { pos 0 <ℤ whole }
    requires above { neg_ℤ (pos (2 ^ 126)) ≤ℤ ((new -ℤ old) *ℤ part) }
    requires below { ((new -ℤ old) *ℤ part) ≤ℤ pos (2 ^ 126) }
    ensures value { result ≡ rule.between old new part whole }
    ensures within { IsBetween old new result }
{
    let gone = div_floor(difference(new, old) * part, whole);
    (i128::from(old) + gone) as i64
}

/// The number that has gone `part` of the `whole` way from `old` to `new`, which are both from 0 to 65,536.
pub(crate) fn on_the_way(old: u32, new: u32, part: i128, whole: i128) -> u32
    requires old { old ≤ one_16 }
    requires new { new ≤ one_16 }
    requires begun { pos 0 ≤ℤ part }
    requires not_past { part ≤ℤ whole }
    requires way { pos 0 <ℤ whole }
    requires short { part ≤ℤ pos (2 ^ 66) }
    ensures value { pos result ≡ rule.between (pos old) (pos new) part whole }
    ensures within { IsBetween (pos old) (pos new) (pos result) }
{
    between(i64::from(old), i64::from(new), part, whole) as u32
}

/// The number that goes evenly from `old` to `new`, both from 0 to 65,536, while the time goes from `begin` to `end`, in milliseconds.
pub(crate) fn at_time(old: u32, new: u32, begin: i64, end: i64, elapsed: i64) -> u32
    requires old { old ≤ one_16 }
    requires new { new ≤ one_16 }
    requires begun { begin ≤ℤ elapsed }
    requires not_ended { elapsed <ℤ end }
    ensures value { pos result ≡ rule.at_time (pos old) (pos new) begin end elapsed }
    ensures within { IsBetween (pos old) (pos new) (pos result) }
{
    on_the_way(old, new, difference(elapsed, begin), difference(end, begin))
}

/// A number that a weight, in 65,536ths, moves from `old` towards `new`: what a `\t` makes of a property, and a `\move` of a coordinate.
pub fn moved(old: i64, new: i64, weight: u32) -> i64
    requires unit { weight ≤ one_16 }
    ensures value { result ≡ rule.moved old new weight }
    ensures within { IsBetween old new result }
{
    between(old, new, i128::from(weight), i128::from(ONE))
}

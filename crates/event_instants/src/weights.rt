//! Weights of transforms.

ghost use Rattle.std.specs.Prelude.{◌≡◌, ◌≤◌, ◌<ℤ◌, ◌≤ℤ◌};
ghost use Rattle.ass_num.specs.Limits.{one_16};
ghost use Rattle.event_instants.specs.Instants as rule;

use crate::ways::{ONE, at_time};
use ass_num::power;

/// What of the time from `begin` to `end` has passed, in 65,536ths.
pub(crate) fn share(begin: i64, end: i64, elapsed: i64) -> u32
    requires begun { begin ≤ℤ elapsed }
    requires not_ended { elapsed <ℤ end }
    ensures value { result ≡ rule.share begin end elapsed }
    ensures unit { result ≤ one_16 }
{
    at_time(0, ONE, begin, end, elapsed)
}

/// The weight, in 65,536ths, of a transform (`\t`) from `t1` to `t2`, in milliseconds, whose accel is in quarters.
/// It is 0 before `t1`, and 65,536 from `t2` on.
pub fn weight_at(t1: i64, t2: i64, quarters: u32, elapsed: i64) -> u32
    requires slow { 1 ≤ quarters }
    requires fast { quarters ≤ 32 }
    ensures value { result ≡ rule.weight_at t1 t2 quarters elapsed }
    ensures unit { result ≤ one_16 }
{
    if elapsed < t1 {
        0
    } else if elapsed >= t2 {
        ONE
    } else {
        power(share(t1, t2, elapsed), quarters)
    }
}

/// The weight of a transform in an event of a duration. Without times it goes from the event's start to its end.
pub fn transform_weight(
    times: Option<(i64, i64)>,
    duration: i64,
    quarters: u32,
    elapsed: i64,
) -> u32
    requires slow { 1 ≤ quarters }
    requires fast { quarters ≤ 32 }
    ensures value { result ≡ rule.transform_weight times duration quarters elapsed }
    ensures unit { result ≤ one_16 }
{
    match times {
        Some((t1, t2)) => weight_at(t1, t2, quarters, elapsed),
        None => weight_at(0, duration, quarters, elapsed),
    }
}

//! Where a movement puts its event.

ghost use Rattle.std.specs.Prelude.{◌≡◌, ◌≤◌};
ghost use Rattle.ass_num.specs.Limits.{one_16};
ghost use Rattle.event_instants.specs.Instants.{IsBetween, nth};
ghost use Rattle.event_instants.specs.Instants as rule;

use crate::ways::{ONE, moved};
use crate::weights::share;
use ass_num::Milli;

/// The times of a movement: where both are at most 0 they are 0 and the duration.
fn given_times(t1: i64, t2: i64, duration: i64) -> (i64, i64)
    ensures { result ≡ rule.given_times t1 t2 duration }
{
    if t1 <= 0 && t2 <= 0 {
        (0, duration)
    } else {
        (t1, t2)
    }
}

/// Two times, the later one last.
fn in_order(times: (i64, i64)) -> (i64, i64)
    ensures { result ≡ rule.in_order times }
{
    if times.0 > times.1 {
        (times.1, times.0)
    } else {
        times
    }
}

/// The weight of a movement, in 65,536ths: 0 up to its first time, and 65,536 from the second one on.
fn move_weight(times: (i64, i64), elapsed: i64) -> u32
    ensures value { result ≡ rule.move_weight times elapsed }
    ensures unit { result ≤ one_16 }
{
    if elapsed <= times.0 {
        0
    } else if elapsed >= times.1 {
        ONE
    } else {
        share(times.0, times.1, elapsed)
    }
}

/// The point, in thousandths, to which a `\move` has brought its event when `elapsed` milliseconds have passed. `path` is x1, y1,
/// x2, y2 in thousandths; the times and the event's duration are in milliseconds.
pub fn move_at(path: &[Milli; 4], t1: i64, t2: i64, duration: i64, elapsed: i64) -> (Milli, Milli)
    ensures value { result ≡ rule.move_at path.now t1 t2 duration elapsed }
    ensures across { IsBetween (nth path.now 0) (nth path.now 2) result.0 }
    ensures down { IsBetween (nth path.now 1) (nth path.now 3) result.1 }
{
    let weight = move_weight(in_order(given_times(t1, t2, duration)), elapsed);
    (
        moved(path[0], path[2], weight),
        moved(path[1], path[3], weight),
    )
}

//! The least shifts of a list of boxes that all want one place.

ghost use Rattle.std.specs.Prelude.{◌^◌, ◌≤◌, length, pos, IsTrue};
ghost use Rattle.std.specs.List.{All};
ghost use Rattle.event_places.specs.Placement.{AreInOrder, IsPlaceableStand, IsBoxWithin, max_stands};

use crate::laps::Laps;
use crate::stop::Stop;
use crate::telling::tell;
use ass_num::{Fix, Mem};
use event_places::{Box2, Stand, replay};
use std::alloc::Global;
use std::time::Instant;

/// So many boxes that begin one after another; each is shown until as many more have begun as are to be shown at once.
fn stands_of(alloc: Global, count: u32, shown: u8) -> Mem<Vec<Stand>> {
    let mut stands = Vec::with_capacity(alloc, count as usize)?;
    let place = Box2 {
        left: 0,
        top: 4_096,
        right: 8_192,
        bottom: 6_144,
    };
    for k in 0..count {
        let start = i64::from(k);
        stands.push(Stand {
            start,
            end: start + i64::from(shown),
            place,
            down: false,
        })?;
    }
    Ok(stands)
}

fn is_near(b: &Box2) -> bool
    ensures { IsTrue result → IsBoxWithin (2 ^ 20) b.now }
{
    if b.left < -1_000_000 || b.left > 1_000_000 {
        return false;
    }
    if b.top < -1_000_000 || b.top > 1_000_000 {
        return false;
    }
    if b.right < -1_000_000 || b.right > 1_000_000 {
        return false;
    }
    if b.bottom < -1_000_000 || b.bottom > 1_000_000 {
        return false;
    }
    true
}

fn is_placeable(s: &Stand) -> bool
    ensures { IsTrue result → IsPlaceableStand s.now }
{
    is_near(&s.place)
}

fn are_in_order(list: &[Stand]) -> bool
    ensures { IsTrue result → AreInOrder list.now }
{
    for k in 1..list.len() {
        if list[k - 1].start > list[k].start {
            return false;
        }
    }
    true
}

/// Whether the list is one that `replay` takes.
fn are_replayable(list: &[Stand]) -> bool
    ensures few { IsTrue result → length list.now ≤ max_stands }
    ensures placeable { IsTrue result → All IsPlaceableStand list.now }
    ensures in_order { IsTrue result → AreInOrder list.now }
{
    list.len() <= 1_000_000 && list.iter().all(|s| is_placeable(s)) && are_in_order(list)
}

fn greatest(shifts: &[Fix]) -> Fix {
    let mut greatest = 0;
    for shift in shifts {
        greatest = greatest.max(*shift);
    }
    greatest
}

fn measure_list(
    rt: &HostRuntime,
    name: &str,
    count: u32,
    shown: u8,
    turns: u32,
) -> Result<(), Stop> {
    let alloc = rt.alloc();
    let stands = stands_of(alloc, count, shown)?;
    if !are_replayable(stands.as_slice()) {
        return Err(Stop::SizeOutOfRange);
    }
    let mut laps = Laps::new();
    let mut shift = 0;
    for _ in 0..turns {
        let began = Instant::now(rt)?;
        let shifts = replay(alloc, stands.as_slice())?;
        laps.add(began.elapsed(rt)?);
        shift = greatest(shifts.as_slice());
    }
    let shift = usize::try_from(shift).unwrap_or(0);
    tell(rt, "shift", name, shift, "at most", &laps)
}

/// Times the replay of so many boxes, of which 1, 8 and 64 are shown at once.
pub fn measure(rt: &HostRuntime, count: u32, turns: u32) -> Result<(), Stop> {
    measure_list(rt, "1 shown at once", count, 1, turns)?;
    measure_list(rt, "8 shown at once", count, 8, turns)?;
    measure_list(rt, "64 shown at once", count, 64, turns)
}

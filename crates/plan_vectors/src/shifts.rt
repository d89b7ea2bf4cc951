//! Shifts of boxes.

ghost use Rattle.std.specs.Prelude.{◌^◌, IsTrue};
ghost use Rattle.event_places.specs.Placement.{AreInOrder, IsPlaceableStand, IsBoxWithin};

use crate::telling::numbers_of;
use crate::unreadable;
use event_places::{Box2, Stand, replay};
use std::alloc::Global;
use std::io;

fn is_small(b: &Box2) -> bool
    ensures { IsTrue result → IsBoxWithin (2 ^ 20) b.now }
{
    if b.left < -1_000_000 || b.left > 1_000_000 {
        return false;
    }
    if b.top < -1_000_000 || b.top > 1_000_000 {
        return false;
    }
    if b.right < -1_000_000 || b.right > 1_000_000 {
        return false;
    }
    if b.bottom < -1_000_000 || b.bottom > 1_000_000 {
        return false;
    }
    true
}

fn is_placeable(s: &Stand) -> bool
    ensures { IsTrue result → IsPlaceableStand s.now }
{
    is_small(&s.place)
}

fn in_order(list: &[Stand]) -> bool
    ensures { IsTrue result → AreInOrder list.now }
{
    for k in 1..list.len() {
        if list[k - 1].start > list[k].start {
            return false;
        }
    }
    true
}

/// A stand: its start, its end, its box, and 1 where it moves down.
fn stand_of(numbers: &[i64]) -> io::Result<Stand> {
    let [start, end, left, top, right, bottom, down] = numbers else {
        return Err(unreadable());
    };
    Ok(Stand {
        start: *start,
        end: *end,
        place: Box2 {
            left: *left,
            top: *top,
            right: *right,
            bottom: *bottom,
        },
        down: *down == 1,
    })
}

fn add_stand(alloc: Global, text: &str, stands: &mut Vec<Stand>) -> io::Result<()> {
    let numbers = numbers_of(alloc, text)?;
    stands.push(stand_of(numbers.as_slice())?)?;
    Ok(())
}

/// Prints the shifts of stands.
fn show_stands(rt: &HostRuntime, question: &str, list: &[Stand]) -> io::Result<()> {
    if list.len() > 1_000_000 || !list.iter().all(|s| is_placeable(s)) || !in_order(list) {
        return Err(unreadable());
    }
    match replay(rt.alloc(), list) {
        Ok(shifts) => println!(rt; "shifts {question} => {:?}", shifts.as_slice()),
        Err(_) => Err(unreadable()),
    }
}

/// Prints the shifts of stands between slashes.
pub fn show_shifts(rt: &HostRuntime, question: &str) -> io::Result<()> {
    let mut stands = Vec::new(rt.alloc());
    for part in question.split('/') {
        add_stand(rt.alloc(), part, &mut stands)?;
    }
    show_stands(rt, question, stands.as_slice())
}

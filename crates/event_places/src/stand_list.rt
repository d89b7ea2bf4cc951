//! The least shifts of a whole list, by replaying it.

ghost use Rattle.std.specs.Prelude.{◌≡◌, ◌≤◌, ◌+◌, ◌*◌, length, IfOk, OnOk};
ghost use Rattle.std.specs.List.{All, filter};
ghost use Rattle.std.specs.List.Sorted.{IsPermutation};
ghost use Rattle.event_places.specs.Placement.{AreInOrder, AreLeastShifts, IsPlaceableStand, IsShift, IsBoxWithin, IsStandWithin, ends_after, moved_stand};
ghost use Rattle.event_places.specs.Placement.{placed_stands, boxes_of, max_stands, max_place, max_moved, max_box};

use crate::shift::{least_shift, moved};
use crate::stands::{Box2, Stand};
use ass_num::{Fix, Mem};
use std::alloc::Global;

/// The shift of each stand of the list: the least by which its box meets no moved box of an earlier stand that ends after it starts.
/// Only the stands that are still shown are kept, so a list in which few stand at once costs no more than its length.
pub fn replay(alloc: Global, list: &[Stand]) -> Mem<Vec<Fix>>
    requires few { length list.now ≤ max_stands }
    requires placeable { All IsPlaceableStand list.now }
    requires in_order { AreInOrder list.now }
    ensures least { IfOk result (λ shifts. AreLeastShifts list.now shifts.items) }
    ensures within { IfOk result (λ shifts. All (IsShift (max_place + max_moved)) shifts.items) }
    ensures moved { IfOk result (λ shifts. All (IsStandWithin max_moved) (placed_stands list.now shifts.items)) }
{
    let mut shifts = Vec::with_capacity(alloc, list.len())?;
    let mut shown: Vec<Stand> = Vec::new(alloc);
    let mut others: Vec<Box2> = Vec::new(alloc);
    for stand in list {
        drop_ended(&mut shown, stand);
        boxes_of(shown.as_slice(), &mut others)?;
        sort_along(&mut others, stand.down)?;
        let shift = least_shift(&stand.place, others.as_slice(), stand.down);
        shifts.push(shift)?;
        shown.push(moved_stand(stand, shift))?;
    }
    Ok(shifts)
}

/// Drops the stands that have ended when the next one starts.
fn drop_ended(shown: &mut Vec<Stand>, next: &Stand)
    ensures { shown.new.items ≡ filter (ends_after next.now.start) shown.old.items }
{
    let time = next.start;
    shown.retain(|s| s.end > time);
}

/// The stand, with its box moved.
fn moved_stand(stand: &Stand, shift: Fix) -> Stand
    requires within { IsBoxWithin max_box stand.now.place }
    requires shift { IsShift (2 * max_box) shift }
    ensures { result ≡ moved_stand shift stand.now }
{
    Stand {
        place: moved(&stand.place, stand.down, shift),
        ..*stand
    }
}

/// Puts the stands' boxes in place of what `boxes` had.
fn boxes_of(stands: &[Stand], boxes: &mut Vec<Box2>) -> Mem<()>
    ensures { OnOk result (boxes.new.items ≡ boxes_of stands.now) }
{
    boxes.clear();
    for stand in stands {
        boxes.push(stand.place)?;
    }
    Ok(())
}

/// Brings the boxes into the order in which a box that moves down, or up, gets to them.
fn sort_along(boxes: &mut Vec<Box2>, down: bool) -> Mem<()>
    ensures { IsPermutation boxes.old.items boxes.new.items }
{
    if down {
        boxes.sort_by_key(|b| b.top)?;
    } else {
        boxes.sort_by_key(|b| !b.bottom)?;
    }
    Ok(())
}

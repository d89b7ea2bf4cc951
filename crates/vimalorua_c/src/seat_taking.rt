//! Taking out of a handle the seat behind it, and putting it back; and room for one more seat.

ghost use Rattle.std.specs.Prelude.{◌≡◌, ◌≢◌, None, Some, IfOk, OnErr};
ghost use Rattle.vimalorua_c.specs.Statuses as rule;

use crate::held_seat::HeldSeat;
use crate::seat_handle::SeatHandle;
use crate::status::DONE;
use ass_num::{Mem, OutOfMemory};
use shared_player::Seat;
use std::alloc::Global;
use std::mem::replace;

/// A handle of no seat.
pub(crate) fn empty_handle(alloc: Global) -> Mem<SeatHandle>
    ensures { IfOk result (λ handle. handle.value.seat ≡ None) }
{
    let kept = Box::new(alloc, HeldSeat { seat: None })?;
    Ok(SeatHandle::of(kept))
}

/// Takes the seat from behind a handle, which keeps none then, with the box that it stood in. For out of memory it stays.
pub fn take_seat(alloc: Global, handle: &mut SeatHandle) -> Mem<(Box<HeldSeat>, Option<Seat>)>
    ensures taken { IfOk result (λ r. r.1 ≡ handle.old.value.seat) }
    ensures err { OnErr result (handle.new.value ≡ handle.old.value) }
{
    let none = empty_handle(alloc)?;
    let mut kept = replace(handle, none).into_box();
    let before = Box::replace(&mut kept, HeldSeat { seat: None });
    Ok((kept, before.seat))
}

/// Puts a seat, or none, behind a handle, in a box. What stood there is dropped.
pub fn put_seat_back(handle: &mut SeatHandle, kept: Box<HeldSeat>, seat: Option<Seat>)
    ensures { handle.new.value.seat ≡ seat }
{
    let mut kept = kept;
    Box::replace(&mut kept, HeldSeat { seat });
    let before = replace(handle, SeatHandle::of(kept));
    drop(before.into_box());
}

/// Memory for a handle of a seat. It is taken before there is a seat.
pub struct Room {
    handle: Box<SeatHandle>,
    kept: Box<HeldSeat>,
}

/// Room for a handle of a seat.
pub fn take_room(alloc: Global) -> Mem<Room> {
    let kept = Box::new(alloc, HeldSeat { seat: None })?;
    let empty = empty_handle(alloc)?;
    match Box::new(alloc, empty) {
        Ok(handle) => Ok(Room { handle, kept }),
        Err(failed) => {
            drop(failed.value.into_box());
            Err(OutOfMemory)
        }
    }
}

/// Gives room back.
pub fn give_room_back(room: Room) {
    let Room { handle, kept: _ } = room;
    drop(Box::into_inner(handle).into_box());
}

/// A handle of a seat, where there is room for it.
fn handle_in(room: Room, seat: Seat) -> Box<SeatHandle>
    ensures { result.value.value.seat ≡ Some seat }
{
    let Room { handle, kept } = room;
    let mut handle = handle;
    let mut kept = kept;
    Box::replace(&mut kept, HeldSeat { seat: Some(seat) });
    let empty = Box::replace(&mut handle, SeatHandle::of(kept));
    drop(empty.into_box());
    handle
}

/// Hands a seat out, or tells why there is none.
pub fn hand_out(room: Room, seat: Result<Seat, i32>, out: &mut *mut SeatHandle) -> i32
    ensures told { result ≡ rule.made_status seat }
    ensures else_same { result ≢ rule.done_status → out.new ≡ out.old }
{
    match seat {
        Ok(seat) => {
            *out = Box::into_raw(handle_in(room, seat));
            DONE
        }
        Err(status) => {
            give_room_back(room);
            status
        }
    }
}

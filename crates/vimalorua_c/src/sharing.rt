//! Making seats, leaving them, and their budget.

ghost use Rattle.std.specs.Prelude.{◌≡◌, ◌≢◌, ◌<◌, Some, IfOk};
ghost use Rattle.evict_core.specs.Machine.{max_budget};
ghost use Rattle.player.specs.Players.{PlayerView};
ghost use Rattle.shared_player.specs.Seats.{IsFirstSeat, new_seat};
ghost use Rattle.vimalorua_c.specs.SeatCalls.{IsPlayerShared, IsSeatBudgetSet, IsSeatCall, IsSeatSplit};
ghost use Rattle.vimalorua_c.specs.Statuses as rule;

use crate::handle::Handle;
use crate::kept::HeldPlayer;
use crate::opening::MAX_BUDGET;
use crate::seat_handle::SeatHandle;
use crate::seat_taking::{give_room_back, hand_out, put_seat_back, take_room, take_seat};
use crate::status::{BAD_CALL, CLOSED, DONE, OUT_OF_MEMORY, share_status, split_status};
use crate::taking::{put_back, take};
use player::Player;
use shared_player::Seat;
use std::alloc::Global;

/// Shares a player, if there is one: its first seat, and no player; or what was there, and why not.
fn shared(alloc: Global, player: Option<Player>) -> (Option<Player>, Result<Seat, i32>)
    ensures told { IsPlayerShared (rule.made_status result.1) player result.0 }
    ensures first { IfOk result.1 (λ seat. (one : PlayerView) × (player ≡ Some one) × IsFirstSeat one seat) }
{
    let Some(player) = player else {
        return (None, Err(CLOSED));
    };
    match Seat::share(alloc, player) {
        Ok(seat) => (None, Ok(seat)),
        Err(back) => {
            let (player, refusal) = back;
            (Some(player), Err(share_status(refusal)))
        }
    }
}

/// Makes the first seat of all that a handle has, which is closed then.
#[unsafe(no_mangle)]
pub extern "C" fn vimalorua_share(
    alloc: Global,
    handle: &mut Handle,
    first: &mut *mut SeatHandle,
) -> i32
    ensures shared { IsPlayerShared result handle.old.value.player handle.new.value.player }
    ensures else_same { result ≢ rule.done_status → first.new ≡ first.old }
{
    let Ok(room) = take_room(alloc) else {
        return OUT_OF_MEMORY;
    };
    let Ok(kept) = take(alloc, handle) else {
        give_room_back(room);
        return OUT_OF_MEMORY;
    };
    let mut kept = kept;
    let before = Box::replace(&mut kept, HeldPlayer { player: None });
    let (player, seat) = shared(alloc, before.player);
    Box::replace(&mut kept, HeldPlayer { player });
    put_back(handle, kept);
    hand_out(room, seat, first)
}

/// Splits a seat off another one.
fn split(alloc: Global, seat: Seat) -> (Seat, Result<Seat, i32>)
    ensures told { IsSeatSplit (rule.made_status result.1) seat result.0 }
    ensures new { IfOk result.1 (λ new. new ≡ new_seat seat) }
{
    let (seat, new) = seat.split(alloc);
    match new {
        Ok(new) => (seat, Ok(new)),
        Err(refusal) => (seat, Err(split_status(refusal))),
    }
}

/// Makes one more seat of a track, off the first one.
#[unsafe(no_mangle)]
pub extern "C" fn vimalorua_split(
    alloc: Global,
    first: &mut SeatHandle,
    out: &mut *mut SeatHandle,
) -> i32
    ensures split { IsSeatCall ⊥ (Unit {0}) (IsSeatSplit result) result first.old.value first.new.value }
    ensures else_same { result ≢ rule.done_status → out.new ≡ out.old }
{
    let Ok(room) = take_room(alloc) else {
        return OUT_OF_MEMORY;
    };
    let Ok(taken) = take_seat(alloc, first) else {
        give_room_back(room);
        return OUT_OF_MEMORY;
    };
    let (kept, seat) = taken;
    let (seat, new) = match seat {
        Some(seat) => {
            let (seat, new) = split(alloc, seat);
            (Some(seat), new)
        }
        None => (None, Err(CLOSED)),
    };
    put_seat_back(first, kept, seat);
    hand_out(room, new, out)
}

/// Sets the budget of each cache of a seat.
#[unsafe(no_mangle)]
pub extern "C" fn vimalorua_seat_set_budget(
    alloc: Global,
    handle: &mut SeatHandle,
    budget: u64,
) -> i32
    ensures { IsSeatCall (max_budget < budget) (Unit {0}) (IsSeatBudgetSet budget result) result handle.old.value handle.new.value }
{
    if budget > MAX_BUDGET {
        return BAD_CALL;
    }
    let Ok(taken) = take_seat(alloc, handle) else {
        return OUT_OF_MEMORY;
    };
    let (kept, seat) = taken;
    let (seat, status) = match seat {
        Some(seat) => {
            let mut seat = seat;
            seat.set_budget(budget);
            (Some(seat), DONE)
        }
        None => (None, CLOSED),
    };
    put_seat_back(handle, kept, seat);
    status
}

/// Ends a seat. The block that its handle stood in is the caller's, to be freed.
#[unsafe(no_mangle)]
pub extern "C" fn vimalorua_seat_shut(handle: SeatHandle) {
    drop(handle.into_box());
}

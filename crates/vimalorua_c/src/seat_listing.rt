//! Images of one colour each, listed by seats, and copied into the caller's arrays.

ghost use Rattle.std.specs.Prelude.{◌≡◌, length};
ghost use Rattle.ass_num.specs.Limits.{IsWithin, max_instant};
ghost use Rattle.frame_view.specs.FrameViews.{IsFrameView, plain_frame};
ghost use Rattle.player.specs.Players.{mask_bytes};
ghost use Rattle.vimalorua_c.specs.Calls.{IsBadView, IsBeyond};
ghost use Rattle.vimalorua_c.specs.SeatCalls.{IsListTried, AreSeatImagesCopied, IsGoodSeatCall, IsSeatCall};
ghost use Rattle.vimalorua_c.specs.Views.{view_numbered};

use crate::listing::{ImageNumbers, copy_listed};
use crate::ranges::may_be_shown;
use crate::seat_handle::SeatHandle;
use crate::seat_taking::{put_seat_back, take_seat};
use crate::status::{BAD_CALL, CLOSED, DONE, NO_FONT, OUT_OF_MEMORY, change_number, look_status};
use crate::views::{ViewNumbers, may_be_seen, view_numbered};
use ass_num::Size;
use frame_view::FrameView;
use shared_player::Seat;
use std::alloc::Global;

/// Lists what the track shows at an instant, and tells how the list differs from the one before, and of how many entries it is.
fn listed_by(
    alloc: Global,
    seat: Seat,
    at: i64,
    frame: &FrameView,
    change: &mut i32,
    entries: &mut usize,
) -> (Seat, i32)
    requires instant { IsWithin max_instant at }
    requires frame { IsFrameView frame.now }
    requires untold { entries.old ≡ 0 }
    ensures { IsListTried at frame.now result.1 change.old change.new (length result.0.images) (mask_bytes result.0.images) entries.new seat result.0 }
{
    if seat.font_count() == 0 {
        return (seat, NO_FONT);
    }
    let (seat, answer) = seat.images_in(alloc, at, frame);
    match answer {
        Ok(listed) => {
            *change = change_number(listed.change);
            *entries = listed.entries;
            (seat, DONE)
        }
        Err(refusal) => (seat, look_status(refusal)),
    }
}

/// Lists what the track shows at an instant in a frame, and tells of the list.
fn list_by_seat(
    alloc: Global,
    handle: &mut SeatHandle,
    at: i64,
    frame: &FrameView,
    change: &mut i32,
    count: &mut usize,
    bytes: &mut usize,
    entries: &mut usize,
) -> i32
    requires instant { IsWithin max_instant at }
    requires frame { IsFrameView frame.now }
    requires untold { entries.old ≡ 0 }
    ensures { IsGoodSeatCall ((change.new ≡ change.old) × (count.new ≡ count.old) × (bytes.new ≡ bytes.old) × (entries.new ≡ 0))
        (IsListTried at frame.now result change.old change.new count.new bytes.new entries.new) result handle.old.value handle.new.value }
{
    let Ok(taken) = take_seat(alloc, handle) else {
        return OUT_OF_MEMORY;
    };
    let (kept, seat) = taken;
    let (seat, status) = match seat {
        Some(seat) => {
            let (seat, status) = listed_by(alloc, seat, at, frame, change, entries);
            *count = seat.listed_images().len();
            *bytes = seat.listed_bytes();
            (Some(seat), status)
        }
        None => (None, CLOSED),
    };
    put_seat_back(handle, kept, seat);
    status
}

/// Lists what the track shows at an instant as images of one colour each, unless another seat has it, and tells how the list differs from
/// the seat's one before, how many images it has, how many bytes their masks have together, and of how many entries it is.
#[unsafe(no_mangle)]
pub extern "C" fn vimalorua_try_list(
    alloc: Global,
    handle: &mut SeatHandle,
    at: i64,
    w: u32,
    h: u32,
    change: &mut i32,
    count: &mut usize,
    bytes: &mut usize,
    entries: &mut usize,
) -> i32
    ensures { IsSeatCall (IsBeyond at (record { w = w; h = h }))
        ((change.new ≡ change.old) × (count.new ≡ count.old) × (bytes.new ≡ bytes.old) × (entries.new ≡ 0))
        (IsListTried at (plain_frame (record { w = w; h = h })) result change.old change.new count.new bytes.new entries.new) result
        handle.old.value handle.new.value }
{
    *entries = 0;
    let size = Size { w, h };
    if !may_be_shown(at, &size) {
        return BAD_CALL;
    }
    list_by_seat(
        alloc,
        handle,
        at,
        &FrameView::plain(size),
        change,
        count,
        bytes,
        entries,
    )
}

/// The same in a frame as the script sees it. c/vimalorua.c makes the numbers whole.
#[unsafe(no_mangle)]
pub extern "C" fn vimalorua_try_list_by_numbers(
    alloc: Global,
    handle: &mut SeatHandle,
    at: i64,
    numbers: &ViewNumbers,
    change: &mut i32,
    count: &mut usize,
    bytes: &mut usize,
    entries: &mut usize,
) -> i32
    ensures { IsSeatCall (IsBadView at numbers.now)
        ((change.new ≡ change.old) × (count.new ≡ count.old) × (bytes.new ≡ bytes.old) × (entries.new ≡ 0))
        (IsListTried at (view_numbered numbers.now) result change.old change.new count.new bytes.new entries.new) result
        handle.old.value handle.new.value }
{
    *entries = 0;
    if !may_be_seen(at, numbers) {
        return BAD_CALL;
    }
    list_by_seat(
        alloc,
        handle,
        at,
        &view_numbered(numbers),
        change,
        count,
        bytes,
        entries,
    )
}

/// Copies the images that a seat listed last, as `vimalorua_copy_images_proved` does those of a player.
#[unsafe(no_mangle)]
pub extern "C" fn vimalorua_seat_copy_proved(
    alloc: Global,
    handle: &mut SeatHandle,
    images: &mut [ImageNumbers],
    masks: &mut [u8],
) -> i32
    ensures { IsSeatCall ⊥ ((images.new ≡ images.old) × (masks.new ≡ masks.old)) (AreSeatImagesCopied images.old images.new masks.old masks.new result) result
        handle.old.value handle.new.value }
{
    let Ok(taken) = take_seat(alloc, handle) else {
        return OUT_OF_MEMORY;
    };
    let (kept, seat) = taken;
    let status = match &seat {
        Some(seat) => copy_listed(seat.listed_images(), seat.listed_bytes(), images, masks),
        None => CLOSED,
    };
    put_seat_back(handle, kept, seat);
    status
}

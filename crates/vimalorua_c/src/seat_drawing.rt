//! Drawing by seats into the caller's bytes.

ghost use Rattle.std.specs.Prelude.{◌≡◌, ◌*◌, length};
ghost use Rattle.ass_num.specs.Limits.{IsWithin, max_instant};
ghost use Rattle.frame_view.specs.FrameViews.{IsFrameView, plain_frame};
ghost use Rattle.vimalorua_c.specs.Calls.{IsBadDraw, IsBadDrawIn};
ghost use Rattle.vimalorua_c.specs.SeatCalls.{IsDrawTried, IsGoodSeatCall, IsSeatCall};
ghost use Rattle.vimalorua_c.specs.Views.{view_numbered};

use crate::ranges::may_be_shown;
use crate::seat_handle::SeatHandle;
use crate::seat_taking::{put_seat_back, take_seat};
use crate::status::{BAD_CALL, CLOSED, DONE, NO_FONT, OUT_OF_MEMORY, look_status};
use crate::views::{ViewNumbers, may_be_seen, view_numbered};
use ass_num::Size;
use frame_view::FrameView;
use shared_player::Seat;
use std::alloc::Global;

/// Draws a picture into bytes, and tells of how many entries it is.
fn drawn_by(
    alloc: Global,
    seat: Seat,
    at: i64,
    frame: &FrameView,
    out: &mut [u8],
    entries: &mut usize,
) -> (Seat, i32)
    requires instant { IsWithin max_instant at }
    requires frame { IsFrameView frame.now }
    requires bytes { length out.old ≡ 3 * (frame.now.size.w * frame.now.size.h) }
    requires untold { entries.old ≡ 0 }
    ensures { IsDrawTried at frame.now out.old out.new entries.new result.1 seat result.0 }
{
    if seat.font_count() == 0 {
        return (seat, NO_FONT);
    }
    let (seat, answer) = seat.draw_in(alloc, at, frame);
    match answer {
        Ok(drawn) => {
            out.copy_from_slice(drawn.canvas.pixels());
            *entries = drawn.entries;
            (seat, DONE)
        }
        Err(refusal) => (seat, look_status(refusal)),
    }
}

/// Draws what the track shows at an instant in a frame into bytes that have just room for it.
fn draw_by_seat(
    alloc: Global,
    handle: &mut SeatHandle,
    at: i64,
    frame: &FrameView,
    out: &mut [u8],
    entries: &mut usize,
) -> i32
    requires instant { IsWithin max_instant at }
    requires frame { IsFrameView frame.now }
    requires bytes { length out.old ≡ 3 * (frame.now.size.w * frame.now.size.h) }
    requires untold { entries.old ≡ 0 }
    ensures { IsGoodSeatCall ((out.new ≡ out.old) × (entries.new ≡ 0)) (IsDrawTried at frame.now out.old out.new entries.new result) result
        handle.old.value handle.new.value }
{
    let Ok(taken) = take_seat(alloc, handle) else {
        return OUT_OF_MEMORY;
    };
    let (kept, seat) = taken;
    let (seat, status) = match seat {
        Some(seat) => {
            let (seat, status) = drawn_by(alloc, seat, at, frame, out, entries);
            (Some(seat), status)
        }
        None => (None, CLOSED),
    };
    put_seat_back(handle, kept, seat);
    status
}

/// Draws what the track shows at an instant into the caller's bytes, unless another seat has it, and tells of how many entries the picture
/// is: three bytes for each pixel, red, green and blue, row by row.
#[unsafe(no_mangle)]
pub extern "C" fn vimalorua_try_draw_proved(
    alloc: Global,
    handle: &mut SeatHandle,
    at: i64,
    w: u32,
    h: u32,
    out: &mut [u8],
    entries: &mut usize,
) -> i32
    ensures { IsSeatCall (IsBadDraw at (record { w = w; h = h }) out.old) ((out.new ≡ out.old) × (entries.new ≡ 0))
        (IsDrawTried at (plain_frame (record { w = w; h = h })) out.old out.new entries.new result) result handle.old.value handle.new.value }
{
    *entries = 0;
    let size = Size { w, h };
    if !may_be_shown(at, &size) || out.len() != 3 * (w as usize * h as usize) {
        return BAD_CALL;
    }
    draw_by_seat(alloc, handle, at, &FrameView::plain(size), out, entries)
}

/// The same in a frame as the script sees it. c/vimalorua.c makes the numbers whole.
#[unsafe(no_mangle)]
pub extern "C" fn vimalorua_try_draw_by_numbers(
    alloc: Global,
    handle: &mut SeatHandle,
    at: i64,
    numbers: &ViewNumbers,
    out: &mut [u8],
    entries: &mut usize,
) -> i32
    ensures { IsSeatCall (IsBadDrawIn at numbers.now out.old) ((out.new ≡ out.old) × (entries.new ≡ 0))
        (IsDrawTried at (view_numbered numbers.now) out.old out.new entries.new result) result handle.old.value handle.new.value }
{
    *entries = 0;
    if !may_be_seen(at, numbers) || out.len() != 3 * (numbers.w as usize * numbers.h as usize) {
        return BAD_CALL;
    }
    draw_by_seat(alloc, handle, at, &view_numbered(numbers), out, entries)
}

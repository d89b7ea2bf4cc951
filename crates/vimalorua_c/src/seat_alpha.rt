//! Drawing pictures with alpha by seats into the caller's bytes.

ghost use Rattle.std.specs.Prelude.{◌≡◌, ◌*◌, length};
ghost use Rattle.ass_num.specs.Limits.{IsWithin, max_instant};
ghost use Rattle.frame_view.specs.FrameViews.{IsFrameView};
ghost use Rattle.vimalorua_c.specs.Alpha.{IsAlphaTried, IsBadAlphaDraw, form_numbered};
ghost use Rattle.vimalorua_c.specs.SeatCalls.{IsGoodSeatCall, IsSeatCall};
ghost use Rattle.vimalorua_c.specs.Views.{view_numbered};

use crate::alpha::form_numbered;
use crate::seat_handle::SeatHandle;
use crate::seat_taking::{put_seat_back, take_seat};
use crate::status::{BAD_CALL, CLOSED, DONE, NO_FONT, OUT_OF_MEMORY, look_status};
use crate::views::{ViewNumbers, may_be_seen, view_numbered};
use alpha_canvas::AlphaForm;
use frame_view::FrameView;
use shared_player::Seat;
use std::alloc::Global;

/// Draws a picture with alpha into bytes, and tells of how many entries it is.
fn alpha_drawn_by(
    alloc: Global,
    seat: Seat,
    at: i64,
    frame: &FrameView,
    form: AlphaForm,
    out: &mut [u8],
    entries: &mut usize,
) -> (Seat, i32)
    requires instant { IsWithin max_instant at }
    requires frame { IsFrameView frame.now }
    requires bytes { length out.old ≡ 4 * (frame.now.size.h * frame.now.size.w) }
    requires untold { entries.old ≡ 0 }
    ensures { IsAlphaTried at frame.now form out.old out.new entries.new result.1 seat result.0 }
{
    if seat.font_count() == 0 {
        return (seat, NO_FONT);
    }
    let (seat, answer) = seat.draw_alpha_in(alloc, at, frame, form, out);
    match answer {
        Ok(seen) => {
            *entries = seen;
            (seat, DONE)
        }
        Err(refusal) => (seat, look_status(refusal)),
    }
}

/// Draws what the track shows at an instant in a frame, with alpha, into bytes that have just room for it.
fn draw_alpha_by_seat(
    alloc: Global,
    handle: &mut SeatHandle,
    at: i64,
    frame: &FrameView,
    form: AlphaForm,
    out: &mut [u8],
    entries: &mut usize,
) -> i32
    requires instant { IsWithin max_instant at }
    requires frame { IsFrameView frame.now }
    requires bytes { length out.old ≡ 4 * (frame.now.size.h * frame.now.size.w) }
    requires untold { entries.old ≡ 0 }
    ensures { IsGoodSeatCall ((out.new ≡ out.old) × (entries.new ≡ 0)) (IsAlphaTried at frame.now form out.old out.new entries.new result) result
        handle.old.value handle.new.value }
{
    let Ok(taken) = take_seat(alloc, handle) else {
        return OUT_OF_MEMORY;
    };
    let (kept, seat) = taken;
    let (seat, status) = match seat {
        Some(seat) => {
            let (seat, status) = alpha_drawn_by(alloc, seat, at, frame, form, out, entries);
            (Some(seat), status)
        }
        None => (None, CLOSED),
    };
    put_seat_back(handle, kept, seat);
    status
}

/// Draws what the track shows at an instant in a frame, as the script sees it, into the caller's bytes as a picture with alpha, unless
/// another seat has the track, and tells of how many entries the picture is: four bytes for each pixel, red, green, blue and alpha, row by
/// row. c/vimalorua.c makes the numbers whole.
#[unsafe(no_mangle)]
pub extern "C" fn vimalorua_try_draw_alpha_by_numbers(
    alloc: Global,
    handle: &mut SeatHandle,
    at: i64,
    numbers: &ViewNumbers,
    form: u32,
    out: &mut [u8],
    entries: &mut usize,
) -> i32
    ensures { IsSeatCall (IsBadAlphaDraw at numbers.now form out.old) ((out.new ≡ out.old) × (entries.new ≡ 0))
        (IsAlphaTried at (view_numbered numbers.now) (form_numbered form) out.old out.new entries.new result) result handle.old.value handle.new.value }
{
    *entries = 0;
    if !may_be_seen(at, numbers)
        || form > 1
        || out.len() != 4 * (numbers.h as usize * numbers.w as usize)
    {
        return BAD_CALL;
    }
    draw_alpha_by_seat(
        alloc,
        handle,
        at,
        &view_numbered(numbers),
        form_numbered(form),
        out,
        entries,
    )
}

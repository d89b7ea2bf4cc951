//! Drawing pictures with alpha into the caller's bytes.

ghost use Rattle.std.specs.Prelude.{◌≡◌, ◌*◌, length};
ghost use Rattle.ass_num.specs.Limits.{IsWithin, max_instant};
ghost use Rattle.frame_view.specs.FrameViews.{IsFrameView};
ghost use Rattle.vimalorua_c.specs.Alpha.{IsAlphaDrawn, IsBadAlphaDraw, form_numbered};
ghost use Rattle.vimalorua_c.specs.Calls.{IsCall, IsGoodCall};
ghost use Rattle.vimalorua_c.specs.Views.{view_numbered};

use crate::handle::Handle;
use crate::status::{BAD_CALL, CLOSED, DONE, NO_FONT, OUT_OF_MEMORY};
use crate::taking::{put_back, take};
use crate::views::{ViewNumbers, may_be_seen, view_numbered};
use alpha_canvas::AlphaForm;
use frame_view::FrameView;
use player::Player;
use std::alloc::Global;

/// The form of a number: 0 or 1.
pub(crate) fn form_numbered(number: u32) -> AlphaForm
    ensures { result ≡ form_numbered number }
{
    if number == 0 {
        AlphaForm::Straight
    } else {
        AlphaForm::Premultiplied
    }
}

/// Draws a picture with alpha into bytes.
fn alpha_drawn(
    alloc: Global,
    player: &mut Player,
    at: i64,
    frame: &FrameView,
    form: AlphaForm,
    out: &mut [u8],
) -> i32
    requires instant { IsWithin max_instant at }
    requires frame { IsFrameView frame.now }
    requires bytes { length out.old ≡ 4 * (frame.now.size.h * frame.now.size.w) }
    ensures { IsAlphaDrawn at frame.now form out.old out.new result player.old player.new }
{
    if player.font_count() == 0 {
        return NO_FONT;
    }
    match player.draw_alpha_in(alloc, at, frame, form, out) {
        Ok(()) => DONE,
        Err(_) => OUT_OF_MEMORY,
    }
}

/// Draws what is shown at an instant in a frame, with alpha, into bytes that have just room for it.
fn draw_alpha_behind(
    alloc: Global,
    handle: &mut Handle,
    at: i64,
    frame: &FrameView,
    form: AlphaForm,
    out: &mut [u8],
) -> i32
    requires instant { IsWithin max_instant at }
    requires frame { IsFrameView frame.now }
    requires bytes { length out.old ≡ 4 * (frame.now.size.h * frame.now.size.w) }
    ensures { IsGoodCall (out.new ≡ out.old) (IsAlphaDrawn at frame.now form out.old out.new result) result handle.old.value handle.new.value }
{
    let Ok(kept) = take(alloc, handle) else {
        return OUT_OF_MEMORY;
    };
    let mut kept = kept;
    let status = match &mut kept.player {
        Some(player) => alpha_drawn(alloc, player, at, frame, form, out),
        None => CLOSED,
    };
    put_back(handle, kept);
    status
}

/// Draws what is shown at an instant in a frame, as the script sees it, into the caller's bytes as a picture with alpha: four for each
/// pixel, red, green, blue and alpha, row by row. c/vimalorua.c makes the numbers whole.
#[unsafe(no_mangle)]
pub extern "C" fn vimalorua_draw_alpha_by_numbers(
    alloc: Global,
    handle: &mut Handle,
    at: i64,
    numbers: &ViewNumbers,
    form: u32,
    out: &mut [u8],
) -> i32
    ensures { IsCall (IsBadAlphaDraw at numbers.now form out.old) (out.new ≡ out.old)
        (IsAlphaDrawn at (view_numbered numbers.now) (form_numbered form) out.old out.new result) result handle.old.value handle.new.value }
{
    if !may_be_seen(at, numbers)
        || form > 1
        || out.len() != 4 * (numbers.h as usize * numbers.w as usize)
    {
        return BAD_CALL;
    }
    draw_alpha_behind(
        alloc,
        handle,
        at,
        &view_numbered(numbers),
        form_numbered(form),
        out,
    )
}

//! Drawing into the caller's bytes.

ghost use Rattle.std.specs.Prelude.{◌≡◌, ◌<◌, ◌*◌, length};
ghost use Rattle.ass_num.specs.Limits.{IsWithin, max_instant};
ghost use Rattle.frame_view.specs.FrameViews.{IsFrameView, plain_frame};
ghost use Rattle.vimalorua_c.specs.Calls.{IsBadDraw, IsBadDrawIn, IsCall, IsDrawn, IsGoodCall};
ghost use Rattle.vimalorua_c.specs.Views.{view_numbered};

use crate::handle::Handle;
use crate::ranges::may_be_shown;
use crate::status::{BAD_CALL, CLOSED, DONE, NO_FONT, OUT_OF_MEMORY};
use crate::taking::{put_back, take};
use crate::views::{ViewNumbers, may_be_seen, view_numbered};
use ass_num::Size;
use frame_view::FrameView;
use player::Player;
use std::alloc::Global;

/// Draws a picture into bytes.
fn drawn(alloc: Global, player: &mut Player, at: i64, frame: &FrameView, out: &mut [u8]) -> i32
    requires instant { IsWithin max_instant at }
    requires frame { IsFrameView frame.now }
    requires bytes { length out.old ≡ 3 * (frame.now.size.w * frame.now.size.h) }
    ensures { IsDrawn at frame.now out.old out.new result player.old player.new }
{
    if player.font_count() == 0 {
        return NO_FONT;
    }
    let Ok(canvas) = player.draw_in(alloc, at, frame) else {
        return OUT_OF_MEMORY;
    };
    out.copy_from_slice(canvas.pixels());
    DONE
}

/// Draws what is shown at an instant in a frame into bytes that have just room for it.
fn draw_behind(
    alloc: Global,
    handle: &mut Handle,
    at: i64,
    frame: &FrameView,
    out: &mut [u8],
) -> i32
    requires instant { IsWithin max_instant at }
    requires frame { IsFrameView frame.now }
    requires bytes { length out.old ≡ 3 * (frame.now.size.w * frame.now.size.h) }
    ensures { IsGoodCall (out.new ≡ out.old) (IsDrawn at frame.now out.old out.new result) result handle.old.value handle.new.value }
{
    let Ok(kept) = take(alloc, handle) else {
        return OUT_OF_MEMORY;
    };
    let mut kept = kept;
    let status = match &mut kept.player {
        Some(player) => drawn(alloc, player, at, frame, out),
        None => CLOSED,
    };
    put_back(handle, kept);
    status
}

/// Draws what is shown at an instant into the caller's bytes: three for each pixel, red, green and blue, row by row.
#[unsafe(no_mangle)]
pub extern "C" fn vimalorua_draw_proved(
    alloc: Global,
    handle: &mut Handle,
    at: i64,
    w: u32,
    h: u32,
    out: &mut [u8],
) -> i32
    ensures { IsCall (IsBadDraw at (record { w = w; h = h }) out.old) (out.new ≡ out.old) (IsDrawn at (plain_frame (record { w = w; h = h })) out.old out.new result)
        result handle.old.value handle.new.value }
{
    let size = Size { w, h };
    if !may_be_shown(at, &size) || out.len() != 3 * (w as usize * h as usize) {
        return BAD_CALL;
    }
    draw_behind(alloc, handle, at, &FrameView::plain(size), out)
}

/// The same in a frame as the script sees it. c/vimalorua.c makes the numbers whole.
#[unsafe(no_mangle)]
pub extern "C" fn vimalorua_draw_by_numbers(
    alloc: Global,
    handle: &mut Handle,
    at: i64,
    numbers: &ViewNumbers,
    out: &mut [u8],
) -> i32
    ensures { IsCall (IsBadDrawIn at numbers.now out.old) (out.new ≡ out.old) (IsDrawn at (view_numbered numbers.now) out.old out.new result) result
        handle.old.value handle.new.value }
{
    if !may_be_seen(at, numbers) || out.len() != 3 * (numbers.w as usize * numbers.h as usize) {
        return BAD_CALL;
    }
    draw_behind(alloc, handle, at, &view_numbered(numbers), out)
}

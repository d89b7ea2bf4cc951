//! Which views are within the limits of their numbers.

ghost use Rattle.std.specs.Bool.{Decides};
ghost use Rattle.std.specs.Prelude.{IfSome};
ghost use Rattle.ass_num.specs.Limits.{IsFrameSize, IsWithin, max_frame_side};
ghost use Rattle.frame_view.specs.FrameViews.{IsAspect, IsContentRect, IsFrameView, IsLayoutSide, IsStorage};

use crate::view::{FrameView, PixelAspect, PixelRect};
use ass_num::Size;

/// The most columns and the most rows of a frame.
const MAX_FRAME_SIDE: u32 = 4096;

/// The farthest that a picture's corner may lie from the frame's.
const FARTHEST: i32 = 4096;

/// The most columns and the most rows of a video, and the most parts of a pixel.
const MOST: u32 = 65_536;

/// The largest size of letters.
const MAX_LETTER_SCALE: u32 = 100_000;

/// Whether a corner of a picture may lie there.
fn is_near(place: i32) -> bool
    ensures { Decides result (IsWithin max_frame_side place) }
{
    -FARTHEST <= place && place <= FARTHEST
}

/// Whether there are from one to the most of a number.
fn is_from_one(number: u32) -> bool
    ensures { Decides result (IsLayoutSide number) }
{
    1 <= number && number <= MOST
}

/// Whether a picture may stand there.
fn is_content(rect: &Option<PixelRect>) -> bool
    ensures { Decides result (IfSome rect.now IsContentRect) }
{
    match rect {
        Some(rect) => {
            let near = is_near(rect.left) && is_near(rect.top);
            let some = 1 <= rect.w && 1 <= rect.h;
            near && some && rect.w <= MAX_FRAME_SIDE && rect.h <= MAX_FRAME_SIDE
        }
        None => true,
    }
}

/// Whether a video may have this size.
fn is_storage(size: &Option<Size>) -> bool
    ensures { Decides result (IfSome size.now IsStorage) }
{
    match size {
        Some(size) => is_from_one(size.w) && is_from_one(size.h),
        None => true,
    }
}

/// Whether pixels may have this shape.
fn is_aspect(aspect: &Option<PixelAspect>) -> bool
    ensures { Decides result (IfSome aspect.now IsAspect) }
{
    match aspect {
        Some(aspect) => is_from_one(aspect.wide) && is_from_one(aspect.high),
        None => true,
    }
}

/// Whether a frame may have this size.
fn is_frame_size(size: &Size) -> bool
    ensures { Decides result (IsFrameSize size.now) }
{
    size.w <= MAX_FRAME_SIDE && size.h <= MAX_FRAME_SIDE
}

/// Whether all numbers of a view are within their limits.
pub fn is_frame_view(frame: &FrameView) -> bool
    ensures { Decides result (IsFrameView frame.now) }
{
    let video = is_storage(&frame.storage) && is_aspect(&frame.aspect);
    is_frame_size(&frame.size)
        && is_content(&frame.content)
        && video
        && frame.scale <= MAX_LETTER_SCALE
}

//! The sides by which the lengths of a script are measured.

ghost use Rattle.std.specs.Prelude.{◌≡◌, ◌≤◌, ℕ, ◌*◌};
ghost use Rattle.ass_num.specs.Limits.{IsFrameSize, max_frame_side};
ghost use Rattle.ass_script.specs.Ranges.{IsScriptHeader};
ghost use Rattle.frame_view.specs.FrameScales.{canvas_by_aspect, canvas_size, held_side, layout_size, nearest_side};
ghost use Rattle.frame_view.specs.FrameViews.{IsAspect, IsContentRect, IsFrameView, IsGroundRect, IsLayoutSide};
ghost use Rattle.frame_view.specs.FrameViews.{content_of, fit_in, ground_of, is_in_bars, is_size_alone, rect_size, shown_sides, whole_rect};
ghost use Rattle.frame_view.specs.Limits.{max_aspect_parts, max_layout_side};

use crate::view::{FrameView, LetterWidth, PixelAspect, PixelRect};
use ass_num::Size;
use ass_script::Header;

/// The largest side of a video.
const MAX_LAYOUT_SIDE: u64 = 65_536;

/// Whether nothing but a size is known, and all of a script is stretched to it.
pub(crate) fn is_size_alone(frame: &FrameView) -> bool
    ensures { result ≡ is_size_alone frame.now }
{
    match frame.letters {
        LetterWidth::Canvas => {
            frame.content.is_none() && frame.storage.is_none() && frame.aspect.is_none()
        }
        LetterWidth::Aspect => false,
    }
}

/// The whole of a frame.
pub(crate) fn whole_rect(size: &Size) -> PixelRect
    requires { IsFrameSize size.now }
    ensures value { result ≡ whole_rect size.now }
    ensures range { IsGroundRect result }
{
    PixelRect {
        left: 0,
        top: 0,
        w: size.w,
        h: size.h,
    }
}

/// Where the video's picture stands in the frame.
fn content_of(frame: &FrameView) -> PixelRect
    requires { IsFrameView frame.now }
    ensures value { result ≡ content_of frame.now }
    ensures range { IsGroundRect result }
{
    match frame.content {
        Some(rect) => rect,
        None => whole_rect(&frame.size),
    }
}

/// The columns and rows of a rectangle.
fn rect_size(rect: &PixelRect) -> Size
    ensures { result ≡ rect_size rect.now }
{
    Size {
        w: rect.w,
        h: rect.h,
    }
}

/// The product of two sides.
fn area(w: u32, h: u32) -> u64
    ensures value { result ≡ w * h }
    ensures within { (columns rows : ℕ) → w ≤ columns → h ≤ rows → result ≤ columns * rows }
{
    u64::from(w) * u64::from(h)
}

/// The shape of a rectangle, grown or shrunk until it touches the frame's sides, or its upper and lower edge.
fn fit_in(size: &Size, rect: &PixelRect) -> Size
    requires size { IsFrameSize size.now }
    requires rect { IsContentRect rect.now }
    ensures value { result ≡ fit_in size.now rect.now }
    ensures range { IsFrameSize result }
{
    let across = area(rect.h, size.w);
    let down = area(rect.w, size.h);
    if across <= down {
        Size {
            w: size.w,
            h: (across / u64::from(rect.w)) as u32,
        }
    } else {
        Size {
            w: (down / u64::from(rect.h)) as u32,
            h: size.h,
        }
    }
}

/// Whether a line may stand in the bars beside the picture.
fn is_in_bars(frame: &FrameView, typeset: bool) -> bool
    ensures { result ≡ is_in_bars frame.now typeset }
{
    frame.bars && !typeset
}

/// So many columns and rows show the canvas of a line.
pub(crate) fn shown_sides(frame: &FrameView, typeset: bool) -> Size
    requires { IsFrameView frame.now }
    ensures value { result ≡ shown_sides frame.now typeset }
    ensures range { IsFrameSize result }
{
    if is_in_bars(frame, typeset) {
        match frame.content {
            Some(rect) => fit_in(&frame.size, &rect),
            None => frame.size,
        }
    } else {
        rect_size(&content_of(frame))
    }
}

/// The rectangle from whose edges the margins of a line count.
pub(crate) fn ground_of(frame: &FrameView, typeset: bool) -> PixelRect
    requires { IsFrameView frame.now }
    ensures value { result ≡ ground_of frame.now typeset }
    ensures range { IsGroundRect result }
{
    if is_in_bars(frame, typeset) {
        whole_rect(&frame.size)
    } else {
        content_of(frame)
    }
}

/// The canvas of a script.
pub(crate) fn canvas_size(header: &Header) -> Size
    ensures { result ≡ canvas_size header.now }
{
    Size {
        w: header.res_x,
        h: header.res_y,
    }
}

/// The side of a video that is nearest to a number.
fn held_side(n: u64) -> u32
    ensures value { result ≡ held_side n }
    ensures range { IsLayoutSide result }
{
    n.clamp(1, MAX_LAYOUT_SIDE) as u32
}

/// A quotient rounded to the nearest side that a video may have.
fn nearest_side(parts: u64, whole: u64) -> u32
    requires parts { parts ≤ (max_layout_side * max_frame_side) * max_aspect_parts }
    requires whole { whole ≤ max_frame_side * max_aspect_parts }
    ensures value { result ≡ nearest_side parts whole }
    ensures range { IsLayoutSide result }
{
    if whole == 0 {
        return 1;
    }
    held_side((2 * parts + whole) / (2 * whole))
}

/// The product of a side, of the pixels that show it, and of parts of a pixel.
fn parts_of(side: u32, shown: u32, parts: u32) -> u64
    requires side { IsLayoutSide side }
    requires shown { shown ≤ max_frame_side }
    requires parts { parts ≤ max_aspect_parts }
    ensures value { result ≡ (side * shown) * parts }
    ensures within { result ≤ (max_layout_side * max_frame_side) * max_aspect_parts }
{
    area(side, shown) * u64::from(parts)
}

/// The canvas, as wide as pixels of this shape make it where they are wider than high, and as high where they are narrower, on a picture
/// of these sides.
fn canvas_by_aspect(canvas: &Size, sides: &Size, aspect: &PixelAspect) -> Size
    requires wide { IsLayoutSide canvas.now.w }
    requires high { IsLayoutSide canvas.now.h }
    requires sides { IsFrameSize sides.now }
    requires aspect { IsAspect aspect.now }
    ensures value { result ≡ canvas_by_aspect canvas.now sides.now aspect.now }
    ensures wide { IsLayoutSide result.w }
    ensures high { IsLayoutSide result.h }
{
    if aspect.high < aspect.wide {
        let parts = parts_of(canvas.h, sides.w, aspect.high);
        Size {
            w: nearest_side(parts, area(sides.h, aspect.wide)),
            h: canvas.h,
        }
    } else if aspect.wide < aspect.high {
        let parts = parts_of(canvas.w, sides.h, aspect.wide);
        Size {
            w: canvas.w,
            h: nearest_side(parts, area(sides.w, aspect.high)),
        }
    } else {
        *canvas
    }
}

/// The size for which borders that aren't scaled, and blurs, are said: the video's, or else the canvas by the shape of its pixels
/// (Advanced SubStation Alpha, "ScaledBorderAndShadow").
pub(crate) fn layout_size(header: &Header, frame: &FrameView) -> Size
    requires header { IsScriptHeader header.now }
    requires frame { IsFrameView frame.now }
    ensures value { result ≡ layout_size header.now frame.now }
    ensures wide { IsLayoutSide result.w }
    ensures high { IsLayoutSide result.h }
{
    if let Some(storage) = frame.storage {
        return storage;
    }
    let canvas = canvas_size(header);
    match frame.aspect {
        Some(aspect) => canvas_by_aspect(&canvas, &rect_size(&content_of(frame)), &aspect),
        None => canvas,
    }
}

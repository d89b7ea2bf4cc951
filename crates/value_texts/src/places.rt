//! Places in a frame and around it.

ghost use Rattle.std.specs.Prelude.{◌≡◌, IfSome, neg_ℤ, option_map};
ghost use Rattle.ass_num.specs.Limits.{IsWithin, max_frame_side};
ghost use Rattle.value_texts.specs.Values.{column_in, content_in, pixel_in, rect_at, rect_behind};

use crate::numbers::number_within;
use crate::sizes::{MAX_FRAME_SIDE, size_in};
use ass_num::Size;
use frame_view::PixelRect;

/// The column or row of a frame that a text is.
fn column_in(text: &str) -> Option<i32>
    ensures value { result ≡ column_in text.now }
    ensures range { IfSome result (λ n. IsWithin max_frame_side n) }
{
    let number = number_within(text, 0, MAX_FRAME_SIDE)?;
    Some(number as i32)
}

/// As far before the frame.
fn before(column: Option<i32>) -> Option<i32>
    requires { IfSome column (λ n. IsWithin max_frame_side n) }
    ensures { result ≡ option_map neg_ℤ column }
{
    let column = column?;
    Some(-column)
}

/// The column or row that a text is, in the frame or around it.
#[inline(never)]
fn pixel_in(text: &str) -> Option<i32>
    ensures { result ≡ pixel_in text.now }
{
    match text.strip_prefix('-') {
        Some(digits) => before(column_in(digits)),
        None => column_in(text),
    }
}

/// The rectangle that stands there, where all of it is said.
fn rect_at(left: Option<i32>, top: Option<i32>, size: Option<Size>) -> Option<PixelRect>
    ensures { result ≡ rect_at left top size }
{
    let left = left?;
    let top = top?;
    let size = size?;
    Some(PixelRect {
        left,
        top,
        w: size.w,
        h: size.h,
    })
}

/// The rectangle of this left whose top and size a text is.
fn rect_behind(left: Option<i32>, text: &str) -> Option<PixelRect>
    ensures { result ≡ rect_behind left text.now }
{
    let (top, size) = text.split_once(',')?;
    rect_at(left, pixel_in(top), size_in(size))
}

/// The rectangle that a text is: left, top and size, with commas between.
#[inline(never)]
pub fn content_in(text: &str) -> Option<PixelRect>
    ensures { result ≡ content_in text.now }
{
    let (left, rest) = text.split_once(',')?;
    rect_behind(pixel_in(left), rest)
}

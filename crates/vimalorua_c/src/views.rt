//! What a frame is to a script, as C says it in numbers.

ghost use Rattle.std.specs.Bool.{Decides};
ghost use Rattle.std.specs.Prelude.{◌≡◌};
ghost use Rattle.ass_num.specs.Limits.{IsWithin, max_instant};
ghost use Rattle.vimalorua_c.specs.Views.{AreViewNumbers, SizesAreSizesAlone, aspect_numbered, content_numbered, letters_numbered, scale_numbered};
ghost use Rattle.vimalorua_c.specs.Views.{storage_numbered, view_numbered};

use crate::ranges::is_instant;
use ass_num::Size;
use frame_view::{FrameView, LetterWidth, PixelAspect, PixelRect, is_frame_view};

/// What a frame is to a script: the struct of c/vimalorua.h, which says what each number is. Each that is 0 says nothing, but those of
/// the frame's size.
#[repr(C)]
#[derive(Clone, Copy)]
pub struct ViewNumbers {
    /// How many bytes of the struct the program knows.
    pub size: usize,
    pub w: u32,
    pub h: u32,
    pub left: i32,
    pub top: i32,
    pub content_w: u32,
    pub content_h: u32,
    pub storage_w: u32,
    pub storage_h: u32,
    pub aspect_wide: u32,
    pub aspect_high: u32,
    pub letters: u32,
    pub scale: u32,
    pub use_bars: u32,
    /// What the program says beyond these, and 0 where it says nothing.
    pub unused: u32,
}

/// How many bytes the numbers of a frame's size end at.
const LEAST_BYTES: usize = 16;

/// Where the video's picture stands.
fn content_numbered(numbers: &ViewNumbers) -> Option<PixelRect>
    ensures { result ≡ content_numbered numbers.now }
{
    if numbers.content_w == 0 && numbers.content_h == 0 {
        return None;
    }
    Some(PixelRect {
        left: numbers.left,
        top: numbers.top,
        w: numbers.content_w,
        h: numbers.content_h,
    })
}

/// The size of the video.
fn storage_numbered(numbers: &ViewNumbers) -> Option<Size>
    ensures { result ≡ storage_numbered numbers.now }
{
    if numbers.storage_w == 0 && numbers.storage_h == 0 {
        return None;
    }
    Some(Size {
        w: numbers.storage_w,
        h: numbers.storage_h,
    })
}

/// The shape of its pixels.
fn aspect_numbered(numbers: &ViewNumbers) -> Option<PixelAspect>
    ensures { result ≡ aspect_numbered numbers.now }
{
    if numbers.aspect_wide == 0 && numbers.aspect_high == 0 {
        return None;
    }
    Some(PixelAspect {
        wide: numbers.aspect_wide,
        high: numbers.aspect_high,
    })
}

/// The rule of letters.
fn letters_numbered(number: u32) -> LetterWidth
    ensures { result ≡ letters_numbered number }
{
    if number == 0 {
        LetterWidth::Canvas
    } else {
        LetterWidth::Aspect
    }
}

/// The size of letters.
fn scale_numbered(number: u32) -> u32
    ensures { result ≡ scale_numbered number }
{
    if number == 0 { 1_000 } else { number }
}

/// The view that numbers say.
pub fn view_numbered(numbers: &ViewNumbers) -> FrameView
    ensures { result ≡ view_numbered numbers.now }
{
    FrameView {
        size: Size {
            w: numbers.w,
            h: numbers.h,
        },
        content: content_numbered(numbers),
        storage: storage_numbered(numbers),
        aspect: aspect_numbered(numbers),
        letters: letters_numbered(numbers.letters),
        scale: scale_numbered(numbers.scale),
        bars: numbers.use_bars != 0,
    }
}

/// Whether numbers say a view.
fn are_view_numbers(numbers: &ViewNumbers) -> bool
    ensures { Decides result (AreViewNumbers numbers.now) }
{
    let choices = numbers.letters <= 1 && numbers.use_bars <= 1 && numbers.unused == 0;
    LEAST_BYTES <= numbers.size && choices && is_frame_view(&view_numbered(numbers))
}

/// Whether numbers say a view, and a picture may be asked for at this instant.
pub fn may_be_seen(at: i64, numbers: &ViewNumbers) -> bool
    ensures { Decides result (AreViewNumbers numbers.now × IsWithin max_instant at) }
{
    are_view_numbers(numbers) && is_instant(at)
}

/// Numbers of a frame's size alone say the view of that size alone.
pub fn sizes_are_sizes_alone()
    ensures { SizesAreSizesAlone }
{}

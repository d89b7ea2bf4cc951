//! Sizes, and the shape of pixels.

ghost use Rattle.std.specs.Prelude.{◌≡◌, ◌≤◌};
ghost use Rattle.value_texts.specs.Values.{aspect_in, size_in, size_within, storage_in};

use crate::numbers::number_within;
use ass_num::Size;
use frame_view::PixelAspect;

/// The most columns and the most rows of a frame.
pub const MAX_FRAME_SIDE: u64 = 4096;

/// The most columns and the most rows of a video.
const MAX_STORAGE_SIDE: u64 = 65_536;

/// The most parts of a pixel's width, or of its height.
const MAX_ASPECT_PARTS: u64 = 65_536;

/// The size that a text is: columns and rows up to the most, with an `x` between.
#[inline(never)]
fn size_within(text: &str, most: u64) -> Option<Size>
    requires { most ≤ 65536 }
    ensures { result ≡ size_within most text.now }
{
    let (columns, rows) = text.split_once('x')?;
    let w = number_within(columns, 1, most)?;
    let h = number_within(rows, 1, most)?;
    Some(Size {
        w: w as u32,
        h: h as u32,
    })
}

/// The size of a frame that a text is.
pub fn size_in(text: &str) -> Option<Size>
    ensures { result ≡ size_in text.now }
{
    size_within(text, MAX_FRAME_SIDE)
}

/// The size of a video that a text is.
pub fn storage_in(text: &str) -> Option<Size>
    ensures { result ≡ storage_in text.now }
{
    size_within(text, MAX_STORAGE_SIDE)
}

/// The shape of pixels that a text is: their width and height, with a `/` between.
#[inline(never)]
pub fn aspect_in(text: &str) -> Option<PixelAspect>
    ensures { result ≡ aspect_in text.now }
{
    let (wide, high) = text.split_once('/')?;
    let wide = number_within(wide, 1, MAX_ASPECT_PARTS)?;
    let high = number_within(high, 1, MAX_ASPECT_PARTS)?;
    Some(PixelAspect {
        wide: wide as u32,
        high: high as u32,
    })
}

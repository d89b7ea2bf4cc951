//! The pixels at which two pictures differ, in each format.

ghost use Rattle.std.specs.Prelude.{◌≡◌};
ghost use Rattle.ass_num.specs.Limits.{IsFrameSize};
ghost use Rattle.still_images.specs.Boxes.{HasPixels, IsBoxOfPixels, whole_box};
ghost use Rattle.still_images.specs.Formats.{pixel_bytes};

use crate::alpha_box::alpha_box;
use ass_num::Size;
use frame_change::{Changed, changed_box};
use run_words::FrameFormat;

/// How many bytes a pixel has.
pub fn pixel_bytes(format: FrameFormat) -> usize
    ensures { result ≡ pixel_bytes format }
{
    match format {
        FrameFormat::Ppm => 3,
        FrameFormat::Pam | FrameFormat::Rgba => 4,
    }
}

/// The box of the whole frame.
pub fn whole_box(size: &Size) -> Changed
    ensures { result ≡ whole_box size.now }
{
    Changed {
        x1: 0,
        y1: 0,
        x2: size.w,
        y2: size.h,
    }
}

/// The least box that has every pixel at which two pictures in a format differ; `None` where they are equal.
#[tactic(auto, using(crate::proofs::BoxLemmas::box_of_three))]
pub fn box_of(format: FrameFormat, size: &Size, a: &[u8], b: &[u8]) -> Option<Changed>
    requires size { IsFrameSize size.now }
    requires a { HasPixels (pixel_bytes format) size.now a.now }
    requires b { HasPixels (pixel_bytes format) size.now b.now }
    ensures { IsBoxOfPixels (pixel_bytes format) size.now a.now b.now result }
{
    match format {
        FrameFormat::Ppm => changed_box(size, a, b),
        FrameFormat::Pam | FrameFormat::Rgba => alpha_box(size, a, b),
    }
}

//! The images of kept pictures.

ghost use Rattle.std.specs.Prelude.{◌≡◌, ◌≤◌, IfOk};
ghost use Rattle.ass_num.specs.Limits.{max_instant};
ghost use Rattle.still_images.specs.Boxes.{HasPixels, IsOnFrame, box_size, cropped};
ghost use Rattle.still_images.specs.Formats.{image_of_pixels, pixel_bytes};
ghost use Rattle.still_images.specs.Stills.{image_of_part};

use crate::boxes::pixel_bytes;
use crate::crop::cropped;
use ass_num::{Mem, Size};
use frame_change::Changed;
use pam_text::pam_bytes;
use ppm_text::ppm_bytes;
use run_words::{FrameFormat, StillsJob};
use std::alloc::Global;

/// The image of pixels in a format: that at the instant `t`, when `n` events were known.
#[inline(never)]
fn image_of_pixels(
    alloc: Global,
    format: FrameFormat,
    size: &Size,
    pixels: &[u8],
    t: u64,
    n: usize,
) -> Mem<Vec<u8>>
    requires pixels { HasPixels (pixel_bytes format) size.now pixels.now }
    requires instant { t ≤ max_instant }
    ensures { IfOk result (λ image. image.items ≡ image_of_pixels format size.now pixels.now t n) }
{
    match format {
        FrameFormat::Ppm => ppm_bytes(alloc, size, pixels, t as i64, n),
        FrameFormat::Pam => pam_bytes(alloc, size, pixels, t as i64, n),
        FrameFormat::Rgba => copied(alloc, pixels),
    }
}

/// Bytes in memory of their own.
fn copied(alloc: Global, bytes: &[u8]) -> Mem<Vec<u8>>
    ensures { IfOk result (λ copy. copy.items ≡ bytes.now) }
{
    let mut copy = Vec::with_capacity(alloc, bytes.len())?;
    copy.extend_from_slice(bytes)?;
    Ok(copy)
}

/// The image of the part of a picture in a box.
#[tactic(auto, using(crate::proofs::CropLemmas::cropped_pixels))]
fn cropped_image(
    alloc: Global,
    job: &StillsJob,
    part: &Changed,
    pixels: &[u8],
    t: u64,
    n: usize,
) -> Mem<Vec<u8>>
    requires pixels { HasPixels (pixel_bytes job.now.format) job.now.size pixels.now }
    requires part { IsOnFrame job.now.size part.now }
    requires instant { t ≤ max_instant }
    ensures { IfOk result (λ image. image.items ≡ image_of_pixels job.now.format (box_size part.now)
        (cropped (pixel_bytes job.now.format) job.now.size.w part.now pixels.now) t n) }
{
    let bytes = cropped(alloc, pixel_bytes(job.format), &job.size, part, pixels)?;
    let size = Size {
        w: part.x2 - part.x1,
        h: part.y2 - part.y1,
    };
    image_of_pixels(alloc, job.format, &size, bytes.as_slice(), t, n)
}

/// The image of a kept picture: all of it, or the part in the box of what changed.
pub fn still_image(
    alloc: Global,
    job: &StillsJob,
    part: &Changed,
    pixels: &[u8],
    t: u64,
    n: usize,
) -> Mem<Vec<u8>>
    requires pixels { HasPixels (pixel_bytes job.now.format) job.now.size pixels.now }
    requires part { IsOnFrame job.now.size part.now }
    requires instant { t ≤ max_instant }
    ensures { IfOk result (λ image. image.items ≡ image_of_part job.now part.now pixels.now t n) }
{
    if job.crop {
        cropped_image(alloc, job, part, pixels, t, n)
    } else {
        image_of_pixels(alloc, job.format, &job.size, pixels, t, n)
    }
}

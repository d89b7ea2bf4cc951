//! The pixels of pictures.

ghost use Rattle.std.specs.Prelude.{◌≡◌, IfOk};
ghost use Rattle.ass_num.specs.Limits.{IsFrameSize};
ghost use Rattle.mask_keys.specs.Keys.{IsValidPlan};
ghost use Rattle.mask_keys.specs.Outlines.{glyph_counts};
ghost use Rattle.mask_keys.specs.Pictures.{picture};
ghost use Rattle.still_images.specs.Boxes.{HasPixels};
ghost use Rattle.still_images.specs.Formats.{ArePixelsOf, pixel_bytes};

use ass_num::{Mem, Size};
use blend::Canvas;
use frame_images::alpha_pixels;
use local_caches::LocalCaches;
use mask_keys::Plan;
use run_words::FrameFormat;
use std::alloc::Global;

/// The picture of a plan on black.
#[tactic(auto, using(crate::proofs::PixelLemmas::painted, crate::proofs::PixelLemmas::picture_size))]
fn pixels_on_black(alloc: Global, local: &mut LocalCaches, size: &Size, plan: &Plan) -> Mem<Vec<u8>>
    requires size { IsFrameSize size.now }
    requires plan { IsValidPlan (glyph_counts local.old.fonts) plan.now.draws }
    ensures pixels { IfOk result (λ pixels. pixels.items ≡ (picture local.old.fonts size.now plan.now.draws).bytes) }
    ensures count { IfOk result (λ pixels. HasPixels 3 size.now pixels.items) }
    ensures fonts { local.new.fonts ≡ local.old.fonts }
{
    let mut canvas = Canvas::new(alloc, size)?;
    local.paint(alloc, plan, &mut canvas)?;
    let mut pixels = Vec::with_capacity(alloc, canvas.pixels().len())?;
    pixels.extend_from_slice(canvas.pixels())?;
    Ok(pixels)
}

/// The pixels of a plan in a format.
#[tactic(auto, using(crate::proofs::PixelLemmas::alpha_size))]
pub fn pixels_of(
    alloc: Global,
    local: &mut LocalCaches,
    format: FrameFormat,
    size: &Size,
    plan: &Plan,
) -> Mem<Vec<u8>>
    requires size { IsFrameSize size.now }
    requires plan { IsValidPlan (glyph_counts local.old.fonts) plan.now.draws }
    ensures pixels { IfOk result (λ pixels. ArePixelsOf format local.old.fonts size.now plan.now.draws pixels.items) }
    ensures count { IfOk result (λ pixels. HasPixels (pixel_bytes format) size.now pixels.items) }
    ensures fonts { local.new.fonts ≡ local.old.fonts }
{
    match format {
        FrameFormat::Ppm => pixels_on_black(alloc, local, size, plan),
        FrameFormat::Pam | FrameFormat::Rgba => alpha_pixels(alloc, local, size, plan),
    }
}

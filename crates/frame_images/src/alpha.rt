//! Pictures with alpha.

ghost use Rattle.std.specs.Prelude.{◌≡◌, IfOk, map};
ghost use Rattle.std.specs.Arc.{arc_value};
ghost use Rattle.alpha_canvas.specs.Alpha.{AreAlphaRows};
ghost use Rattle.ass_num.specs.Limits.{IsFrameSize};
ghost use Rattle.mask_keys.specs.Keys.{IsValidPlan};
ghost use Rattle.mask_keys.specs.Outlines.{glyph_counts};
ghost use Rattle.mask_keys.specs.Pictures.{image_of_draw};
ghost use Rattle.run_words.specs.Jobs.{IsFrameJob};
ghost use Rattle.text_layout.specs.Fonts.{IsLayoutFontSet};

use alpha_canvas::{AlphaForm, paint_alpha};
use ass_num::{Mem, Size};
use bdf_font::FontSet;
use local_caches::LocalCaches;
use mask_keys::Plan;
use run_words::FrameJob;
use std::alloc::Global;
use std::sync::Arc;

/// The picture of a plan with straight alpha, with its masks through the caches.
pub fn alpha_pixels(
    alloc: Global,
    local: &mut LocalCaches,
    size: &Size,
    plan: &Plan,
) -> Mem<Vec<u8>>
    requires size { IsFrameSize size.now }
    requires plan { IsValidPlan (glyph_counts local.old.fonts) plan.now.draws }
    ensures pixels { IfOk result (λ pixels. AreAlphaRows AlphaForm.Straight (map (image_of_draw local.old.fonts) plan.now.draws)
        size.now.w 0 size.now.h pixels.items) }
    ensures fonts { local.new.fonts ≡ local.old.fonts }
{
    let images = local.images(alloc, plan.draws.as_slice())?;
    paint_alpha(alloc, size, AlphaForm::Straight, images.as_slice())
}

/// The picture of a plan with straight alpha.
#[tactic(auto, using(crate::proofs::ImageLemmas::font_set))]
pub fn alpha_painted(
    alloc: Global,
    frame: &FrameJob,
    fonts: Arc<FontSet>,
    plan: &Plan,
) -> Mem<Vec<u8>>
    requires frame { IsFrameJob frame.now }
    requires fonts { IsLayoutFontSet (arc_value fonts).fonts }
    requires plan { IsValidPlan (glyph_counts (arc_value fonts).fonts) plan.now.draws }
    ensures { IfOk result (λ pixels. AreAlphaRows AlphaForm.Straight (map (image_of_draw (arc_value fonts).fonts) plan.now.draws)
        frame.now.view.size.w 0 frame.now.view.size.h pixels.items) }
{
    let mut local = LocalCaches::open(alloc, fonts, frame.budget)?;
    alpha_pixels(alloc, &mut local, &frame.view.size, plan)
}

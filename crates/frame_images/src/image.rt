//! The image of a picture, in each format.

ghost use Rattle.std.specs.Prelude.{◌≡◌, ◌≤◌, ℕ, List, map, pos, All, IfOk, length};
ghost use Rattle.std.specs.Arc.{arc_value};
ghost use Rattle.ass_num.specs.Limits.{max_text_bytes};
ghost use Rattle.ass_events.specs.Histories.{HaveOwnOrders, max_live};
ghost use Rattle.ass_events.specs.LineLaws.{HasShortLines};
ghost use Rattle.ass_events.specs.Ranges.{IsEvent};
ghost use Rattle.ass_events.specs.declared.event.Event.{Event};
ghost use Rattle.ass_script.specs.Ranges.{IsScript};
ghost use Rattle.alpha_canvas.specs.Alpha.{AreAlphaRows};
ghost use Rattle.frame_images.specs.FrameImages.{IsFormattedImage};
ghost use Rattle.mask_keys.specs.Keys.{IsValidPlan};
ghost use Rattle.mask_keys.specs.Outlines.{glyph_counts};
ghost use Rattle.mask_keys.specs.Pictures.{image_of_draw, picture};
ghost use Rattle.pam_text.specs.Pams.{pam_bytes};
ghost use Rattle.picture_plan.specs.Pictures.{AreDraws};
ghost use Rattle.ppm_text.specs.Images.{image_bytes};
ghost use Rattle.run_words.specs.Jobs.{IsFrameJob};
ghost use Rattle.text_layout.specs.Fonts.{IsLayoutFontSet};

use crate::alpha::alpha_painted;
use alpha_canvas::AlphaForm;
use ass_events::{Event, events_of};
use ass_num::Mem;
use ass_script::Script;
use bdf_font::FontSet;
use blend::Canvas;
use local_caches::LocalCaches;
use mask_keys::Plan;
use pam_text::pam_bytes;
use picture_plan::plan;
use ppm_text::ppm_bytes;
use run_words::{FrameFormat, FrameJob};
use std::alloc::Global;
use std::sync::Arc;
use text_layout::Setting;

/// The draws of the picture that events show.
fn plan_of(
    alloc: Global,
    frame: &FrameJob,
    script: &Script,
    fonts: &FontSet,
    events: &[Arc<Event>],
) -> Mem<Plan>
    requires frame { IsFrameJob frame.now }
    requires script { IsScript script.now }
    requires fonts { IsLayoutFontSet fonts.now.fonts }
    requires events { All IsEvent (map arc_value events.now) }
    requires texts { All (λ (e : Event). length e.text ≤ max_text_bytes) (map arc_value events.now) }
    requires few { length events.now ≤ max_live }
    requires orders { HaveOwnOrders (map arc_value events.now) }
    ensures draws { IfOk result (λ plan. AreDraws script.now fonts.now.fonts (map arc_value events.now) (pos frame.now.at) frame.now.view plan.draws) }
    ensures valid { IfOk result (λ plan. IsValidPlan (glyph_counts fonts.now.fonts) plan.draws) }
{
    let setting = Setting {
        script,
        fonts,
        frame: frame.view,
    };
    plan(alloc, &setting, events, frame.at as i64)
}

/// The picture of a plan.
#[tactic(auto, using(crate::proofs::ImageLemmas::font_set))]
fn painted(alloc: Global, frame: &FrameJob, fonts: Arc<FontSet>, plan: &Plan) -> Mem<Canvas>
    requires frame { IsFrameJob frame.now }
    requires fonts { IsLayoutFontSet (arc_value fonts).fonts }
    requires plan { IsValidPlan (glyph_counts (arc_value fonts).fonts) plan.now.draws }
    ensures picture { IfOk result (λ canvas. canvas ≡ picture (arc_value fonts).fonts frame.now.view.size plan.now.draws) }
    ensures width { IfOk result (λ canvas. canvas.w ≡ frame.now.view.size.w) }
    ensures height { IfOk result (λ canvas. canvas.h ≡ frame.now.view.size.h) }
{
    let mut canvas = Canvas::new(alloc, &frame.view.size)?;
    let mut local = LocalCaches::open(alloc, fonts, frame.budget)?;
    local.paint(alloc, plan, &mut canvas)?;
    Ok(canvas)
}

/// The picture of a plan as a pixmap.
fn ppm_of(
    alloc: Global,
    frame: &FrameJob,
    fonts: Arc<FontSet>,
    plan: &Plan,
    n: usize,
) -> Mem<Vec<u8>>
    requires frame { IsFrameJob frame.now }
    requires fonts { IsLayoutFontSet (arc_value fonts).fonts }
    requires plan { IsValidPlan (glyph_counts (arc_value fonts).fonts) plan.now.draws }
    ensures { IfOk result (λ image. image.items ≡ image_bytes frame.now.view.size.w frame.now.view.size.h
        (picture (arc_value fonts).fonts frame.now.view.size plan.now.draws).bytes (pos frame.now.at) n) }
{
    let canvas = painted(alloc, frame, fonts, plan)?;
    ppm_bytes(alloc, &frame.view.size, canvas.pixels(), frame.at as i64, n)
}

/// The picture of a plan as a map with straight alpha.
#[tactic(auto, using(crate::proofs::ImageLemmas::columns_first))]
fn pam_of(
    alloc: Global,
    frame: &FrameJob,
    fonts: Arc<FontSet>,
    plan: &Plan,
    n: usize,
) -> Mem<Vec<u8>>
    requires frame { IsFrameJob frame.now }
    requires fonts { IsLayoutFontSet (arc_value fonts).fonts }
    requires plan { IsValidPlan (glyph_counts (arc_value fonts).fonts) plan.now.draws }
    ensures { IfOk result (λ image. (pixels : List ℕ) × AreAlphaRows AlphaForm.Straight (map (image_of_draw (arc_value fonts).fonts) plan.now.draws)
        frame.now.view.size.w 0 frame.now.view.size.h pixels
        × (image.items ≡ pam_bytes frame.now.view.size.w frame.now.view.size.h pixels (pos frame.now.at) n)) }
{
    let pixels = alpha_painted(alloc, frame, fonts, plan)?;
    pam_bytes(
        alloc,
        &frame.view.size,
        pixels.as_slice(),
        frame.at as i64,
        n,
    )
}

/// The image of the picture that a script's events show in fonts, in its format.
#[tactic(auto, using(crate::proofs::ImageLemmas::imaged, crate::proofs::ImageLemmas::mapped, crate::proofs::ImageLemmas::bare))]
pub fn frame_image(
    alloc: Global,
    frame: &FrameJob,
    script: &Script,
    fonts: Arc<FontSet>,
) -> Mem<Vec<u8>>
    requires frame { IsFrameJob frame.now }
    requires script { IsScript script.now }
    requires short { HasShortLines script.now }
    requires fonts { IsLayoutFontSet (arc_value fonts).fonts }
    ensures { IfOk result (λ image. IsFormattedImage frame.now.format script.now (arc_value fonts).fonts frame.now.at frame.now.view image.items) }
{
    let events = events_of(alloc, script)?;
    let plan = plan_of(alloc, frame, script, &fonts, events.as_slice())?;
    match frame.format {
        FrameFormat::Ppm => ppm_of(alloc, frame, fonts, &plan, events.len()),
        FrameFormat::Pam => pam_of(alloc, frame, fonts, &plan, events.len()),
        FrameFormat::Rgba => alpha_painted(alloc, frame, fonts, &plan),
    }
}

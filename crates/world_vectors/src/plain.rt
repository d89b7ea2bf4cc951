//! Pictures that are made without caches.
ghost use Rattle.mask_keys.specs.Keys.{IsValidPlan};
ghost use Rattle.mask_keys.specs.Outlines.{glyph_counts};
ghost use Rattle.world_vectors.specs.Given.{AreInputs, fonts_in};

use crate::inputs::{Inputs, plan_at};
use blend::Canvas;
use frame_view::FrameView;
use local_caches::LocalCaches;
use mask_keys::Plan;
use std::alloc::Global;
use std::sync::Arc;
use std::test::Fail;
use text_layout::Setting;

/// Paints a plan. Nothing of it is kept.
fn paint(alloc: Global, inputs: &Inputs, plan: &Plan, canvas: &mut Canvas) -> Result<(), Fail>
    requires inputs { AreInputs inputs.now }
    requires plan { IsValidPlan (glyph_counts (fonts_in inputs.now)) plan.now.draws }
{
    let fonts = Arc::try_clone(&inputs.fonts)?;
    let mut local = LocalCaches::open(alloc, fonts, 0)?;
    Ok(local.paint(alloc, plan, canvas)?)
}

/// The bytes of a plan's pixels.
fn painted(alloc: Global, inputs: &Inputs, plan: &Plan) -> Result<Vec<u8>, Fail>
    requires inputs { AreInputs inputs.now }
    requires plan { IsValidPlan (glyph_counts (fonts_in inputs.now)) plan.now.draws }
{
    let mut canvas = Canvas::new(alloc, &inputs.size)?;
    paint(alloc, inputs, plan, &mut canvas)?;
    Ok(Vec::from_slice(alloc, canvas.pixels())?)
}

/// The bytes of the pixels of the script's picture at an instant in milliseconds.
pub fn picture(alloc: Global, inputs: &Inputs, t: u16) -> Result<Vec<u8>, Fail>
    requires { AreInputs inputs.now }
{
    let setting = Setting {
        script: &inputs.script,
        fonts: &inputs.fonts,
        frame: FrameView::plain(inputs.size),
    };
    let plan = plan_at(alloc, &setting, t)?;
    painted(alloc, inputs, &plan)
}

/// Whether some pixel isn't black.
pub fn is_lit(pixels: &[u8]) -> bool {
    pixels.iter().any(|byte| *byte != 0)
}

//! Scripts with their fonts, the size of their pictures, and the keys of what they draw.
ghost use Rattle.std.specs.Prelude.{All, IfOk};
ghost use Rattle.std.specs.Arc.{arc_value};
ghost use Rattle.ass_num.specs.Limits.{IsFrameSize};
ghost use Rattle.ass_script.specs.Ranges.{IsScript};
ghost use Rattle.bdf_font.specs.Ranges.{IsFont};
ghost use Rattle.mask_keys.specs.Keys.{IsValidComposite, IsValidPlan};
ghost use Rattle.mask_keys.specs.Outlines.{glyph_counts};
ghost use Rattle.ass_events.specs.LineLaws.{HasShortLines};
ghost use Rattle.text_layout.specs.Fonts.{IsLayoutFontSet};
ghost use Rattle.text_layout.specs.Settings.{IsSetting};
ghost use Rattle.world_vectors.specs.Given.{AreInputs};

use ass_events::{events_of, line_laws};
use ass_num::{Items, Size};
use ass_script::{Script, read_script};
use bdf_font::{Font, FontSet};
use frame_view::FrameView;
use mask_keys::{CompositeKey, Draw, Plan, key_copy, plan_keys};
use picture_plan::plan;
use std::alloc::Global;
use std::sync::Arc;
use std::test::Fail;
use text_layout::Setting;

/// A script with more bytes isn't read.
const MOST: usize = 1_000_000;

/// A script and its fonts, the size of all pictures, and keys of composed masks.
#[derive(Drop)]
pub struct Inputs {
    pub script: Arc<Script>,
    pub fonts: Arc<FontSet>,
    pub size: Size,
    pub keys: Vec<CompositeKey>,
}

fn script_of(alloc: Global, text: &[u8]) -> Result<Script, Fail>
    ensures script { IfOk result IsScript }
    ensures short { IfOk result HasShortLines }
{
    if text.len() > MOST {
        return Err("too long".into());
    }
    line_laws::lines_fit_their_text();
    match read_script(alloc, text) {
        Ok(script) => Ok(script),
        Err(_) => Err("no script".into()),
    }
}

fn shared_script(alloc: Global, text: &[u8]) -> Result<Arc<Script>, Fail>
    ensures script { IfOk result (λ script. IsScript (arc_value script)) }
    ensures short { IfOk result (λ script. HasShortLines (arc_value script)) }
{
    let script = script_of(alloc, text)?;
    Ok(Arc::new(alloc, script)?)
}

fn fonts_of(alloc: Global, font: Font) -> Result<Arc<FontSet>, Fail>
    requires { IsFont font }
    ensures { IfOk result (λ set. IsLayoutFontSet (arc_value set).fonts) }
{
    let mut fonts = Items::new(alloc);
    fonts.push(font)?;
    Ok(Arc::new(alloc, FontSet { fonts })?)
}

/// What the script draws at an instant in milliseconds.
pub fn plan_at(alloc: Global, setting: &Setting<'_>, t: u16) -> Result<Plan, Fail>
    requires setting { IsSetting setting.now }
    requires short { HasShortLines setting.now.script }
    ensures { IfOk result (λ plan. IsValidPlan (glyph_counts setting.now.fonts) plan.draws) }
{
    let events = events_of(alloc, setting.script)?;
    Ok(plan(alloc, setting, events.as_slice(), i64::from(t))?)
}

/// Copies of the keys of draws.
fn keys_of(alloc: Global, fonts: &FontSet, draws: &[Draw]) -> Result<Vec<CompositeKey>, Fail>
    requires { IsValidPlan (glyph_counts fonts.now.fonts) draws.now }
    ensures { IfOk result (λ keys. All (IsValidComposite (glyph_counts fonts.now.fonts)) keys.items) }
{
    let _ = fonts;
    let keys = plan_keys(alloc, draws)?;
    let mut copies = Vec::new(alloc);
    for key in keys.as_slice() {
        copies.push(key_copy(alloc, key)?)?;
    }
    Ok(copies)
}

fn keys_at(alloc: Global, setting: &Setting<'_>, t: u16) -> Result<Vec<CompositeKey>, Fail>
    requires setting { IsSetting setting.now }
    requires short { HasShortLines setting.now.script }
    ensures { IfOk result (λ keys. All (IsValidComposite (glyph_counts setting.now.fonts)) keys.items) }
{
    let plan = plan_at(alloc, setting, t)?;
    keys_of(alloc, setting.fonts, plan.draws.as_slice())
}

/// A script with one font, and the keys of what it draws at an instant, in the order of the draws.
pub fn inputs_of(alloc: Global, text: &[u8], font: Font, size: Size, t: u16) -> Result<Inputs, Fail>
    requires font { IsFont font }
    requires size { IsFrameSize size }
    ensures { IfOk result AreInputs }
{
    let script = shared_script(alloc, text)?;
    let fonts = fonts_of(alloc, font)?;
    let setting = Setting {
        script: &script,
        fonts: &fonts,
        frame: FrameView::plain(size),
    };
    let keys = keys_at(alloc, &setting, t)?;
    Ok(Inputs {
        script,
        fonts,
        size,
        keys,
    })
}

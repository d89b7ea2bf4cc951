//! The draws of an event at an instant, moved by a shift.

ghost use Rattle.std.specs.Prelude.{length, OnOk};
ghost use Rattle.ass_num.specs.Limits.{IsWithin, max_instant};
ghost use Rattle.ass_events.specs.Ranges.{IsEvent};
ghost use Rattle.override_tags.specs.Views.{IsView};
ghost use Rattle.tag_state.specs.Views.{IsViewOf};
ghost use Rattle.mask_keys.specs.Keys.{IsValidPlan};
ghost use Rattle.mask_keys.specs.Outlines.{glyph_counts};
ghost use Rattle.text_layout.specs.Layouts.{IsLaid, IsWithinBlock};
ghost use Rattle.text_layout.specs.Settings.{IsSetting};
ghost use Rattle.event_draws.specs.Limits.{max_down};
ghost use Rattle.event_draws.specs.MovedDraws.{AddsMovedDraws};

use crate::rows::add_event_draws;
use crate::stage::Stage;
use ass_events::Event;
use ass_num::{Fix, Items, Mem};
use mask_keys::Draw;
use override_tags::EventView;
use std::alloc::Global;
use text_layout::{Laid, Setting, layout};

/// Adds the draws of an event that looks so at an instant in milliseconds and is laid out so, moved down by a shift in 1/64 pixel: first
/// all shadows, then borders and boxes, then fills, each in the order of the text (Advanced SubStation Alpha, "BorderStyle").
pub fn add_laid_event(
    alloc: Global,
    setting: &Setting<'_>,
    event: &Event,
    view: &EventView,
    laid: &Laid,
    t: i64,
    shift: Fix,
    draws: &mut Items<Draw>,
) -> Mem<()>
    requires setting { IsSetting setting.now }
    requires event { IsEvent event.now }
    requires instant { IsWithin max_instant t }
    requires shift { IsWithin max_down shift }
    requires shows { IsViewOf setting.now.script event.now t view.now }
    requires view { IsView view.now }
    requires laid_out { IsLaid setting.now.script setting.now.fonts event.now view.now setting.now.frame laid.now }
    requires within { IsWithinBlock (length view.now.items) laid.now }
    ensures draws { OnOk result (AddsMovedDraws setting.now.script setting.now.fonts event.now t setting.now.frame shift draws.old draws.new) }
    ensures valid { OnOk result (IsValidPlan (glyph_counts setting.now.fonts) draws.old → IsValidPlan (glyph_counts setting.now.fonts) draws.new) }
{
    let stage = Stage::of(setting, event, t, view, laid, shift);
    add_event_draws(alloc, &stage, setting.fonts, view, laid, draws)
}

/// Lays out an event that looks so at an instant in milliseconds, and adds its draws, moved down by a shift in 1/64 pixel.
pub fn add_viewed_event(
    alloc: Global,
    setting: &Setting<'_>,
    event: &Event,
    view: &EventView,
    t: i64,
    shift: Fix,
    draws: &mut Items<Draw>,
) -> Mem<()>
    requires setting { IsSetting setting.now }
    requires event { IsEvent event.now }
    requires instant { IsWithin max_instant t }
    requires shift { IsWithin max_down shift }
    requires shows { IsViewOf setting.now.script event.now t view.now }
    requires view { IsView view.now }
    ensures draws { OnOk result (AddsMovedDraws setting.now.script setting.now.fonts event.now t setting.now.frame shift draws.old draws.new) }
    ensures valid { OnOk result (IsValidPlan (glyph_counts setting.now.fonts) draws.old → IsValidPlan (glyph_counts setting.now.fonts) draws.new) }
{
    let laid = layout(alloc, setting, event, view)?;
    add_laid_event(alloc, setting, event, view, &laid, t, shift, draws)
}

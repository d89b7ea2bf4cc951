//! The draws of an event where it was placed.

ghost use Rattle.std.specs.Prelude.{◌≤◌, List, length, IfSome, OnOk};
ghost use Rattle.ass_num.specs.Limits.{IsWithin, max_instant, max_text_bytes};
ghost use Rattle.ass_events.specs.Ranges.{IsEvent};
ghost use Rattle.override_tags.specs.Views.{IsView};
ghost use Rattle.tag_state.specs.Views.{AreReadItems, IsViewOf};
ghost use Rattle.mask_keys.specs.Keys.{IsValidPlan};
ghost use Rattle.mask_keys.specs.Outlines.{glyph_counts};
ghost use Rattle.text_layout.specs.Settings.{IsSetting};
ghost use Rattle.event_places.specs.Limits.{max_shift};
ghost use Rattle.event_places.specs.PlacedEvents.{IsOwnLayout};
ghost use Rattle.event_draws.specs.MovedDraws.{AddsMovedDraws};

use crate::alike::are_laid_alike;
use ass_events::Event;
use ass_num::{Fix, Items, Mem};
use event_draws::{add_laid_event, add_viewed_event};
use event_places::{OwnLayout, PlacedEvent};
use mask_keys::Draw;
use override_tags::EventView;
use std::alloc::Global;
use tag_state::{Item, is_still, states_at, view_of};
use text_layout::Setting;

/// Adds the draws of an event that looks so at an instant, by its own layout if it is laid out alike.
#[tactic(auto, using(crate::proofs::ShiftLemmas::down_within))]
fn add_alike_event(
    alloc: Global,
    setting: &Setting<'_>,
    event: &Event,
    view: &EventView,
    own: &OwnLayout,
    t: i64,
    shift: Fix,
    draws: &mut Items<Draw>,
) -> Mem<()>
    requires setting { IsSetting setting.now }
    requires event { IsEvent event.now }
    requires instant { IsWithin max_instant t }
    requires shift { IsWithin max_shift shift }
    requires shows { IsViewOf setting.now.script event.now t view.now }
    requires view { IsView view.now }
    requires own { IsOwnLayout setting.now.script setting.now.fonts setting.now.frame event.now own.now }
    ensures draws { OnOk result (AddsMovedDraws setting.now.script setting.now.fonts event.now t setting.now.frame shift draws.old draws.new) }
    ensures valid { OnOk result (IsValidPlan (glyph_counts setting.now.fonts) draws.old → IsValidPlan (glyph_counts setting.now.fonts) draws.new) }
{
    if are_laid_alike(&own.view, view) {
        return add_laid_event(alloc, setting, event, view, &own.laid, t, shift, draws);
    }
    add_viewed_event(alloc, setting, event, view, t, shift, draws)
}

/// Adds the draws of an event at an instant, by its own layout. Where its text is still, it looks then as at its own start.
#[tactic(auto, using(crate::proofs::ShiftLemmas::down_within))]
fn add_own_event(
    alloc: Global,
    setting: &Setting<'_>,
    event: &Event,
    items: &[Item],
    own: &OwnLayout,
    t: i64,
    shift: Fix,
    draws: &mut Items<Draw>,
) -> Mem<()>
    requires setting { IsSetting setting.now }
    requires event { IsEvent event.now }
    requires few { length event.now.text ≤ max_text_bytes }
    requires items { AreReadItems event.now.text items.now }
    requires instant { IsWithin max_instant t }
    requires shift { IsWithin max_shift shift }
    requires own { IsOwnLayout setting.now.script setting.now.fonts setting.now.frame event.now own.now }
    ensures draws { OnOk result (AddsMovedDraws setting.now.script setting.now.fonts event.now t setting.now.frame shift draws.old draws.new) }
    ensures valid { OnOk result (IsValidPlan (glyph_counts setting.now.fonts) draws.old → IsValidPlan (glyph_counts setting.now.fonts) draws.new) }
{
    if is_still(items) {
        return add_laid_event(alloc, setting, event, &own.view, &own.laid, t, shift, draws);
    }
    let view = view_of(alloc, setting.script, event, items, t)?;
    add_alike_event(alloc, setting, event, &view, own, t, shift, draws)
}

/// Adds the draws of an event at an instant, whose text was read.
#[tactic(auto, using(crate::proofs::ShiftLemmas::down_within))]
fn add_read_event(
    alloc: Global,
    setting: &Setting<'_>,
    event: &Event,
    items: &[Item],
    placed: &PlacedEvent,
    t: i64,
    draws: &mut Items<Draw>,
) -> Mem<()>
    requires setting { IsSetting setting.now }
    requires event { IsEvent event.now }
    requires few { length event.now.text ≤ max_text_bytes }
    requires items { AreReadItems event.now.text items.now }
    requires instant { IsWithin max_instant t }
    requires shift { IsWithin max_shift placed.now.down }
    requires own { IfSome placed.now.own (IsOwnLayout setting.now.script setting.now.fonts setting.now.frame event.now) }
    ensures draws { OnOk result (AddsMovedDraws setting.now.script setting.now.fonts event.now t setting.now.frame placed.now.down draws.old draws.new) }
    ensures valid { OnOk result (IsValidPlan (glyph_counts setting.now.fonts) draws.old → IsValidPlan (glyph_counts setting.now.fonts) draws.new) }
{
    match &placed.own {
        Some(own) => add_own_event(alloc, setting, event, items, own, t, placed.down, draws),
        None => {
            let view = view_of(alloc, setting.script, event, items, t)?;
            add_viewed_event(alloc, setting, event, &view, t, placed.down, draws)
        }
    }
}

/// Adds the draws of an event at an instant in milliseconds, moved down to where it was placed. It is laid out as it looks then, by its
/// own layout where that is the same. Its text is read where it wasn't yet.
#[tactic(auto, using(crate::proofs::ShiftLemmas::down_within))]
pub(crate) fn add_placed_event(
    alloc: Global,
    setting: &Setting<'_>,
    event: &Event,
    placed: &PlacedEvent,
    t: i64,
    draws: &mut Items<Draw>,
) -> Mem<()>
    requires setting { IsSetting setting.now }
    requires event { IsEvent event.now }
    requires few { length event.now.text ≤ max_text_bytes }
    requires instant { IsWithin max_instant t }
    requires shift { IsWithin max_shift placed.now.down }
    requires own { IfSome placed.now.own (IsOwnLayout setting.now.script setting.now.fonts setting.now.frame event.now) }
    requires read { IfSome placed.now.read (AreReadItems event.now.text) }
    ensures draws { OnOk result (AddsMovedDraws setting.now.script setting.now.fonts event.now t setting.now.frame placed.now.down draws.old draws.new) }
    ensures valid { OnOk result (IsValidPlan (glyph_counts setting.now.fonts) draws.old → IsValidPlan (glyph_counts setting.now.fonts) draws.new) }
{
    match &placed.read {
        Some(items) => add_read_event(alloc, setting, event, items.as_slice(), placed, t, draws),
        None => {
            let view = states_at(alloc, setting.script, event, t)?;
            add_viewed_event(alloc, setting, event, &view, t, placed.down, draws)
        }
    }
}

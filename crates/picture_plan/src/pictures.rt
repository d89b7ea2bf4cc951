//! The draws of a picture.

ghost use Rattle.std.specs.Prelude.{◌≡◌, ◌≤◌, ◌<◌, List, length, map, slice_index_or, All, IfOk, IfSome, OnOk};
ghost use Rattle.std.specs.Arc.{arc_value};
ghost use Rattle.ass_num.specs.Limits.{IsWithin, max_instant, max_text_bytes};
ghost use Rattle.ass_events.specs.Histories.{HaveOwnOrders, max_live};
ghost use Rattle.ass_events.specs.Ranges.{IsEvent};
ghost use Rattle.ass_events.specs.declared.event.Event.{Event};
ghost use Rattle.event_places.specs.Limits.{max_shift};
ghost use Rattle.event_places.specs.PlacedEvents.{ArePlacedEvents, IsOwnLayout};
ghost use Rattle.mask_keys.specs.Keys.{IsValidPlan};
ghost use Rattle.mask_keys.specs.Outlines.{glyph_counts};
ghost use Rattle.text_layout.specs.Settings.{IsSetting};
ghost use Rattle.tag_state.specs.Views.{AreReadItems};
ghost use Rattle.event_draws.specs.MovedDraws.{AddsMovedDraws};
ghost use Rattle.near_events.specs.Spans.{AreNearSpans};
ghost use Rattle.picture_plan.specs.Pictures.{AreDraws};
ghost use Rattle.event_places.specs.declared.placed.PlacedEvent.{PlacedEvent};
ghost use Rattle.picture_plan.specs.ShownEvents.{event_shown, no_placed, placed_event};

use crate::event::add_placed_event;
use crate::shown::{ShownEvent, event_of, shown_events};
use ass_events::Event;
use ass_num::{Items, Mem};
use event_places::{PlacedEvent, placed_events};
use mask_keys::{Draw, Plan};
use near_events::{EventSpan, near_spans};
use std::alloc::Global;
use std::sync::Arc;
use text_layout::Setting;

/// Adds the draws of a shown event.
fn add_shown_event(
    alloc: Global,
    setting: &Setting<'_>,
    events: &[Arc<Event>],
    placed: &[PlacedEvent],
    shown: &ShownEvent,
    t: i64,
    draws: &mut Items<Draw>,
) -> Mem<()>
    requires setting { IsSetting setting.now }
    requires events { All IsEvent (map arc_value events.now) }
    requires texts { All (λ (e : Event). length e.text ≤ max_text_bytes) (map arc_value events.now) }
    requires places { All (λ (p : PlacedEvent). p.place < length events.now) placed.now }
    requires shifts { All (λ (p : PlacedEvent). IsWithin max_shift p.down) placed.now }
    requires own { All (λ (p : PlacedEvent). IfSome p.own
        (IsOwnLayout setting.now.script setting.now.fonts setting.now.frame (placed_event (map arc_value events.now) p))) placed.now }
    requires read { All (λ (p : PlacedEvent). IfSome p.read (AreReadItems (placed_event (map arc_value events.now) p).text)) placed.now }
    requires place { shown.now.place < length placed.now }
    requires instant { IsWithin max_instant t }
    ensures draws { OnOk result (AddsMovedDraws setting.now.script setting.now.fonts (event_shown (map arc_value events.now) placed.now shown.now) t
        setting.now.frame (slice_index_or placed.now shown.now.place no_placed).down draws.old draws.new) }
    ensures valid { OnOk result (IsValidPlan (glyph_counts setting.now.fonts) draws.old → IsValidPlan (glyph_counts setting.now.fonts) draws.new) }
{
    let one = &placed[shown.place];
    let event = event_of(events, one);
    add_placed_event(alloc, setting, event, one, t, draws)
}

/// The draws of those of the placed events that are shown at t, by layer, then ReadOrder.
fn placed_draws(
    alloc: Global,
    setting: &Setting<'_>,
    events: &[Arc<Event>],
    placed: &[PlacedEvent],
    t: i64,
) -> Mem<Items<Draw>>
    requires setting { IsSetting setting.now }
    requires events { All IsEvent (map arc_value events.now) }
    requires texts { All (λ (e : Event). length e.text ≤ max_text_bytes) (map arc_value events.now) }
    requires orders { HaveOwnOrders (map arc_value events.now) }
    requires placed { ArePlacedEvents setting.now.script setting.now.fonts setting.now.frame (map arc_value events.now) t placed.now }
    requires instant { IsWithin max_instant t }
    ensures draws { IfOk result (λ draws. AreDraws setting.now.script setting.now.fonts (map arc_value events.now) t setting.now.frame draws) }
    ensures valid { IfOk result (λ draws. IsValidPlan (glyph_counts setting.now.fonts) draws) }
{
    let shown = shown_events(alloc, events, placed, t)?;
    let mut draws = Items::new(alloc);
    for one in shown.as_slice() {
        add_shown_event(alloc, setting, events, placed, one, t, &mut draws)?;
    }
    Ok(draws)
}

/// The draws of the picture that a list of events shows at t, in milliseconds. The events have distinct ReadOrders, and may come in any
/// order (Advanced SubStation Alpha, "Layer"; Matroska, "ReadOrder").
pub fn plan(alloc: Global, setting: &Setting<'_>, events: &[Arc<Event>], t: i64) -> Mem<Plan>
    requires setting { IsSetting setting.now }
    requires events { All IsEvent (map arc_value events.now) }
    requires texts { All (λ (e : Event). length e.text ≤ max_text_bytes) (map arc_value events.now) }
    requires few { length events.now ≤ max_live }
    requires orders { HaveOwnOrders (map arc_value events.now) }
    requires instant { IsWithin max_instant t }
    ensures draws { IfOk result (λ plan. AreDraws setting.now.script setting.now.fonts (map arc_value events.now) t setting.now.frame plan.draws) }
    ensures valid { IfOk result (λ plan. IsValidPlan (glyph_counts setting.now.fonts) plan.draws) }
{
    let near = near_spans(alloc, events, t)?;
    plan_of_spans(alloc, setting, events, near.as_slice(), t)
}

/// The same, where the spans of the events that matter at t are known.
pub fn plan_of_spans(
    alloc: Global,
    setting: &Setting<'_>,
    events: &[Arc<Event>],
    near: &[EventSpan],
    t: i64,
) -> Mem<Plan>
    requires setting { IsSetting setting.now }
    requires events { All IsEvent (map arc_value events.now) }
    requires texts { All (λ (e : Event). length e.text ≤ max_text_bytes) (map arc_value events.now) }
    requires few { length events.now ≤ max_live }
    requires orders { HaveOwnOrders (map arc_value events.now) }
    requires near { AreNearSpans (map arc_value events.now) t near.now }
    requires instant { IsWithin max_instant t }
    ensures draws { IfOk result (λ plan. AreDraws setting.now.script setting.now.fonts (map arc_value events.now) t setting.now.frame plan.draws) }
    ensures valid { IfOk result (λ plan. IsValidPlan (glyph_counts setting.now.fonts) plan.draws) }
{
    let placed = placed_events(alloc, setting, events, near)?;
    Ok(Plan {
        draws: placed_draws(alloc, setting, events, placed.as_slice(), t)?,
    })
}

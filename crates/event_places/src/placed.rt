//! The events that matter at an instant, each moved clear of those before it.

ghost use Rattle.std.specs.Prelude.{◌≡◌, ◌≢◌, ◌+◌, ◌-◌, ◌≤◌, ◌<◌, ℕ, ℤ, All, Contains, IfOk, IsTrue, length, map, slice_get, Some};
ghost use Rattle.std.specs.Arc.{arc_value};
ghost use Rattle.ass_num.specs.Limits.{max_text_bytes};
ghost use Rattle.ass_events.specs.Histories.{HaveOwnOrders, Pairwise, max_live};
ghost use Rattle.ass_events.specs.Ranges.{IsEvent};
ghost use Rattle.ass_events.specs.declared.event.Event.{Event};
ghost use Rattle.text_layout.specs.Settings.{IsSetting};
ghost use Rattle.event_places.specs.PlacedEvents.{ArePlacedEvents};
ghost use Rattle.near_events.specs.Spans.{AreNearSpans, IsSpanOf, StandsBefore};
ghost use Rattle.event_places.specs.Steps.{AreKeptBoxes, AreBoxesWithin, IsAlone, IsGoneThrough, IsPlacing, IsPlacingStep, most_before, unmoved};
ghost use Rattle.near_events.specs.declared.spans.EventSpan.{EventSpan};

use crate::boxes::down_by;
use crate::kept::MovedBoxes;
use crate::own::{OwnLayout, own_layout, stand_of};
use crate::steps::place_clear;
use ass_events::Event;
use ass_num::{Fix, Items, Mem};
use near_events::EventSpan;
use std::alloc::Global;
use std::sync::Arc;
use tag_state::{Item, has_point, items_of, view_of};
use text_layout::Setting;

/// An event that matters at an instant: its place in the list of events, how far down it is moved, in 1/64 pixel, its own layout where
/// one was made, and the items of its text where it was read.
#[derive(Debug, Drop)]
pub struct PlacedEvent {
    pub place: usize,
    pub down: Fix,
    pub own: Option<OwnLayout>,
    pub read: Option<Items<Item>>,
}

/// An event that isn't moved.
fn unmoved(place: usize, read: Option<Items<Item>>) -> PlacedEvent
    ensures { result ≡ unmoved place read }
{
    PlacedEvent {
        place,
        down: 0,
        own: None,
        read,
    }
}

/// Whether the span at another place, if there is one, is in another layer.
fn are_apart(near: &[EventSpan], index: usize, other: usize) -> bool
    requires { index < length near.now }
    ensures { (span next : EventSpan) → slice_get near.now index ≡ Some span → slice_get near.now other ≡ Some next → IsTrue result → next.layer ≢ span.layer }
{
    if other >= near.len() {
        return true;
    }
    near[other].layer != near[index].layer
}

/// Whether the span before, if there is one, is in another layer.
fn is_first(near: &[EventSpan], index: usize) -> bool
    requires { index < length near.now }
    ensures { (span last : EventSpan) → slice_get near.now index ≡ Some span → 0 < index → slice_get near.now (index - 1) ≡ Some last → IsTrue result
        → last.layer ≢ span.layer }
{
    if index == 0 {
        return true;
    }
    are_apart(near, index, index - 1)
}

/// Whether a span has its layer for itself among spans in order.
fn is_alone(near: &[EventSpan], index: usize) -> bool
    requires index { index < length near.now }
    requires sorted { Pairwise StandsBefore near.now }
    ensures { (span : EventSpan) → slice_get near.now index ≡ Some span → IsTrue result → IsAlone near.now span }
{
    is_first(near, index) && are_apart(near, index, index + 1)
}

/// An event, moved clear of those that were moved before it. One with a point of its own isn't moved, so it needs no layout.
fn place_event(
    alloc: Global,
    setting: &Setting<'_>,
    event: &Event,
    span: &EventSpan,
    kept: &mut MovedBoxes,
) -> Mem<PlacedEvent>
    requires setting { IsSetting setting.now }
    requires event { IsEvent event.now }
    requires few { length event.now.text ≤ max_text_bytes }
    requires within { AreBoxesWithin most_before kept.old.boxes.items }
    requires kept { AreKeptBoxes kept.old }
    ensures placed { IfOk result (λ one. IsPlacing setting.now.script setting.now.fonts setting.now.frame event.now span.now kept.old.boxes.items one
        kept.new.boxes.items) }
    ensures within { IfOk result (λ one. (count : ℕ) → AreBoxesWithin count kept.old.boxes.items → AreBoxesWithin (count + 1) kept.new.boxes.items) }
    ensures kept { IfOk result (λ one. AreKeptBoxes kept.new) }
{
    let items = items_of(alloc, event)?;
    if has_point(items.as_slice()) {
        return Ok(unmoved(span.place, Some(items)));
    }
    let view = view_of(alloc, setting.script, event, items.as_slice(), event.start)?;
    let own = own_layout(alloc, setting, event, view)?;
    let stand = stand_of(setting, event, &own);
    let shift = place_clear(span, &stand, kept)?;
    Ok(PlacedEvent {
        place: span.place,
        down: down_by(&stand, shift),
        own: Some(own),
        read: Some(items),
    })
}

/// The event of a span, moved clear of those before it. One that is alone in its layer stays where it is.
fn place_next(
    alloc: Global,
    setting: &Setting<'_>,
    events: &[Arc<Event>],
    near: &[EventSpan],
    index: usize,
    kept: &mut MovedBoxes,
) -> Mem<PlacedEvent>
    requires setting { IsSetting setting.now }
    requires events { All IsEvent (map arc_value events.now) }
    requires texts { All (λ (e : Event). length e.text ≤ max_text_bytes) (map arc_value events.now) }
    requires few { length events.now ≤ max_live }
    requires near { (s : EventSpan) → Contains near.now s → IsSpanOf (map arc_value events.now) s }
    requires sorted { Pairwise StandsBefore near.now }
    requires index { index < length near.now }
    requires within { AreBoxesWithin most_before kept.old.boxes.items }
    requires kept { AreKeptBoxes kept.old }
    ensures step { (span : EventSpan) → slice_get near.now index ≡ Some span → IfOk result
        (λ one. IsPlacingStep setting.now.script setting.now.fonts setting.now.frame (map arc_value events.now) near.now span kept.old.boxes.items one
        kept.new.boxes.items) }
    ensures within { IfOk result (λ one. (count : ℕ) → AreBoxesWithin count kept.old.boxes.items → AreBoxesWithin (count + 1) kept.new.boxes.items) }
    ensures kept { IfOk result (λ one. AreKeptBoxes kept.new) }
{
    let span = near[index];
    if is_alone(near, index) {
        return Ok(unmoved(span.place, None));
    }
    let one = place_event(alloc, setting, &events[span.place], &span, kept)?;
    Ok(one)
}

/// The events of these spans, each moved clear of those before it.
fn place_all(
    alloc: Global,
    setting: &Setting<'_>,
    events: &[Arc<Event>],
    near: &[EventSpan],
) -> Mem<Vec<PlacedEvent>>
    requires setting { IsSetting setting.now }
    requires events { All IsEvent (map arc_value events.now) }
    requires texts { All (λ (e : Event). length e.text ≤ max_text_bytes) (map arc_value events.now) }
    requires few { length events.now ≤ max_live }
    requires near { (s : EventSpan) → Contains near.now s → IsSpanOf (map arc_value events.now) s }
    requires sorted { Pairwise StandsBefore near.now }
    requires few_near { length near.now ≤ max_live }
    ensures { IfOk result (λ placed. IsGoneThrough setting.now.script setting.now.fonts setting.now.frame (map arc_value events.now) near.now placed.items) }
{
    let mut placed = Vec::with_capacity(alloc, near.len())?;
    let mut kept = MovedBoxes::new(alloc);
    for index in 0..near.len() {
        let one = place_next(alloc, setting, events, near, index, &mut kept)?;
        placed.push(one)?;
    }
    Ok(placed)
}

/// The events of these spans, which are those of the events that matter at an instant: those shown, and with each those before it in
/// its layer that end after its start. Each is there once, by layer, then start, then ReadOrder, and moved clear of those before it in
/// its layer (Advanced SubStation Alpha, "Layer").
pub fn placed_events(
    alloc: Global,
    setting: &Setting<'_>,
    events: &[Arc<Event>],
    near: &[EventSpan],
) -> Mem<Vec<PlacedEvent>>
    requires setting { IsSetting setting.now }
    requires events { All IsEvent (map arc_value events.now) }
    requires texts { All (λ (e : Event). length e.text ≤ max_text_bytes) (map arc_value events.now) }
    requires few { length events.now ≤ max_live }
    requires orders { HaveOwnOrders (map arc_value events.now) }
    requires near { (t : ℤ) × AreNearSpans (map arc_value events.now) t near.now }
    ensures { (t : ℤ) → AreNearSpans (map arc_value events.now) t near.now
        → IfOk result (λ placed. ArePlacedEvents setting.now.script setting.now.fonts setting.now.frame (map arc_value events.now) t placed.items) }
{
    place_all(alloc, setting, events, near)
}

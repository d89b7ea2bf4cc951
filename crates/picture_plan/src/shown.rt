//! Those of the placed events that are shown at an instant, in the order in which they are drawn.

ghost use Rattle.std.specs.Prelude.{◌≡◌, ◌≤◌, ◌<◌, ◌++◌, length, map, All, IfOk, OnOk, IsPermutation};
ghost use Rattle.std.specs.Arc.{arc_value};
ghost use Rattle.ass_num.specs.Limits.{max_text_bytes};
ghost use Rattle.ass_events.specs.Ranges.{IsEvent};
ghost use Rattle.ass_events.specs.declared.event.Event.{Event};
ghost use Rattle.picture_plan.specs.ShownEvents as rule;

use ass_events::Event;
use ass_num::Mem;
use event_places::PlacedEvent;
use std::alloc::Global;
use std::sync::Arc;

/// A shown event: its layer, its ReadOrder, and its place among the placed events.
#[derive(Clone, Copy, Debug, PartialEq, Eq)]
pub(crate) struct ShownEvent {
    pub layer: i32,
    pub order: u32,
    pub place: usize,
}

/// The event of a place.
pub(crate) fn event_of<'a>(events: &'a [Arc<Event>], placed: &PlacedEvent) -> &'a Event
    requires events { All IsEvent (map arc_value events.now) }
    requires texts { All (λ (e : Event). length e.text ≤ max_text_bytes) (map arc_value events.now) }
    requires place { placed.now.place < length events.now }
    ensures value { result.now ≡ rule.placed_event (map arc_value events.now) placed.now }
    ensures range { IsEvent result.now }
    ensures text { length result.now.text ≤ max_text_bytes }
{
    &events[placed.place]
}

/// Whether an event is shown at t.
fn is_shown(event: &Event, t: i64) -> bool
    requires { IsEvent event.now }
    ensures { result ≡ rule.is_shown_at t event.now }
{
    event.start <= t && t < event.start + event.duration
}

/// Adds an event of a place, if it is shown at t.
fn push_shown(event: &Event, t: i64, place: usize, shown: &mut Vec<ShownEvent>) -> Mem<()>
    requires { IsEvent event.now }
    ensures { OnOk result (shown.new.items ≡ shown.old.items ++ rule.shown_if t event.now place) }
{
    if is_shown(event, t) {
        shown.push(ShownEvent {
            layer: event.layer,
            order: event.order,
            place,
        })?;
    }
    Ok(())
}

/// Those of the placed events that are shown at t, by their places.
fn found_events(
    alloc: Global,
    events: &[Arc<Event>],
    placed: &[PlacedEvent],
    t: i64,
) -> Mem<Vec<ShownEvent>>
    requires events { All IsEvent (map arc_value events.now) }
    requires texts { All (λ (e : Event). length e.text ≤ max_text_bytes) (map arc_value events.now) }
    requires places { rule.ArePlaces (map arc_value events.now) placed.now }
    ensures { IfOk result (λ shown. rule.AreShownPlaces (map arc_value events.now) placed.now t (length placed.now) shown.items) }
{
    let mut shown = Vec::new(alloc);
    for place in 0..placed.len() {
        push_shown(event_of(events, &placed[place]), t, place, &mut shown)?;
    }
    Ok(shown)
}

/// Brings shown events in the order in which they are drawn.
fn sort_by_layer(shown: &mut Vec<ShownEvent>)
    ensures permutation { IsPermutation shown.old.items shown.new.items }
    ensures sorted { rule.AreByLayer shown.new.items }
{
    shown.sort_unstable_by_key(|one| (one.layer, one.order));
}

/// Those of the placed events that are shown at t, by layer, then ReadOrder.
pub(crate) fn shown_events(
    alloc: Global,
    events: &[Arc<Event>],
    placed: &[PlacedEvent],
    t: i64,
) -> Mem<Vec<ShownEvent>>
    requires events { All IsEvent (map arc_value events.now) }
    requires texts { All (λ (e : Event). length e.text ≤ max_text_bytes) (map arc_value events.now) }
    requires places { rule.ArePlaces (map arc_value events.now) placed.now }
    ensures shown { IfOk result (λ shown. rule.AreShownPlaces (map arc_value events.now) placed.now t (length placed.now) shown.items) }
    ensures sorted { IfOk result (λ shown. rule.AreByLayer shown.items) }
{
    let mut shown = found_events(alloc, events, placed, t)?;
    sort_by_layer(&mut shown);
    Ok(shown)
}

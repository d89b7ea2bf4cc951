//! When an event is shown, and where it stands among others.

ghost use Rattle.std.specs.Prelude.{◌≡◌, ◌↔◌, All, IfOk, IsTrue, map};
ghost use Rattle.std.specs.Arc.{arc_value};
ghost use Rattle.std.specs.List.Sorted.{IsPermutation};
ghost use Rattle.ass_events.specs.Ranges.{IsEvent};
ghost use Rattle.near_events.specs.Spans.{AreInTime, AreSpansInOrder, StandsBefore, event_span, spans_from};

use ass_events::Event;
use ass_num::Mem;
use std::alloc::Global;
use std::sync::Arc;

/// When an event is shown, with its place among the events.
#[derive(Clone, Copy, Debug)]
pub struct EventSpan {
    pub layer: i32,
    /// The first instant at which it is shown, in milliseconds.
    pub start: i64,
    /// The first instant after it.
    pub end: i64,
    /// Its ReadOrder.
    pub order: u32,
    pub place: usize,
}

impl EventSpan {
    /// The span of an event at this place.
    pub fn of(event: &Event, place: usize) -> EventSpan
        requires { IsEvent event.now }
        ensures { result ≡ event_span event.now place }
    {
        EventSpan {
            layer: event.layer,
            start: event.start,
            end: event.start + event.duration,
            order: event.order,
            place,
        }
    }

    /// Whether it stands before another one: by layer, then start, then ReadOrder.
    pub fn is_before(&self, other: &EventSpan) -> bool
        ensures { IsTrue result ↔ StandsBefore self.now other.now }
    {
        if self.layer != other.layer {
            return self.layer < other.layer;
        }
        self.start < other.start || (self.start == other.start && self.order < other.order)
    }
}

/// The spans of all events.
pub(crate) fn all_spans(alloc: Global, events: &[Arc<Event>]) -> Mem<Vec<EventSpan>>
    requires { All IsEvent (map arc_value events.now) }
    ensures { IfOk result (λ spans. spans.items ≡ spans_from 0 (map arc_value events.now)) }
{
    let mut spans = Vec::with_capacity(alloc, events.len())?;
    for event in events {
        spans.push(EventSpan::of(event, spans.len()))?;
    }
    Ok(spans)
}

/// Brings spans in order of layer, then start, then ReadOrder.
pub fn sort_by_layer(spans: &mut Vec<EventSpan>)
    ensures permutation { IsPermutation spans.old.items spans.new.items }
    ensures sorted { AreSpansInOrder spans.new.items }
{
    spans.sort_unstable_by_key(|span| (span.layer, (span.start, span.order)));
}

/// Brings spans in order of start, then ReadOrder.
pub fn sort_in_time(spans: &mut Vec<EventSpan>)
    ensures permutation { IsPermutation spans.old.items spans.new.items }
    ensures sorted { AreInTime spans.new.items }
{
    spans.sort_unstable_by_key(|span| (span.start, span.order));
}

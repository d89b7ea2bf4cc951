//! The spans of the events that matter at an instant.

ghost use Rattle.std.specs.Prelude.{◌≡◌, ◌≤ℤ◌, pos, true, All, IfOk, filter, map, reverse};
ghost use Rattle.std.specs.Arc.{arc_value};
ghost use Rattle.ass_events.specs.Histories.{HaveOwnOrders};
ghost use Rattle.ass_events.specs.Ranges.{IsEvent};
ghost use Rattle.near_events.specs.Bounds.{IsBound, is_behind};
ghost use Rattle.near_events.specs.Spans.{AreNearSpans};
ghost use Rattle.near_events.specs.Walks.{all_walked};

use crate::spans::{EventSpan, all_spans, sort_by_layer};
use crate::walks::Walk;
use ass_events::Event;
use ass_num::{Items, Mem};
use std::alloc::Global;
use std::sync::Arc;

/// The events that matter at an instant.
#[derive(Drop)]
pub struct NearEvents {
    /// By start, then ReadOrder.
    pub events: Items<Arc<Event>>,
    /// Their spans, by layer, then start, then ReadOrder.
    pub spans: Items<EventSpan>,
}

/// How often a bound is lowered before all spans are taken.
const MAX_PASSES: usize = 8;

/// Whether a span begins by t and ends after a bound.
fn is_behind(span: &EventSpan, t: i64, bound: i64) -> bool
    ensures { result ≡ is_behind t bound span.now }
{
    span.start <= t && bound < span.end
}

/// The start of a span that begins by t and ends after a bound, if it is earlier than the bound.
fn lowered_by(span: &EventSpan, t: i64, low: i64) -> i64
    ensures low { result ≤ℤ low }
    ensures start { is_behind t low span.now ≡ true → result ≤ℤ span.now.start }
{
    if !is_behind(span, t, low) {
        return low;
    }
    if span.start < low { span.start } else { low }
}

/// The earliest start of the spans that begin by t and end after an instant, if it is earlier than that.
fn lowered(spans: &[EventSpan], t: i64, from: i64) -> i64
    ensures low { result ≤ℤ from }
    ensures all { All (λ s. is_behind t from s ≡ true → result ≤ℤ s.start) spans.now }
{
    let mut low = from;
    for span in spans {
        low = lowered_by(span, t, low);
    }
    low
}

/// An instant that nothing begins before, and that isn't after t.
fn lowest(t: i64) -> i64
    ensures by { result ≤ℤ t }
    ensures low { result ≤ℤ pos 0 }
{
    if t < 0 { t } else { 0 }
}

/// A bound that whatever matters at t ends after, and doesn't begin before.
fn bound_of(spans: &[EventSpan], t: i64) -> i64
    requires { All (λ s. pos 0 ≤ℤ s.start) spans.now }
    ensures { IsBound t result spans.now }
{
    let mut low = t;
    for _pass in 0..MAX_PASSES {
        let next = lowered(spans, t, low);
        if next == low {
            return low;
        }
        low = next;
    }
    lowest(t)
}

/// The spans that begin by t and end after a bound.
fn spans_behind(alloc: Global, spans: &[EventSpan], t: i64, bound: i64) -> Mem<Vec<EventSpan>>
    ensures { IfOk result (λ few. few.items ≡ filter (is_behind t bound) spans.now) }
{
    let mut few = Vec::new(alloc);
    for span in spans {
        if is_behind(span, t, bound) {
            few.push(*span)?;
        }
    }
    Ok(few)
}

/// What a walk over spans finds, in their order.
fn found_in(alloc: Global, t: i64, spans: &[EventSpan]) -> Mem<Vec<EventSpan>>
    ensures { IfOk result (λ found. found.items ≡ reverse (all_walked t spans.now).found) }
{
    let mut walk = Walk::new(alloc, t);
    walk.go_over(t, spans)?;
    let Walk {
        mut found,
        layer: _,
        least: _,
    } = walk;
    found.as_mut_slice().reverse();
    Ok(found)
}

/// The spans of the events that matter at t, by layer, then start, then ReadOrder: those shown, and with each event those before it in
/// its layer that end after its start.
pub fn near_spans(alloc: Global, events: &[Arc<Event>], t: i64) -> Mem<Vec<EventSpan>>
    requires events { All IsEvent (map arc_value events.now) }
    requires orders { HaveOwnOrders (map arc_value events.now) }
    ensures { IfOk result (λ near. AreNearSpans (map arc_value events.now) t near.items) }
{
    let spans = all_spans(alloc, events)?;
    let bound = bound_of(spans.as_slice(), t);
    let mut few = spans_behind(alloc, spans.as_slice(), t, bound)?;
    sort_by_layer(&mut few);
    let found = found_in(alloc, t, few.as_slice())?;
    Ok(found)
}

//! Events at other instants.

ghost use Rattle.std.specs.Prelude.{◌≡◌, true, [], ◌∷◌, ◌++◌, ◌-ℤ◌, map, All, IfOk, OnOk};
ghost use Rattle.std.specs.Arc.{arc_value};
ghost use Rattle.ass_events.specs.Events.{is_time};
ghost use Rattle.ass_events.specs.Ranges.{IsEvent};
ghost use Rattle.ass_num.specs.Limits.{IsWithin, max_instant};
ghost use Rattle.track_write.specs.Shifts.{later_event, moved_start, shifted_event, moved_events, shifted};
ghost use Rattle.track_write.specs.Texts.{IsWriteAnswer};

use crate::refusal::WriteRefusal;
use ass_events::Event;
use ass_num::{Mem, Text};
use ass_script::EventField;
use std::alloc::Global;
use std::sync::Arc;

/// The greatest instant, in milliseconds.
const MAX_INSTANT: i64 = 4_000_000_000_000;

fn is_time(milliseconds: i64) -> bool
    ensures { result ≡ is_time milliseconds }
{
    0 <= milliseconds && milliseconds <= MAX_INSTANT
}

/// A copy of a text.
fn text_copy(alloc: Global, text: &Text) -> Mem<Text>
    ensures { IfOk result (λ copy. copy ≡ text.now) }
{
    Text::copy(alloc, text.as_str())
}

/// The event that begins at an instant in place of its own start.
fn started(alloc: Global, event: &Event, start: i64) -> Mem<Event>
    ensures { IfOk result (λ other. other ≡ record event.now { start = start }) }
{
    Ok(Event {
        order: event.order,
        layer: event.layer,
        style: text_copy(alloc, &event.style)?,
        name: text_copy(alloc, &event.name)?,
        margin_l: event.margin_l,
        margin_r: event.margin_r,
        margin_v: event.margin_v,
        effect: text_copy(alloc, &event.effect)?,
        text: text_copy(alloc, &event.text)?,
        start,
        duration: event.duration,
    })
}

/// When an event begins that is so much later, if that is an instant.
fn moved_start(event: &Event, by: i64) -> Option<i64>
    requires event { IsEvent event.now }
    requires within { IsWithin max_instant by }
    ensures { result ≡ moved_start by event.now }
{
    let start = event.start + by;
    if is_time(start) { Some(start) } else { None }
}

/// Puts the event that begins at an instant behind others.
fn put_started(alloc: Global, all: &mut Vec<Arc<Event>>, event: &Event, start: i64) -> Mem<()>
    ensures { OnOk result (map arc_value all.new.items ≡ map arc_value all.old.items ++ record event.now { start = start } ∷ []) }
{
    let later = Arc::new(alloc, started(alloc, event, start)?)?;
    all.push(later)?;
    Ok(())
}

/// Puts the event that begins so much later behind others.
fn put_moved(
    alloc: Global,
    all: &mut Vec<Arc<Event>>,
    event: &Event,
    by: i64,
) -> Result<(), WriteRefusal>
    requires event { IsEvent event.now }
    requires within { IsWithin max_instant by }
    ensures answer { IsWriteAnswer (λ done. later_event by event.now) result (shifted_event by event.now) }
    ensures put { OnOk result (map arc_value all.new.items ≡ map arc_value all.old.items ++ later_event by event.now ∷ []) }
{
    match moved_start(event, by) {
        Some(start) => Ok(put_started(alloc, all, event, start)?),
        None => Err(WriteRefusal::Unwritable(event.order, EventField::Start)),
    }
}

/// The events that begin so many milliseconds later.
fn moved_events(
    alloc: Global,
    events: &[Arc<Event>],
    by: i64,
) -> Result<Vec<Arc<Event>>, WriteRefusal>
    requires events { All IsEvent (map arc_value events.now) }
    requires within { IsWithin max_instant by }
    ensures answer { IsWriteAnswer (λ made. map arc_value made.items) result (moved_events by (map arc_value events.now)) }
    ensures events { IfOk result (λ made. All IsEvent (map arc_value made.items)) }
{
    let mut all = Vec::new(alloc);
    for event in events {
        match put_moved(alloc, &mut all, event, by) {
            Ok(()) => {}
            Err(refusal) => return Err(refusal),
        }
    }
    Ok(all)
}

/// The time from one instant to another.
fn difference(later: i64, earlier: i64) -> i64
    requires later { is_time later ≡ true }
    requires earlier { is_time earlier ≡ true }
    ensures value { result ≡ later -ℤ earlier }
    ensures within { IsWithin max_instant result }
{
    later - earlier
}

/// The events, each `later` milliseconds later and `earlier` milliseconds earlier. `Unwritable` names the first one that
/// would not begin at an instant from 0 to 4,000,000,000,000, by its ReadOrder and Start.
pub fn shifted(
    alloc: Global,
    events: &[Arc<Event>],
    later: i64,
    earlier: i64,
) -> Result<Vec<Arc<Event>>, WriteRefusal>
    requires events { All IsEvent (map arc_value events.now) }
    requires later { is_time later ≡ true }
    requires earlier { is_time earlier ≡ true }
    ensures answer { IsWriteAnswer (λ made. map arc_value made.items) result (shifted later earlier (map arc_value events.now)) }
    ensures events { IfOk result (λ made. All IsEvent (map arc_value made.items)) }
{
    moved_events(alloc, events, difference(later, earlier))
}

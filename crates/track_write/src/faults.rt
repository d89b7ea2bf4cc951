//! What of an event no line can say.

ghost use Rattle.std.specs.Prelude.{◌≡◌, map, All};
ghost use Rattle.std.specs.Arc.{arc_value};
ghost use Rattle.ass_events.specs.Ranges.{IsEvent};
ghost use Rattle.track_write.specs.Texts.{is_hundredths, is_written_end, has_line_feed, ends_in_return, is_broken, text_fault, event_fault, first_fault};

use ass_events::Event;
use ass_script::EventField;
use std::sync::Arc;

/// The last end that a line says, in milliseconds.
const MAX_WRITTEN_END: i64 = 3_599_999_999_990;

/// Whether a time in milliseconds has whole hundredths of a second.
fn is_hundredths(time: i64) -> bool
    ensures { result ≡ is_hundredths time }
{
    time.rem_euclid(10) == 0
}

fn has_line_feed(text: &str) -> bool
    ensures { result ≡ has_line_feed text.now }
{
    text.as_bytes().iter().any(|byte| *byte == b'\n')
}

fn ends_in_return(text: &str) -> bool
    ensures { result ≡ ends_in_return text.now }
{
    let bytes = text.as_bytes();
    !bytes.is_empty() && bytes[bytes.len() - 1] == b'\r'
}

/// Whether an end is one that a line says.
fn is_written_end(end: i64) -> bool
    ensures { result ≡ is_written_end end }
{
    is_hundredths(end) && end <= MAX_WRITTEN_END
}

/// Whether a text can't be the last field of a line.
fn is_broken(text: &str) -> bool
    ensures { result ≡ is_broken text.now }
{
    has_line_feed(text) || ends_in_return(text)
}

/// The first text that no line can say.
#[tactic(auto, unfolding(crate::specs::Texts::text_fault))]
fn text_fault(event: &Event) -> Option<EventField>
    ensures { result ≡ text_fault event.now }
{
    if has_line_feed(event.style.as_str()) {
        return Some(EventField::Style);
    }
    if has_line_feed(event.name.as_str()) {
        return Some(EventField::Name);
    }
    if has_line_feed(event.effect.as_str()) {
        return Some(EventField::Effect);
    }
    if is_broken(event.text.as_str()) {
        return Some(EventField::Text);
    }
    None
}

/// The first field that no line can say.
#[tactic(auto, unfolding(crate::specs::Texts::event_fault))]
fn event_fault(event: &Event) -> Option<EventField>
    requires { IsEvent event.now }
    ensures { result ≡ event_fault event.now }
{
    if !is_hundredths(event.start) {
        return Some(EventField::Start);
    }
    if !is_written_end(event.start + event.duration) {
        return Some(EventField::End);
    }
    text_fault(event)
}

/// The ReadOrder of the first event that no line can say, and its first such field.
pub fn first_fault(events: &[Arc<Event>]) -> Option<(u32, EventField)>
    requires { All IsEvent (map arc_value events.now) }
    ensures { result ≡ first_fault (map arc_value events.now) }
{
    for event in events {
        if let Some(field) = event_fault(event) {
            return Some((event.order, field));
        }
    }
    None
}

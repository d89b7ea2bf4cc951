//! Events as the lines of a script, and what of an event no line can say.

ghost use Rattle.std.specs.Prelude.{IfOk, OnOk, All, map};
ghost use Rattle.std.specs.Arc.{arc_value};
ghost use Rattle.ass_events.specs.Ranges.{IsEvent};

use crate::telling::{lines, number, parted, shown};
use ass_events::{Event, read_chunk};
use ass_num::Mem;
use ass_script::{Script, read_script};
use bstr::BStr;
use std::alloc::Global;
use std::sync::Arc;
use std::test::Fail;
use track_write::script_text;

/// The event of a chunk.
fn event_of(alloc: Global, chunk: &str, start: i64, duration: i64) -> Result<Arc<Event>, Fail>
    ensures { IfOk result (λ event. IsEvent event.value) }
{
    let Ok(event) = read_chunk(alloc, chunk.as_bytes(), start, duration) else {
        return Err("no event".into());
    };
    match Arc::new(alloc, event) {
        Ok(event) => Ok(event),
        Err(_) => Err("no memory".into()),
    }
}

/// The event of a start, a duration and a chunk, in which a bar stands for a line feed.
fn event_said(alloc: Global, text: &str) -> Result<Arc<Event>, Fail>
    ensures { IfOk result (λ event. IsEvent event.value) }
{
    let (start, rest) = parted(text, " ");
    let (duration, chunk) = parted(rest, " ");
    let chunk = lines(alloc, chunk)?;
    event_of(alloc, chunk.as_str(), number(start), number(duration))
}

fn add_event(events: &mut Vec<Arc<Event>>, event: Arc<Event>) -> Mem<()>
    requires events { All IsEvent (map arc_value events.old.items) }
    requires event { IsEvent event.value }
    ensures { OnOk result (All IsEvent (map arc_value events.new.items)) }
{
    events.push(event)?;
    Ok(())
}

/// The events between slashes.
fn events_of(alloc: Global, text: &str) -> Result<Vec<Arc<Event>>, Fail>
    ensures { IfOk result (λ events. All IsEvent (map arc_value events.items)) }
{
    let mut events = Vec::new(alloc);
    for part in text.split('/') {
        let event = event_said(alloc, part)?;
        add_event(&mut events, event)?;
    }
    Ok(events)
}

/// The text of a script that has these events, or why it isn't written.
fn text_told(alloc: Global, script: &Script, events: &[Arc<Event>]) -> Mem<String>
    requires { All IsEvent (map arc_value events.now) }
{
    match script_text(alloc, script, events) {
        Ok(text) => shown(alloc, &BStr::new(text.as_slice())),
        Err(refusal) => shown(alloc, &refusal),
    }
}

/// The text of a script without styles that has the events between slashes, or why it isn't written.
pub fn told(alloc: Global, question: &str) -> Result<String, Fail> {
    let script = read_script(alloc, "[Events]".as_bytes())?;
    let events = events_of(alloc, question)?;
    Ok(text_told(alloc, &script, events.as_slice())?)
}

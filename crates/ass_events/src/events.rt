//! Events line by line.

ghost use Rattle.std.specs.Prelude.{◌≡◌, ◌≤◌, ◌<◌, ◌+◌, All, IfOk, OnOk, length, map};
ghost use Rattle.std.specs.Arc.{arc_value};
ghost use Rattle.ass_num.specs.Limits.{max_text_bytes};
ghost use Rattle.ass_script.specs.Ranges.{IsScript};
ghost use Rattle.ass_events.specs.Histories.{HaveOwnOrders, max_live};
ghost use Rattle.ass_events.specs.Ranges.{IsEvent};
ghost use Rattle.ass_events.specs.declared.event.Event.{Event};
ghost use Rattle.ass_events.specs.LineLaws.{HasShortLines};
ghost use Rattle.ass_events.specs.ScriptEvents.{line_events, first_events};

use crate::{ChunkRefusal, Event, event_of_line, laws};
use ass_num::{Mem, OutOfMemory};
use ass_script::Script;
use std::alloc::Global;
use std::sync::Arc;

/// Adds the event of the line at `i`, if it gives one.
fn add_line(alloc: Global, script: &Script, i: usize, events: &mut Vec<Arc<Event>>) -> Mem<()>
    requires script { IsScript script.now }
    requires within { i < length script.now.lines }
    requires before { map arc_value events.old.items ≡ first_events script.now i }
    ensures { OnOk result (map arc_value events.new.items ≡ first_events script.now (i + 1)) }
{
    match event_of_line(alloc, script, i) {
        Ok(event) => Ok(events.push(Arc::new(alloc, event)?)?),
        Err(ChunkRefusal::Malformed(_, _)) => Ok(()),
        Err(ChunkRefusal::OutOfMemory) => Err(OutOfMemory),
    }
}

/// The events of a script: those of its Dialogue lines that give one, in the order of the lines. Each has the place of its
/// line as its ReadOrder (Matroska, "ReadOrder").
pub fn events_of(alloc: Global, script: &Script) -> Mem<Vec<Arc<Event>>>
    requires script { IsScript script.now }
    requires short { HasShortLines script.now }
    ensures events { IfOk result (λ events. map arc_value events.items ≡ line_events script.now) }
    ensures each { IfOk result (λ events. All IsEvent (map arc_value events.items)) }
    ensures texts { IfOk result (λ events. All (λ (e : Event). length e.text ≤ max_text_bytes) (map arc_value events.items)) }
    ensures few { IfOk result (λ events. length events.items ≤ max_live) }
    ensures orders { IfOk result (λ events. HaveOwnOrders (map arc_value events.items)) }
{
    laws::lines_give_events();
    laws::texts_fit();
    let mut events = Vec::new(alloc);
    for i in 0..script.line_count() {
        add_line(alloc, script, i, &mut events)?;
    }
    Ok(events)
}

//! Texts of an event of a second, in a style of size 1 with white letters.

ghost use Rattle.std.specs.Prelude.{◌≤◌, length};
ghost use Rattle.ass_num.specs.Limits.{max_text_bytes};
ghost use Rattle.ass_script.specs.Ranges.{IsScript};
ghost use Rattle.ass_events.specs.Ranges.{IsEvent};

use crate::telling::{parted, shown};
use ass_events::{Event, event_of_line};
use ass_num::Mem;
use ass_script::{Script, read_script};
use std::alloc::Global;
use tag_state::{EventView, State, states_at};

/// A state's size, its bit of bold, its red, green and alpha, and the begin of its syllable.
fn numbers_of(state: &State) -> (i64, bool, [u8; 3], Option<i64>) {
    let [primary, _, _, _] = state.colours;
    let begin = match state.sung {
        Some(syllable) => Some(syllable.begin),
        None => None,
    };
    let colour = [primary.r, primary.g, primary.a];
    (state.size, state.bold, colour, begin)
}

/// How many items and states there are, and the last state's numbers.
fn last_state(alloc: Global, view: &EventView) -> Mem<String> {
    let (items, states) = (view.items.as_slice(), view.states.as_slice());
    match states.last() {
        Some(last) => shown(alloc, &(items.len(), states.len(), numbers_of(last))),
        None => shown(alloc, &"no state"),
    }
}

/// The alignment, the wrap style, the position, the fade and the clip; or of the table `states` the last state.
fn view_told(alloc: Global, table: &str, view: &EventView) -> Mem<String> {
    if table == "states" {
        return last_state(alloc, view);
    }
    shown(
        alloc,
        &(view.align, view.wrap, view.pos, view.fade, &view.clip),
    )
}

fn event_told(
    alloc: Global,
    table: &str,
    script: &Script,
    event: &Event,
    elapsed: u16,
) -> Mem<String>
    requires script { IsScript script.now }
    requires event { IsEvent event.now }
{
    if event.text.as_str().len() > 134_217_728 {
        return shown(alloc, &"long");
    }
    let view = states_at(alloc, script, event, i64::from(elapsed))?;
    view_told(alloc, table, &view)
}

fn script_told(alloc: Global, table: &str, script: &Script, elapsed: u16) -> Mem<String>
    requires { IsScript script.now }
{
    if script.line_count() == 0 {
        return shown(alloc, &"no line");
    }
    match event_of_line(alloc, script, 0) {
        Ok(event) => event_told(alloc, table, script, &event, elapsed),
        Err(refusal) => shown(alloc, &refusal),
    }
}

/// What a text is so many milliseconds behind the event's start: the milliseconds, and the text.
pub fn told(alloc: Global, table: &str, question: &str) -> Mem<String> {
    let (elapsed, text) = parted(question, " ");
    let elapsed = elapsed.parse::<u16>().unwrap_or(0);
    let script = format!(in alloc;
        "[V4+ Styles]\nStyle: Default,small,1\n[Events]\nDialogue: 0,0:00:00.00,0:00:01.00,Default,,0,0,0,,{text}"
    )?;
    match read_script(alloc, script.as_bytes()) {
        Ok(script) => script_told(alloc, table, &script, elapsed),
        Err(refusal) => shown(alloc, &refusal),
    }
}

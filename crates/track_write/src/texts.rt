//! The text of a script.

ghost use Rattle.std.specs.Prelude.{◌≡◌, map, All, IfOk};
ghost use Rattle.std.specs.Arc.{arc_value};
ghost use Rattle.ass_events.specs.Ranges.{IsEvent};
ghost use Rattle.track_write.specs.Rows.{script_bytes};
ghost use Rattle.track_write.specs.Texts.{IsWriteAnswer, written};

use crate::faults::first_fault;
use crate::header::{put_events_head, put_header, put_styles_head};
use crate::refusal::WriteRefusal;
use crate::rows::{put_events, put_styles};
use ass_events::Event;
use ass_num::Mem;
use ass_script::Script;
use std::alloc::Global;
use std::sync::Arc;

/// The text of a script's header and styles and of these events, one `Dialogue` line for each, in the usual Formats.
/// `Unwritable` names the first event that no line can say, by its ReadOrder, with the first such field in the order
/// Start, End, Style, Name, Effect, Text: a start or an end that isn't whole hundredths of a second, an end above
/// 3,599,999,999,990, a line feed in a text, or a carriage return at the end of the last one.
pub fn script_text(
    alloc: Global,
    script: &Script,
    events: &[Arc<Event>],
) -> Result<Vec<u8>, WriteRefusal>
    requires { All IsEvent (map arc_value events.now) }
    ensures { IsWriteAnswer (λ text. text.items) result (written script.now (map arc_value events.now)) }
{
    if let Some((order, field)) = first_fault(events) {
        return Err(WriteRefusal::Unwritable(order, field));
    }
    Ok(all_lines(alloc, script, events)?)
}

/// All lines, each ended by a line feed.
fn all_lines(alloc: Global, script: &Script, events: &[Arc<Event>]) -> Mem<Vec<u8>>
    requires { All IsEvent (map arc_value events.now) }
    ensures { IfOk result (λ text. text.items ≡ script_bytes script.now (map arc_value events.now)) }
{
    let mut text = Vec::new(alloc);
    put_header(alloc, &mut text, script.header())?;
    put_styles_head(&mut text)?;
    put_styles(alloc, &mut text, script.styles())?;
    put_events_head(&mut text)?;
    put_events(alloc, &mut text, events)?;
    Ok(text)
}

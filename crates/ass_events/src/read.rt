//! Events from chunks.

ghost use Rattle.std.specs.Prelude.{◌≡◌, IfOk, IsUtf8};
ghost use Rattle.ass_events.specs.Plain.{plain};
ghost use Rattle.ass_events.specs.Fields.{HaveUtf8};
ghost use Rattle.ass_events.specs.Events.{IsChunkAnswer, is_time, event_of, event_at};

use crate::event::{ChunkRefusal, Event};
use crate::fields::{Fields, read_fields};
use ass_num::{Mem, Text};
use ass_script::EventField;
use std::alloc::Global;

/// The fields of a chunk, in order.
const CHUNK_FIELDS: [EventField; 9] = [
    EventField::ReadOrder,
    EventField::Layer,
    EventField::Style,
    EventField::Name,
    EventField::MarginL,
    EventField::MarginR,
    EventField::MarginV,
    EventField::Effect,
    EventField::Text,
];

/// The greatest instant and the greatest duration, in milliseconds.
const MAX_INSTANT: i64 = 4_000_000_000_000;

fn is_time(milliseconds: i64) -> bool
    ensures { result ≡ is_time milliseconds }
{
    0 <= milliseconds && milliseconds <= MAX_INSTANT
}

/// The event that a chunk gives (`ass_process_chunk` in libass `ass.h`).
pub fn read_chunk(
    alloc: Global,
    bytes: &[u8],
    start: i64,
    duration: i64,
) -> Result<Event, ChunkRefusal>
    ensures { IsChunkAnswer result (event_of bytes.now start duration) }
{
    if let Err(fault) = simdutf8::compat::from_utf8(bytes) {
        return Err(ChunkRefusal::Malformed(EventField::Utf8, fault.valid_up_to()));
    }
    let fields = match read_fields(&CHUNK_FIELDS, bytes) {
        Ok(fields) => fields,
        Err(refusal) => return Err(refusal),
    };
    if !is_time(start) {
        return Err(ChunkRefusal::Malformed(EventField::Start, bytes.len()));
    }
    if !is_time(duration) {
        return Err(ChunkRefusal::Malformed(EventField::Duration, bytes.len()));
    }
    Ok(event(alloc, fields.order, &fields, start, duration)?)
}

/// The event of these fields with this ReadOrder, whose texts are copied.
pub fn event(alloc: Global, order: u32, fields: &Fields, start: i64, duration: i64) -> Mem<Event>
    requires { HaveUtf8 (plain fields.now) }
    ensures { IfOk result (λ event. event ≡ event_at start duration (record (plain fields.now) { order = order })) }
{
    Ok(Event {
        order,
        layer: fields.layer,
        style: text(alloc, fields.style)?,
        name: text(alloc, fields.name)?,
        margin_l: fields.margin_l,
        margin_r: fields.margin_r,
        margin_v: fields.margin_v,
        effect: text(alloc, fields.effect)?,
        text: text(alloc, fields.text)?,
        start,
        duration,
    })
}

/// A copy of a part of a text that was found to be UTF-8.
fn text(alloc: Global, part: &[u8]) -> Mem<Text>
    requires { IsUtf8 part.now }
    ensures { IfOk result (λ text. text ≡ part.now) }
{
    Text::copy(alloc, unsafe { str::from_utf8_unchecked(part) })
}

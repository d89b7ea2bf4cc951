//! The events of Dialogue lines, their chunks, and what can't be read of them.

ghost use Rattle.std.specs.Prelude.{◌≡◌, ◌<◌, ◌≤◌, ◌≤ℤ◌, pos, length, true, Err, IfOk, IsUtf8};
ghost use Rattle.ass_num.specs.Limits.{max_whole};
ghost use Rattle.ass_script.specs.Fields.{ends_in_text};
ghost use Rattle.ass_script.specs.Ranges.{IsScript};
ghost use Rattle.ass_events.specs.Events.{IsChunkAnswer, chunk_of, chunked, event_of_line, fault_of, line_event, line_fault, duration_between};
ghost use Rattle.ass_events.specs.Ranges.{IsEvent};

use crate::event::{Chunk, ChunkRefusal, Event};
use crate::fields::read_fields;
use crate::read::event;
use crate::write::write_fields;
use ass_num::Items;
use ass_script::{EventField, Script};
use std::alloc::Global;

/// The chunk of the Dialogue line at `i`, whose fields are those of the script's Format and whose ReadOrder is `i`.
/// It is shown from Start to End, or for no time where End comes first.
pub fn chunk_of_line(alloc: Global, script: &Script, i: usize) -> Result<Chunk, ChunkRefusal>
    requires within { i < length script.now.lines }
    requires order { i ≤ max_whole }
    ensures { IsChunkAnswer result (chunk_of script.now i) }
{
    line_chunk(alloc, script.format(), script.line(i), i as u32)
}

/// The event of the Dialogue line at `i`, whose fields are those of the script's Format and whose ReadOrder is `i`: the
/// one that its chunk gives.
pub fn event_of_line(alloc: Global, script: &Script, i: usize) -> Result<Event, ChunkRefusal>
    requires script { IsScript script.now }
    requires within { i < length script.now.lines }
    ensures answer { IsChunkAnswer result (event_of_line script.now i) }
    ensures event { IfOk result IsEvent }
{
    line_event(alloc, script.format(), script.line(i), i as u32)
}

/// The first field of the Dialogue line at `i` that can't be read or is missing, and the byte at which it begins. It
/// takes no memory.
pub fn line_fault(script: &Script, i: usize) -> Option<(EventField, usize)>
    requires { i < length script.now.lines }
    ensures { result ≡ line_fault script.now i }
{
    match read_fields(script.format(), script.line(i)) {
        Ok(_) => None,
        Err(refusal) => fault_of(refusal),
    }
}

/// The field that refuses, and its place.
fn fault_of(refusal: ChunkRefusal) -> Option<(EventField, usize)>
    ensures { result ≡ fault_of (Err refusal) }
{
    match refusal {
        ChunkRefusal::Malformed(field, place) => Some((field, place)),
        ChunkRefusal::OutOfMemory => None,
    }
}

/// The event of a line under a format.
fn line_event(
    alloc: Global,
    format: &[EventField],
    line: &[u8],
    order: u32,
) -> Result<Event, ChunkRefusal>
    requires text { ends_in_text format.now ≡ true }
    requires utf8 { IsUtf8 line.now }
    ensures { IsChunkAnswer result (line_event format.now order line.now) }
{
    let fields = match read_fields(format, line) {
        Ok(fields) => fields,
        Err(refusal) => return Err(refusal),
    };
    let duration = duration_between(fields.start, fields.end);
    Ok(event(alloc, order, &fields, fields.start, duration)?)
}

/// The chunk of a line under a format.
fn line_chunk(
    alloc: Global,
    format: &[EventField],
    line: &[u8],
    order: u32,
) -> Result<Chunk, ChunkRefusal>
    ensures { IsChunkAnswer result (chunked (line_event format.now order line.now)) }
{
    let fields = match read_fields(format, line) {
        Ok(fields) => fields,
        Err(refusal) => return Err(refusal),
    };
    let bytes = write_fields(alloc, order, &fields)?;
    Ok(Chunk {
        bytes: Items::from_vec(bytes),
        start: fields.start,
        duration: duration_between(fields.start, fields.end),
    })
}

/// The time from start to end, 0 where the end comes first.
fn duration_between(start: i64, last: i64) -> i64
    requires start { pos 0 ≤ℤ start }
    requires last { pos 0 ≤ℤ last }
    ensures { result ≡ duration_between start last }
{
    (last - start).max(0)
}

//! Events of chunks and of lines.

use crate::telling::{lines, number, parted, shown};
use ass_events::{Event, chunk_of_line, read_chunk, write_chunk};
use ass_num::Mem;
use ass_script::{Script, read_script};
use bstr::BStr;
use std::alloc::Global;

/// A chunk's bytes: a tilde stands for one that isn't UTF-8.
fn bytes_of(alloc: Global, chunk: &str) -> Mem<Vec<u8>> {
    let mut bytes = Vec::new(alloc);
    for byte in chunk.as_bytes() {
        bytes.push(if *byte == b'~' { 255 } else { *byte })?;
    }
    Ok(bytes)
}

/// The text of an event's chunk.
fn written(alloc: Global, event: &Event) -> Mem<String> {
    let bytes = write_chunk(alloc, event)?;
    let text = str::from_utf8(bytes.as_slice()).unwrap_or("?");
    Ok(String::from_str(alloc, text)?)
}

/// What a chunk's event is written as, or why it gives none: the start, the duration and the chunk.
pub fn chunk_told(alloc: Global, question: &str) -> Mem<String> {
    let (start, rest) = parted(question, " ");
    let (duration, chunk) = parted(rest, " ");
    let bytes = bytes_of(alloc, chunk)?;
    match read_chunk(alloc, bytes.as_slice(), number(start), number(duration)) {
        Ok(event) => written(alloc, &event),
        Err(refusal) => shown(alloc, &refusal),
    }
}

fn line_chunk(alloc: Global, script: &Script, number: usize) -> Mem<String> {
    if number >= script.line_count() || number > 255 {
        return shown(alloc, &"no such line");
    }
    match chunk_of_line(alloc, script, number) {
        Ok(chunk) => {
            let bytes = BStr::new(chunk.bytes.as_slice());
            shown(alloc, &(bytes, chunk.start, chunk.duration))
        }
        Err(refusal) => shown(alloc, &refusal),
    }
}

/// The chunk of a script's line with its times, or why it gives none: the line's number, and the script.
pub fn line_told(alloc: Global, question: &str) -> Mem<String> {
    let (number, text) = parted(question, " ");
    let number = usize::from(number.parse::<u8>().unwrap_or(255));
    let text = lines(alloc, text)?;
    match read_script(alloc, text.as_str().as_bytes()) {
        Ok(script) => line_chunk(alloc, &script, number),
        Err(refusal) => shown(alloc, &refusal),
    }
}

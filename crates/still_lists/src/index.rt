//! The index as lines of JSON.

ghost use Rattle.std.specs.Prelude.{◌≡◌, ◌++◌, IfOk, OnOk, string_bytes};
ghost use Rattle.still_lists.specs.JsonIndexes.{box_members, end_json, entries_json, entry_json, json_index};

use crate::entry::StillEntry;
use ass_num::Mem;
use frame_change::Changed;
use json::Writer;
use json_lines::{add_number, add_numbers, line_of, new_line};
use std::alloc::Global;

/// Adds the box that an image changes.
fn add_box(part: &Changed, line: &mut Writer) -> Mem<()>
    ensures before { line.new.before ≡ line.old.before }
    ensures tokens { OnOk result (line.new.tokens ≡ line.old.tokens ++ box_members part.now) }
{
    line.key("box")?;
    add_numbers(&[part.x1, part.y1, part.x2, part.y2], line)
}

/// The line on image `k`.
fn entry_json(alloc: Global, k: u64, entry: &StillEntry) -> Mem<String>
    ensures { IfOk result (λ text. string_bytes text ≡ entry_json k entry.now) }
{
    let mut line = new_line(alloc);
    line.begin_object()?;
    add_number("image", k, &mut line)?;
    add_number("place", entry.place, &mut line)?;
    add_number("t", entry.t, &mut line)?;
    add_box(&entry.part, &mut line)?;
    line.end_object()?;
    line_of(line)
}

/// The last line.
fn end_json(alloc: Global, count: u64, end: u64) -> Mem<String>
    ensures { IfOk result (λ text. string_bytes text ≡ end_json count end) }
{
    let mut line = new_line(alloc);
    line.begin_object()?;
    add_number("end", count, &mut line)?;
    add_number("t", end, &mut line)?;
    line.end_object()?;
    line_of(line)
}

/// Adds the lines on all images.
fn add_entries(alloc: Global, entries: &[StillEntry], text: &mut String) -> Mem<()>
    ensures { OnOk result (string_bytes text.new ≡ string_bytes text.old ++ entries_json 0 entries.now) }
{
    for (k, entry) in entries.iter().enumerate() {
        let line = entry_json(alloc, k as u64, entry)?;
        text.push_str(line.as_str())?;
    }
    Ok(())
}

/// The index of kept pictures as lines of JSON: an object of an `image`, its `place`, its instant `t` and the `box` that it
/// changes for each, and a last one with `end`, how many instants there are, and the end `t` of the last one.
pub fn json_index(alloc: Global, entries: &[StillEntry], count: u64, end: u64) -> Mem<String>
    ensures { IfOk result (λ text. string_bytes text ≡ json_index entries.now count end) }
{
    let mut text = String::new(alloc);
    add_entries(alloc, entries, &mut text)?;
    let last = end_json(alloc, count, end)?;
    text.push_str(last.as_str())?;
    Ok(text)
}

//! The index as lines of words.

ghost use Rattle.std.specs.Prelude.{◌≡◌, ◌++◌, IfOk, OnOk, string_bytes};
ghost use Rattle.still_lists.specs.TextIndexes.{end_line, entry_lines, words_index, still_line};

use crate::entry::StillEntry;
use ass_num::Mem;
use frame_change::Changed;
use std::alloc::Global;

/// The line on image `k`, which shows what is shown from the instant `t` at a place on.
fn still_line(alloc: Global, k: usize, place: u64, t: u64, part: &Changed) -> Mem<String>
    ensures { IfOk result (λ line. string_bytes line ≡ still_line k place t part.now) }
{
    let Changed { x1, y1, x2, y2 } = *part;
    Ok(format!(in alloc; "image {k} place {place} t={t} box {x1} {y1} {x2} {y2}\n")?)
}

/// The last line, on how many instants there are, and the end of the last one.
fn end_line(alloc: Global, count: u64, to: u64) -> Mem<String>
    ensures { IfOk result (λ line. string_bytes line ≡ end_line count to) }
{
    Ok(format!(in alloc; "end place {count} t={to}\n")?)
}

/// Adds the lines on all images.
fn add_lines(alloc: Global, entries: &[StillEntry], text: &mut String) -> Mem<()>
    ensures { OnOk result (string_bytes text.new ≡ string_bytes text.old ++ entry_lines 0 entries.now) }
{
    for (k, entry) in entries.iter().enumerate() {
        let line = still_line(alloc, k, entry.place, entry.t, &entry.part)?;
        text.push_str(line.as_str())?;
    }
    Ok(())
}

/// The index of kept pictures: a line `image K place I t=MS box X1 Y1 X2 Y2` for each, and a last one `end place N t=MS`.
pub fn words_index(alloc: Global, entries: &[StillEntry], count: u64, end: u64) -> Mem<String>
    ensures { IfOk result (λ text. string_bytes text ≡ words_index entries.now count end) }
{
    let mut text = String::new(alloc);
    add_lines(alloc, entries, &mut text)?;
    let last = end_line(alloc, count, end)?;
    text.push_str(last.as_str())?;
    Ok(text)
}

//! The report of a selftest as a line of JSON.

ghost use Rattle.std.specs.Prelude.{◌≡◌, IfOk, string_bytes};
ghost use Rattle.play_report.specs.JsonReports.{summary_json};

use ass_num::Mem;
use json_lines::{add_number, line_of, new_line};
use std::alloc::Global;

/// The report of a selftest as an object in one line: `seed`, `events`, `accepted`, `frames` and `digest`.
pub fn summary_json(
    alloc: Global,
    seed: u32,
    events: u32,
    accepted: usize,
    frames: u64,
    digest: u32,
) -> Mem<String>
    ensures { IfOk result (λ text. string_bytes text ≡ summary_json seed events accepted frames digest) }
{
    let mut line = new_line(alloc);
    line.begin_object()?;
    add_number("seed", u64::from(seed), &mut line)?;
    add_number("events", u64::from(events), &mut line)?;
    add_number("accepted", accepted as u64, &mut line)?;
    add_number("frames", frames, &mut line)?;
    add_number("digest", u64::from(digest), &mut line)?;
    line.end_object()?;
    line_of(line)
}

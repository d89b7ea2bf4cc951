//! The report of a play as a line of JSON.

ghost use Rattle.std.specs.Prelude.{◌≡◌, ◌++◌, IfOk, OnOk, string_bytes};
ghost use Rattle.play_report.specs.JsonReports.{accepted_member, cache_member, cache_members, count_members, entry_members, loss_members, report_json};

use crate::report::{PlayReport, cache_name};
use ass_num::{Items, Mem};
use evict_core::Totals;
use json::Writer;
use json_lines::{add_number, add_numbers, line_of, new_line};
use std::alloc::Global;

/// Adds the ReadOrders of the accepted events, an array for each time.
fn add_accepted(times: &[Items<u32>], line: &mut Writer) -> Mem<()>
    ensures before { line.new.before ≡ line.old.before }
    ensures tokens { OnOk result (line.new.tokens ≡ line.old.tokens ++ accepted_member times.now) }
{
    line.key("accepted")?;
    line.begin_array()?;
    for orders in times {
        add_numbers(orders.as_slice(), line)?;
    }
    line.end_array()?;
    Ok(())
}

/// Adds what was counted of lines and images.
fn add_counts(malformed: u64, repeated: u64, frames: u64, line: &mut Writer) -> Mem<()>
    ensures before { line.new.before ≡ line.old.before }
    ensures tokens { OnOk result (line.new.tokens ≡ line.old.tokens ++ count_members malformed repeated frames) }
{
    add_number("malformed", malformed, line)?;
    add_number("repeated", repeated, line)?;
    add_number("frames", frames, line)?;
    Ok(())
}

/// Adds what a cache says of the entries that were found, made and lost.
fn add_entries(totals: &Totals, line: &mut Writer) -> Mem<()>
    ensures before { line.new.before ≡ line.old.before }
    ensures tokens { OnOk result (line.new.tokens ≡ line.old.tokens ++ entry_members totals.now) }
{
    add_number("hits", totals.counts.hits, line)?;
    add_number("claims", totals.counts.claims, line)?;
    add_number("fills", totals.counts.fills, line)?;
    Ok(())
}

/// Adds what it says of the values that weren't kept.
fn add_losses(totals: &Totals, line: &mut Writer) -> Mem<()>
    ensures before { line.new.before ≡ line.old.before }
    ensures tokens { OnOk result (line.new.tokens ≡ line.old.tokens ++ loss_members totals.now) }
{
    add_number("fails", totals.counts.fails, line)?;
    add_number("crowded", totals.counts.crowded, line)?;
    add_number("evictions", totals.counts.evictions, line)?;
    Ok(())
}

/// Adds what the cache at a place counted.
fn add_cache(place: usize, totals: &Totals, line: &mut Writer) -> Mem<()>
    ensures before { line.new.before ≡ line.old.before }
    ensures tokens { OnOk result (line.new.tokens ≡ line.old.tokens ++ cache_member place totals.now) }
{
    line.key(cache_name(place))?;
    line.begin_object()?;
    add_entries(totals, line)?;
    add_losses(totals, line)?;
    line.end_object()?;
    Ok(())
}

/// Adds what the caches counted.
fn add_caches(totals: &[Totals], line: &mut Writer) -> Mem<()>
    ensures before { line.new.before ≡ line.old.before }
    ensures tokens { OnOk result (line.new.tokens ≡ line.old.tokens ++ cache_members 0 totals.now) }
{
    for (place, totals) in totals.iter().enumerate() {
        add_cache(place, totals, line)?;
    }
    Ok(())
}

/// The report of a play as an object in one line: `accepted`, an array for each time with the ReadOrders of its events;
/// `malformed`, `repeated` and `frames`; and for each of the caches `outline`, `mask` and `composite` an object of what it counted.
pub fn report_json(alloc: Global, report: &PlayReport) -> Mem<String>
    ensures { IfOk result (λ text. string_bytes text ≡ report_json report.now) }
{
    let mut line = new_line(alloc);
    line.begin_object()?;
    add_accepted(report.accepted.as_slice(), &mut line)?;
    add_counts(report.malformed, report.repeated, report.frames, &mut line)?;
    add_caches(report.totals.as_slice(), &mut line)?;
    line.end_object()?;
    line_of(line)
}

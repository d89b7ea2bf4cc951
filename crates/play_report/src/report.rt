//! The report of a play.

ghost use Rattle.std.specs.Prelude.{◌≡◌, ◌++◌, IfOk, OnOk, string_bytes};
ghost use Rattle.play_report.specs.Reports.{accepted_line, accepted_lines, cache_line, cache_lines, cache_name, count_lines, entry_words, loss_words};
ghost use Rattle.play_report.specs.Reports.{order_words, report_text};

use ass_num::{Items, Mem};
use evict_core::Totals;
use std::alloc::Global;

/// What came of a play.
#[derive(Drop)]
pub struct PlayReport {
    /// The ReadOrders of the events in the order in which they were accepted, for each time that the job was played.
    pub accepted: Items<Items<u32>>,
    /// How many Dialogue lines gave no event.
    pub malformed: u64,
    /// How many events were offered that were there already.
    pub repeated: u64,
    /// How many images were written.
    pub frames: u64,
    /// The totals of the caches of regions, of masks and of composed masks, in this order.
    pub totals: [Totals; 3],
}

/// Adds ReadOrders, each behind a space.
fn add_orders(alloc: Global, orders: &[u32], report: &mut String) -> Mem<()>
    ensures { OnOk result (string_bytes report.new ≡ string_bytes report.old ++ order_words orders.now) }
{
    for order in orders {
        let word = format!(in alloc; " {order}")?;
        report.push_str(word.as_str())?;
    }
    Ok(())
}

/// Adds the line on the events that were accepted at one time.
fn add_accepted(alloc: Global, orders: &[u32], report: &mut String) -> Mem<()>
    ensures { OnOk result (string_bytes report.new ≡ string_bytes report.old ++ accepted_line orders.now) }
{
    report.push_str("accepted")?;
    add_orders(alloc, orders, report)?;
    report.push_str("\n")?;
    Ok(())
}

/// Adds the lines on the events that were accepted, one for each time.
fn add_all_accepted(alloc: Global, times: &[Items<u32>], report: &mut String) -> Mem<()>
    ensures { OnOk result (string_bytes report.new ≡ string_bytes report.old ++ accepted_lines times.now) }
{
    for orders in times {
        add_accepted(alloc, orders.as_slice(), report)?;
    }
    Ok(())
}

/// The lines on what was counted of lines and images.
fn count_lines(alloc: Global, malformed: u64, repeated: u64, frames: u64) -> Mem<String>
    ensures { IfOk result (λ text. string_bytes text ≡ count_lines malformed repeated frames) }
{
    Ok(format!(in alloc; "malformed {malformed}\nrepeated {repeated}\nframes {frames}\n")?)
}

/// What a line says of the entries of a cache that were found, made and lost.
fn entry_words(alloc: Global, totals: &Totals) -> Mem<String>
    ensures { IfOk result (λ text. string_bytes text ≡ entry_words totals.now) }
{
    let hits = totals.counts.hits;
    let claims = totals.counts.claims;
    let fills = totals.counts.fills;
    Ok(format!(in alloc; " hits {hits} claims {claims} fills {fills}")?)
}

/// What it says of the values that weren't kept.
fn loss_words(alloc: Global, totals: &Totals) -> Mem<String>
    ensures { IfOk result (λ text. string_bytes text ≡ loss_words totals.now) }
{
    let fails = totals.counts.fails;
    let crowded = totals.counts.crowded;
    let evictions = totals.counts.evictions;
    Ok(format!(in alloc; " fails {fails} crowded {crowded} evictions {evictions}\n")?)
}

/// The name of the cache at a place.
pub fn cache_name(place: usize) -> &'static str
    ensures { result.now ≡ cache_name place }
{
    if place == 0 {
        "outline"
    } else if place == 1 {
        "mask"
    } else {
        "composite"
    }
}

/// Adds the line on the cache at a place.
fn add_cache(alloc: Global, place: usize, totals: &Totals, report: &mut String) -> Mem<()>
    ensures { OnOk result (string_bytes report.new ≡ string_bytes report.old ++ cache_line place totals.now) }
{
    report.push_str(cache_name(place))?;
    let entries = entry_words(alloc, totals)?;
    report.push_str(entries.as_str())?;
    let losses = loss_words(alloc, totals)?;
    report.push_str(losses.as_str())?;
    Ok(())
}

/// Adds the lines on the caches.
fn add_caches(alloc: Global, totals: &[Totals], report: &mut String) -> Mem<()>
    ensures { OnOk result (string_bytes report.new ≡ string_bytes report.old ++ cache_lines 0 totals.now) }
{
    for (place, totals) in totals.iter().enumerate() {
        add_cache(alloc, place, totals, report)?;
    }
    Ok(())
}

/// The report of a play: a line `accepted` for each time, with the ReadOrders of its events; `malformed N`, `repeated N`, `frames N`; and
/// a line for each of the caches `outline`, `mask` and `composite`, with what it counted.
pub fn report_text(alloc: Global, report: &PlayReport) -> Mem<String>
    ensures { IfOk result (λ text. string_bytes text ≡ report_text report.now) }
{
    let mut text = String::new(alloc);
    add_all_accepted(alloc, report.accepted.as_slice(), &mut text)?;
    let counts = count_lines(alloc, report.malformed, report.repeated, report.frames)?;
    text.push_str(counts.as_str())?;
    add_caches(alloc, report.totals.as_slice(), &mut text)?;
    Ok(text)
}

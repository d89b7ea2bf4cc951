//! Scripts that are generated, and reports of plays.

use crate::telling::{numbers, parted, shown};
use ass_num::{Items, Mem};
use bstr::BStr;
use evict_core::{Counts, Totals};
use generated_script::generated;
use play_report::{PlayReport, report_text};
use std::alloc::Global;

/// The script that a seed and a number of events generate.
pub fn script(alloc: Global, question: &str) -> Mem<String> {
    let [seed, events, _, _, _, _, _, _] = numbers(question);
    let seed = u32::try_from(seed).unwrap_or(0);
    let events = u32::try_from(events).unwrap_or(0);
    let script = generated(alloc, seed, events)?;
    shown(alloc, &BStr::new(script.as_slice()))
}

fn orders_of(alloc: Global, text: &str) -> Mem<Items<u32>> {
    let mut orders = Items::new(alloc);
    for word in text.split_whitespace() {
        orders.push(word.parse::<u32>().unwrap_or(0))?;
    }
    Ok(orders)
}

/// The orders of each time, between slashes.
fn times_of(alloc: Global, text: &str) -> Mem<Items<Items<u32>>> {
    let mut times = Items::new(alloc);
    for part in text.split('/') {
        times.push(orders_of(alloc, part)?)?;
    }
    Ok(times)
}

fn totals_of(text: &str) -> Totals {
    let [hits, claims, fills, fails, crowded, evictions, _, _] = numbers(text);
    Totals {
        entries: 1,
        unpinned: 2,
        pinned: 3,
        budget: 4,
        counts: Counts {
            hits: hits.unsigned_abs(),
            claims: claims.unsigned_abs(),
            fills: fills.unsigned_abs(),
            fails: fails.unsigned_abs(),
            crowded: crowded.unsigned_abs(),
            evictions: evictions.unsigned_abs(),
        },
    }
}

/// The report of a play: what was accepted, three counts, and what each cache counted, between bars.
pub fn report(alloc: Global, question: &str) -> Mem<String> {
    let (accepted, rest) = parted(question, " |");
    let (counts, totals) = parted(rest, "|");
    let [malformed, repeated, frames, _, _, _, _, _] = numbers(counts);
    let report = PlayReport {
        accepted: times_of(alloc, accepted)?,
        malformed: malformed.unsigned_abs(),
        repeated: repeated.unsigned_abs(),
        frames: frames.unsigned_abs(),
        totals: [totals_of(totals), totals_of(totals), totals_of(totals)],
    };
    let text = report_text(alloc, &report)?;
    shown(alloc, &text.as_str())
}

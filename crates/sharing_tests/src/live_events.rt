//! The live events of a track, kept alone: what is near in small tracks, and as many as there can be.
ghost use Rattle.std.specs.Prelude.{◌≤◌, IfSome};
ghost use Rattle.ass_num.specs.Limits.{max_text_bytes};
ghost use Rattle.ass_events.specs.Ranges.{IsEvent, text_bytes};
ghost use Rattle.track_history.specs.Tellings.{IsSound};

use crate::rows::{add_other, call_of, name_of, numbers, shown};
use ass_events::{Event, read_chunk};
use ass_num::Mem;
use std::alloc::Global;
use std::sync::Arc;
use std::test::Fail;
use track_history::{Feed, Flushed, LiveEvents};

/// What decides whether an event is near.
#[derive(Clone, Copy)]
struct Row {
    order: u32,
    layer: u32,
    start: u32,
    duration: u32,
}

fn event_of(alloc: Global, row: Row) -> Option<Arc<Event>>
    ensures { IfSome result (λ event. IsEvent event.value × (text_bytes event.value ≤ max_text_bytes)) }
{
    let order = row.order;
    let layer = row.layer;
    let Ok(chunk) = format!(in alloc; "{order},{layer},D,,0,0,0,,x") else {
        return None;
    };
    let bytes = chunk.as_str().as_bytes();
    if bytes.len() > 100 {
        return None;
    }
    let start = i64::from(row.start);
    let duration = i64::from(row.duration);
    let Ok(event) = read_chunk(alloc, bytes, start, duration) else {
        return None;
    };
    match Arc::new(alloc, event) {
        Ok(event) => Some(event),
        Err(_) => None,
    }
}

/// Offers the event of the row.
fn offer(alloc: Global, live: &mut LiveEvents, row: Row) -> Feed
    requires { IsSound live.old }
    ensures { IsSound live.new }
{
    match event_of(alloc, row) {
        Some(event) => live.feed(alloc, &event),
        None => Feed::OutOfMemory,
    }
}

/// The ReadOrders of events, each a decimal digit.
fn digits(events: &[Arc<Event>]) -> u32 {
    let mut digits = 0u32;
    for event in events {
        digits = digits.wrapping_mul(10).wrapping_add(event.order);
    }
    digits
}

fn near(alloc: Global, live: &LiveEvents, t: i64) -> Mem<String>
    requires { IsSound live.now }
{
    let near = live.near(alloc, t)?;
    shown(alloc, &digits(near.events.as_slice()))
}

fn orders(alloc: Global, live: &LiveEvents) -> Mem<String> {
    let orders = live.orders(alloc)?;
    shown(alloc, &orders.as_slice())
}

/// Feeds an event: its ReadOrder, its start, its duration and its layer.
fn feed(alloc: Global, live: &mut LiveEvents, call: &str) -> Mem<String>
    requires { IsSound live.old }
    ensures { IsSound live.new }
{
    let [order, start, duration, layer] = numbers(call);
    let row = Row {
        order,
        layer,
        start,
        duration,
    };
    shown(alloc, &offer(alloc, live, row))
}

/// What a call comes to: that of `near` tells the ReadOrders of what is near an instant, each a decimal digit.
fn outcome(alloc: Global, live: &mut LiveEvents, call: &str) -> Mem<String>
    requires { IsSound live.old }
    ensures { IsSound live.new }
{
    let [t, _, _, _] = numbers(call);
    match name_of(call) {
        "feed" => feed(alloc, live, call),
        "near" => near(alloc, live, i64::from(t)),
        "orders" => orders(alloc, live),
        "entries" => shown(alloc, &live.entries()),
        _ => shown(alloc, &live.flush()),
    }
}

fn make_row(alloc: Global, live: &mut LiveEvents, row: &str, others: &mut String) -> Mem<()>
    requires { IsSound live.old }
    ensures { IsSound live.new }
{
    let found = outcome(alloc, live, call_of(row))?;
    add_other(others, row, found.as_str())
}

/// Makes the calls of rows, and tells what comes to something else than its row says.
fn make_rows(alloc: Global, live: &mut LiveEvents, rows: &str) -> Mem<String>
    requires { IsSound live.old }
    ensures { IsSound live.new }
{
    let mut others = String::new(alloc);
    for row in rows.lines() {
        make_row(alloc, live, row, &mut others)?;
    }
    Ok(others)
}

/// Two of the same layer are near at 15, then one in each of two layers.
const FEW: &str = "feed 3 30 10 0 = Accepted(0)
feed 1 0 10 0 = Accepted(1)
feed 2 5 15 0 = Accepted(2)
feed 1 30 10 0 = Repeated(1)
near 35 = 3
near 15 = 12
orders = [3, 1, 2]
flush = Done(3)
near 15 = 0
feed 1 0 10 0 = Accepted(4)
feed 2 5 15 1 = Accepted(5)
entries = 6
near 15 = 2
near 5 = 12";

#[test]
fn what_an_event_is_placed_clear_of_is_near(rt: HostRuntime) -> Result<(), Fail> {
    let mut live = LiveEvents::new(rt.alloc());
    let others = make_rows(rt.alloc(), &mut live, FEW)?;
    assert_eq!(rt; others.as_str(), "");
    Ok(())
}

/// One of many events, each of which is shown for ten milliseconds after the one before.
fn row_of(order: u32) -> Row {
    Row {
        order,
        layer: 0,
        start: order.wrapping_mul(10),
        duration: 10,
    }
}

/// Feeds a million events, and answers how often the place was another than the number of events before.
fn feed_million(alloc: Global, live: &mut LiveEvents) -> u32
    requires { IsSound live.old }
    ensures { IsSound live.new }
{
    let mut wrong = 0u32;
    for i in 0..1_000_000usize {
        let order = u32::try_from(i).unwrap_or(0);
        if offer(alloc, live, row_of(order)) != Feed::Accepted(i) {
            wrong = wrong.wrapping_add(1);
        }
    }
    wrong
}

/// With a million live events.
const MANY: &str = "feed 1000000 10000000 10 0 = Full(1000000)
feed 7 70 10 0 = Repeated(7)
near 10000000 = 0
flush = Done(1000000)
feed 1000000 10000000 10 0 = Accepted(1000001)";

#[test]
fn there_are_a_million_live_events_at_most(rt: HostRuntime) -> Result<(), Fail> {
    let mut live = LiveEvents::new(rt.alloc());
    let wrong = feed_million(rt.alloc(), &mut live);
    assert_eq!(rt; wrong, 0);
    let others = make_rows(rt.alloc(), &mut live, MANY)?;
    assert_eq!(rt; others.as_str(), "");
    Ok(())
}

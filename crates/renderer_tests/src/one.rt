//! Calls in turn on one thread.

ghost use Rattle.renderer_tests.specs.Passes.{IsIdle};

use crate::calls::TryCall;
use crate::inputs::{SMALL, opened};
use crate::lending::{lend, take_back};
use crate::rows::{
    bands, crowd, feed, feed_within, flush, frame, frame_from, hard_limit, orders, set_limits,
    tell, totals, try_call, unpainted, warm,
};
use renderer::{RenderPass, Renderer};
use std::alloc::Global;
use std::sync::Wait;
use std::thread::Threads;

/// No event, and a first one, whose mask isn't ready before a frame has made it; a second one in its place, so with the same mask; a
/// flush between two frames; the budget goes, and comes back; frames of more entries than there are, of as many, and within some
/// tries; and feeds within some. An event is fed by its number.
const KEPT: &str = "try_frame,feed 32,feed 32,try_frame,totals,frame,totals,try_frame,\
feed 0,orders,try_frame,bands,unpainted,totals,\
flush,orders,frame,feed 0,frame,\
set_limits 0,try_frame,try_frame_telling,frame_within_telling,frame,set_limits 1000000,warm,try_frame,totals,\
frame_from 5,frame_from 4,frame_within,try_frame_telling,frame_within_telling,feed_within 0,feed_within 32";

/// Each frame makes its mask again, and none is ready for a try; more masks than there are places, so that a frame has some of its
/// own; and a hard limit that nothing is within, so that it has all of its own, one that no value is within once it is made, and one
/// that all are within.
const NOT_KEPT: &str = "feed 32,frame,warm,try_frame,unpainted,totals,crowd 24,unpainted,\
hard_limit 0,unpainted,hard_limit 40,unpainted,hard_limit 1000000,unpainted";

/// A frame that is tried for by the call of a name.
fn sought<R: Wait + Print>(
    rt: &R,
    alloc: Global,
    renderer: &Renderer,
    pass: RenderPass,
    name: &str,
) -> RenderPass
    requires { IsIdle renderer.now pass }
    ensures { IsIdle renderer.now result }
{
    let call = match name {
        "try_frame" => TryCall::TryFrame,
        "try_frame_telling" => TryCall::TryFrameTelling,
        "frame_within" => TryCall::FrameWithin,
        _ => TryCall::FrameWithinTelling,
    };
    try_call(rt, alloc, renderer, pass, name, call)
}

/// A frame in one of the ways, or what is counted.
fn seen<R: Threads + Wait + Sync + Print>(
    rt: &R,
    alloc: Global,
    renderer: &Renderer,
    pass: RenderPass,
    name: &str,
) -> RenderPass
    requires { IsIdle renderer.now pass }
    ensures { IsIdle renderer.now result }
{
    match name {
        "frame" => frame(rt, alloc, renderer, pass),
        "unpainted" => unpainted(rt, alloc, renderer, pass),
        "bands" => bands(rt, alloc, renderer, pass),
        "totals" => totals(rt, renderer, pass),
        _ => sought(rt, alloc, renderer, pass, name),
    }
}

/// A call by its name and its number, if it has one.
fn called<R: Threads + Wait + Sync + Print>(
    rt: &R,
    alloc: Global,
    renderer: &Renderer,
    pass: RenderPass,
    name: &str,
    number: u32,
) -> RenderPass
    requires { IsIdle renderer.now pass }
    ensures { IsIdle renderer.now result }
{
    match name {
        "feed" => feed(rt, alloc, renderer, pass, number),
        "feed_within" => feed_within(rt, alloc, renderer, pass, number),
        "crowd" => crowd(rt, alloc, renderer, pass, number),
        "flush" => flush(rt, alloc, renderer, pass),
        "orders" => orders(rt, alloc, renderer, pass),
        "set_limits" => set_limits(rt, alloc, renderer, pass, number),
        "warm" => warm(rt, alloc, renderer, pass),
        "hard_limit" => hard_limit(rt, renderer, pass, number),
        "frame_from" => frame_from(rt, alloc, renderer, pass, number as usize),
        _ => seen(rt, alloc, renderer, pass, name),
    }
}

/// Calls in turn.
fn all_called<R: Threads + Wait + Sync + Print>(
    rt: &R,
    alloc: Global,
    renderer: &Renderer,
    pass: RenderPass,
    calls: &str,
) -> RenderPass
    requires { IsIdle renderer.now pass }
    ensures { IsIdle renderer.now result }
{
    let mut mine = pass;
    for call in calls.split(',') {
        let (name, number) = call.split_once(' ').unwrap_or((call, ""));
        let number = number.parse::<u32>().unwrap_or(0);
        mine = called(rt, alloc, renderer, mine, name, number);
    }
    mine
}

/// Calls of a new renderer with a budget.
fn run<R: Threads + Wait + Sync + Print>(rt: &R, alloc: Global, budget: u32, calls: &str) {
    tell(rt, "budget", &budget);
    let Some((renderer, first)) = opened(alloc, SMALL, u64::from(budget)) else {
        return;
    };
    let (first, lent) = lend(&renderer, first);
    let lent = match lent {
        Some(pass) => Some(all_called(rt, alloc, &renderer, pass, calls)),
        None => None,
    };
    let first = take_back(&renderer, first, lent);
    renderer.close(first);
}

/// Calls where each mask that was made stays until the budget goes, and then where the budget is 0.
pub fn run_in_turn<R: Threads + Wait + Sync + Print>(rt: &R, alloc: Global) {
    run(rt, alloc, 1_000_000, KEPT);
    run(rt, alloc, 0, NOT_KEPT);
}

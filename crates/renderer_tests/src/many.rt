//! Eight threads of feeds and frames. Each frame is compared with what one thread makes of its entries alone.

ghost use Rattle.std.specs.Prelude.{◌≤◌};
ghost use Rattle.evict_core.specs.Machine.{max_budget};
ghost use Rattle.renderer_tests.specs.Passes.{IsFirstOfRenderer, IsIdle};

use crate::beside::work_and_try;
use crate::calls::counted;
use crate::crew::{dismiss, dismiss_four, hire, hire_four};
use crate::gates::Gate;
use crate::inputs::{WIDE, opened};
use crate::lending::{lend, take_back};
use crate::rows::tell;
use evict_core::Totals;
use renderer::{RenderPass, Renderer};
use std::alloc::Global;
use std::sync::Wait;
use std::thread::Threads;

/// Feeds and draws on eight threads at once, and tries on one more. Answers how many of the 32 frames were right.
fn drawn_by_eight<R: Threads + Wait + Sync + Print>(
    rt: &R,
    alloc: Global,
    renderer: &Renderer,
    first: RenderPass,
    gate: &Gate,
) -> (RenderPass, u32)
    requires { IsFirstOfRenderer renderer.now first }
    ensures { IsFirstOfRenderer renderer.now result.0 }
{
    let (first, mut left) = hire_four(renderer, first, 0);
    let (first, mut right) = hire_four(renderer, first, 4);
    let (first, mut drawer) = hire(renderer, first, 8);
    work_and_try(
        rt,
        alloc,
        renderer,
        &mut left,
        &mut right,
        &mut drawer,
        gate,
    );
    let (first, _) = dismiss(renderer, first, drawer);
    let (first, one) = dismiss_four(renderer, first, left);
    let (first, other) = dismiss_four(renderer, first, right);
    (first, one.wrapping_add(other))
}

/// How many events there are.
fn tell_events<R: Wait + Print>(
    rt: &R,
    alloc: Global,
    renderer: &Renderer,
    pass: RenderPass,
) -> RenderPass
    requires { IsIdle renderer.now pass }
    ensures { IsIdle renderer.now result }
{
    let (after, orders) = renderer.orders(rt, alloc, pass);
    if let Ok(orders) = orders {
        tell(rt, "events", &orders.len());
    }
    after
}

/// What there is at the end: the events, and the totals.
fn told_events<R: Wait + Print>(
    rt: &R,
    alloc: Global,
    renderer: &Renderer,
    first: RenderPass,
) -> (RenderPass, Option<[Totals; 3]>)
    requires { IsFirstOfRenderer renderer.now first }
    ensures { IsFirstOfRenderer renderer.now result.0 }
{
    let (first, lent) = lend(renderer, first);
    let Some(pass) = lent else {
        return (first, None);
    };
    let pass = tell_events(rt, alloc, renderer, pass);
    let (pass, totals) = counted(rt, renderer, pass);
    (take_back(renderer, first, Some(pass)), Some(totals))
}

/// Feeds and draws on eight threads with a budget, and answers the totals at the end.
fn totals_of_eight<R: Threads + Wait + Sync + Print>(
    rt: &R,
    alloc: Global,
    budget: u64,
    gate: &Gate,
) -> Option<[Totals; 3]>
    requires { budget ≤ max_budget }
{
    let Some((renderer, first)) = opened(alloc, WIDE, budget) else {
        return None;
    };
    let (first, right) = drawn_by_eight(rt, alloc, &renderer, first, gate);
    tell(
        rt,
        "frames of eight threads as one makes them alone",
        &right,
    );
    tell(
        rt,
        "a maker was held until all had fed and one had tried",
        &gate.has_held(),
    );
    let (first, totals) = told_events(rt, alloc, &renderer, first);
    renderer.close(first);
    totals
}

/// How the values of the cache of composed masks were come by.
fn tell_counts<R: Print>(rt: &R, totals: &[Totals; 3]) {
    let counts = totals[2].counts;
    let numbers = [counts.claims, counts.fills, counts.fails, counts.crowded];
    tell(rt, "claims, fills, fails, crowded", &numbers);
}

/// How many values are kept.
fn tell_entries<R: Print>(rt: &R, totals: &[Totals; 3]) {
    let entries = [totals[0].entries, totals[1].entries, totals[2].entries];
    tell(rt, "entries", &entries);
}

/// A maker is held until each thread has fed and one more has tried, so that the others ask for what it makes. Each value is made once.
pub fn run_with_masks_kept<R: Threads + Wait + Sync + Print>(rt: &R, alloc: Global) {
    let gate = Gate::new(8);
    let totals = totals_of_eight(rt, alloc, 1_000_000, &gate);
    tell(rt, "makings", &gate.makings());
    if let Some(totals) = totals {
        tell_counts(rt, &totals);
    }
}

/// Nothing is kept, so each value may be made more than once.
pub fn run_with_no_mask_kept<R: Threads + Wait + Sync + Print>(rt: &R, alloc: Global) {
    let gate = Gate::new(8);
    let totals = totals_of_eight(rt, alloc, 0, &gate);
    if let Some(totals) = totals {
        tell_entries(rt, &totals);
    }
}

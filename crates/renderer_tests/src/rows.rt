//! Calls on the small script, each with a line that says what it comes to.

ghost use Rattle.std.specs.Prelude.{◌≤◌};
ghost use Rattle.ass_num.specs.Limits.{IsFrameSize};
ghost use Rattle.evict_core.specs.Machine.{max_budget};
ghost use Rattle.renderer.specs.Passes.{IsPassOfRenderer};
ghost use Rattle.renderer_tests.specs.Passes.{HoldsFrameAlone, IsIdle};

use crate::calls::{
    Shown, TryCall, counted, drawn, drawn_from, feed_crowd, feed_letter, feed_letter_within,
    given_back, hard_limited, held_frame, limited, tried, warmed,
};
use crate::inputs::{SMALL_FRAME, signs_of};
use ass_num::Mem;
use evict_core::Totals;
use renderer::{Frame, RenderPass, Renderer, TryRefusal, paint, paint_bands};
use std::alloc::Global;
use std::fmt::Debug;
use std::sync::Wait;
use std::thread::Threads;
use test_hook::NoHook;

/// A line: a call and its answer.
pub fn tell<R: Print, T: Debug>(rt: &R, call: &str, answer: &T) {
    let _is_written = println!(rt; "{call}: {answer:?}").is_ok();
}

/// A line of a frame: of how many entries it is, and its picture.
fn tell_shown<R: Print>(rt: &R, alloc: Global, call: &str, shown: &Shown) {
    let Ok(signs) = signs_of(alloc, shown.canvas.pixels(), 7) else {
        return;
    };
    let n = shown.n;
    let _is_written = println!(rt; "{call}: of {n} {signs}").is_ok();
}

/// A line of totals: of each cache its entries, how many values were claimed, and how many entries were evicted.
fn tell_totals<R: Print>(rt: &R, totals: &[Totals; 3]) {
    for total in totals {
        let counts = total.counts;
        let numbers = [total.entries as u64, counts.claims, counts.evictions];
        tell(rt, "  entries, claims, evictions", &numbers);
    }
}

/// A line of totals: which caches have pinned values.
fn tell_pins<R: Print>(rt: &R, call: &str, totals: &[Totals; 3]) {
    let [regions, masks, composites] = totals;
    let are_pinned = [regions.pinned > 0, masks.pinned > 0, composites.pinned > 0];
    tell(rt, call, &are_pinned);
}

/// Offers the event of a number.
pub fn feed<R: Wait + Print>(
    rt: &R,
    alloc: Global,
    renderer: &Renderer,
    pass: RenderPass,
    order: u32,
) -> RenderPass
    requires { IsIdle renderer.now pass }
    ensures { IsIdle renderer.now result }
{
    let (after, answer) = feed_letter(rt, alloc, renderer, pass, order);
    tell(rt, "feed", &answer);
    after
}

/// Offers the event of a number within three tries.
pub fn feed_within<R: Print>(
    rt: &R,
    alloc: Global,
    renderer: &Renderer,
    pass: RenderPass,
    order: u32,
) -> RenderPass
    requires { IsIdle renderer.now pass }
    ensures { IsIdle renderer.now result }
{
    let (after, answer) = feed_letter_within(alloc, renderer, pass, order);
    tell(rt, "feed_within", &answer);
    after
}

/// Offers so many events, each with a mask of its own.
pub fn crowd<R: Wait + Print>(
    rt: &R,
    alloc: Global,
    renderer: &Renderer,
    pass: RenderPass,
    count: u32,
) -> RenderPass
    requires { IsIdle renderer.now pass }
    ensures { IsIdle renderer.now result }
{
    tell(rt, "crowd", &count);
    feed_crowd(rt, alloc, renderer, pass, count)
}

/// Drops all events.
pub fn flush<R: Wait + Print>(
    rt: &R,
    alloc: Global,
    renderer: &Renderer,
    pass: RenderPass,
) -> RenderPass
    requires { IsIdle renderer.now pass }
    ensures { IsIdle renderer.now result }
{
    let (after, answer) = renderer.flush(rt, alloc, pass);
    tell(rt, "flush", &answer);
    after
}

/// The ReadOrders of the live events.
pub fn orders<R: Wait + Print>(
    rt: &R,
    alloc: Global,
    renderer: &Renderer,
    pass: RenderPass,
) -> RenderPass
    requires { IsIdle renderer.now pass }
    ensures { IsIdle renderer.now result }
{
    let (after, orders) = renderer.orders(rt, alloc, pass);
    match orders {
        Ok(orders) => tell(rt, "orders", &orders.as_slice()),
        Err(refused) => tell(rt, "orders", &refused),
    }
    after
}

/// The totals.
pub fn totals<R: Wait + Print>(rt: &R, renderer: &Renderer, pass: RenderPass) -> RenderPass
    requires { IsIdle renderer.now pass }
    ensures { IsIdle renderer.now result }
{
    let (after, totals) = counted(rt, renderer, pass);
    tell_totals(rt, &totals);
    after
}

/// A new budget, and the totals then.
pub fn set_limits<R: Wait + Print>(
    rt: &R,
    alloc: Global,
    renderer: &Renderer,
    pass: RenderPass,
    budget: u32,
) -> RenderPass
    requires { IsIdle renderer.now pass }
    ensures { IsIdle renderer.now result }
{
    let after = limited(rt, alloc, renderer, pass, u64::from(budget));
    tell(rt, "set_limits", &budget);
    totals(rt, renderer, after)
}

/// A hard limit, and which caches have it.
pub fn hard_limit<R: Wait + Print>(
    rt: &R,
    renderer: &Renderer,
    pass: RenderPass,
    cost: u32,
) -> RenderPass
    requires { IsIdle renderer.now pass }
    ensures { IsIdle renderer.now result }
{
    let (after, set) = hard_limited(rt, renderer, pass, u64::from(cost));
    tell(rt, "set_hard_limit", &set);
    after
}

/// Makes the mask, and tells whether it can be kept.
pub fn warm<R: Wait + Print>(
    rt: &R,
    alloc: Global,
    renderer: &Renderer,
    pass: RenderPass,
) -> RenderPass
    requires { IsIdle renderer.now pass }
    ensures { IsIdle renderer.now result }
{
    let (after, made) = warmed(rt, alloc, renderer, pass, &SMALL_FRAME, &NoHook);
    tell(rt, "warm", &made);
    after
}

/// A frame, which is painted and given back.
pub fn frame<R: Wait + Print>(
    rt: &R,
    alloc: Global,
    renderer: &Renderer,
    pass: RenderPass,
) -> RenderPass
    requires { IsIdle renderer.now pass }
    ensures { IsIdle renderer.now result }
{
    let (after, shown) = drawn(rt, alloc, renderer, pass, &SMALL_FRAME, &NoHook);
    match shown {
        Ok(shown) => tell_shown(rt, alloc, "frame", &shown),
        Err(refused) => tell(rt, "frame", &refused),
    }
    after
}

/// A frame that a call of this name tries for; so it is with it.
pub fn try_call<R: Wait + Print>(
    rt: &R,
    alloc: Global,
    renderer: &Renderer,
    pass: RenderPass,
    name: &str,
    call: TryCall,
) -> RenderPass
    requires { IsIdle renderer.now pass }
    ensures { IsIdle renderer.now result }
{
    let (after, shown) = tried(rt, alloc, renderer, pass, &SMALL_FRAME, call);
    match shown {
        Ok(shown) => tell_shown(rt, alloc, name, &shown),
        Err(refusal) => tell(rt, name, &refusal),
    }
    after
}

/// A frame of at least so many entries; so it is with it.
pub fn frame_from<R: Wait + Print>(
    rt: &R,
    alloc: Global,
    renderer: &Renderer,
    pass: RenderPass,
    least: usize,
) -> RenderPass
    requires { IsIdle renderer.now pass }
    ensures { IsIdle renderer.now result }
{
    let (after, shown) = drawn_from(rt, alloc, renderer, pass, least, &SMALL_FRAME, &NoHook);
    match shown {
        Ok(shown) => tell_shown(rt, alloc, "frame_from", &shown),
        Err(refusal) => tell(rt, "frame_from", &refusal),
    }
    after
}

/// The totals while a frame is held.
fn counted_beside<R: Wait>(
    rt: &R,
    renderer: &Renderer,
    pass: RenderPass,
    frame: &Frame,
) -> (RenderPass, [Totals; 3])
    requires pass { IsPassOfRenderer renderer.now pass }
    requires held { HoldsFrameAlone renderer.now pass frame.now }
    ensures pass { IsPassOfRenderer renderer.now result.0 }
    ensures held { HoldsFrameAlone renderer.now result.0 frame.now }
{
    renderer.totals(rt, pass)
}

/// What is pinned while a frame is held that nobody paints, and once it was given back.
fn tell_around<R: Wait + Print>(
    rt: &R,
    renderer: &Renderer,
    pass: RenderPass,
    frame: Frame,
) -> RenderPass
    requires pass { IsPassOfRenderer renderer.now pass }
    requires held { HoldsFrameAlone renderer.now pass frame }
    ensures { IsIdle renderer.now result }
{
    let (held, totals) = counted_beside(rt, renderer, pass, &frame);
    tell_pins(rt, "pinned while it is held", &totals);
    tell(rt, "owns masks", &(frame.owned() > 0));
    let back = given_back(rt, renderer, held, frame);
    let (after, left) = counted(rt, renderer, back);
    tell_pins(rt, "pinned once it was given back", &left);
    after
}

/// A frame that nobody paints.
pub fn unpainted<R: Wait + Print>(
    rt: &R,
    alloc: Global,
    renderer: &Renderer,
    pass: RenderPass,
) -> RenderPass
    requires { IsIdle renderer.now pass }
    ensures { IsIdle renderer.now result }
{
    let (held, frame) = held_frame(rt, alloc, renderer, pass, &SMALL_FRAME, &NoHook);
    match frame {
        Ok(frame) => tell_around(rt, renderer, held, frame),
        Err(_) => held,
    }
}

/// In how many numbers of bands, of eleven, a frame is painted as it is in one.
fn alike_bands<R: Threads + Sync>(rt: &R, alloc: Global, frame: &Frame) -> Mem<u32>
    requires { IsFrameSize frame.now.size }
{
    let whole = paint(alloc, frame)?;
    let mut alike = 0u32;
    for bands in 1..12u32 {
        let banded = paint_bands(rt, alloc, frame, bands)?;
        if banded.pixels() == whole.pixels() {
            alike = alike.wrapping_add(1);
        }
    }
    Ok(alike)
}

/// A frame that is painted in bands.
pub fn bands<R: Threads + Wait + Sync + Print>(
    rt: &R,
    alloc: Global,
    renderer: &Renderer,
    pass: RenderPass,
) -> RenderPass
    requires { IsIdle renderer.now pass }
    ensures { IsIdle renderer.now result }
{
    let (held, frame) = held_frame(rt, alloc, renderer, pass, &SMALL_FRAME, &NoHook);
    match frame {
        Ok(frame) => {
            let alike = alike_bands(rt, alloc, &frame);
            tell(rt, "paint_bands alike", &alike);
            given_back(rt, renderer, held, frame)
        }
        Err(_) => held,
    }
}

//! Calls of a renderer on passes that hold nothing, and hold nothing afterwards.

ghost use Rattle.std.specs.Prelude.{◌≤◌, IfOk, OnErr};
ghost use Rattle.ass_num.specs.Limits.{IsFrameSize};
ghost use Rattle.evict_core.specs.Machine.{max_budget};
ghost use Rattle.renderer.specs.Holding.{HoldsTheSame};
ghost use Rattle.renderer.specs.Passes.{HoldsNothing, IsPassOfRenderer, RenderView};
ghost use Rattle.renderer_tests.specs.Passes.{HoldsFrameAlone, IsIdle};

use crate::inputs::{letter_chunk, stretched_chunk};
use ass_io::MAX_FILE_BYTES;
use ass_num::{Mem, Size};
use blend::Canvas;
use evict_core::{HardLimit, Totals};
use mask_caches::{HardSet, Prefetched};
use renderer::{Frame, FromRefusal, RenderPass, Renderer, TryRefusal, laws, paint};
use std::alloc::Global;
use std::sync::Wait;
use test_hook::TestHook;
use track_history::{Feed, TurnOut};

/// The instant of all frames. Each event is shown then.
pub const INSTANT: i64 = 500;

/// So often a frame is tried for within some tries.
const TRIES: u32 = 3;

/// The calls that try for a frame, and wait for nobody.
#[derive(Clone, Copy, Debug)]
pub enum TryCall {
    TryFrame,
    TryFrameTelling,
    FrameWithin,
    FrameWithinTelling,
}

/// What a frame shows, and of how many entries.
#[derive(Drop)]
pub struct Shown {
    pub n: usize,
    pub canvas: Canvas,
}

/// A pass that holds as much as one that held nothing holds nothing. It does nothing: its contract is the law.
pub fn proof_idle(renderer: &Renderer, pass: &RenderPass)
    requires pass { IsPassOfRenderer renderer.now pass.now }
    requires same { (begun : RenderView) × HoldsNothing renderer.now begun × HoldsTheSame renderer.now begun pass.now }
    ensures { IsIdle renderer.now pass.now }
{
    renderer.proof_kept(pass);
    laws::frames_are_given_back();
}

/// Gives back a frame that alone is held.
pub fn given_back<R: Wait>(
    rt: &R,
    renderer: &Renderer,
    pass: RenderPass,
    frame: Frame,
) -> RenderPass
    requires pass { IsPassOfRenderer renderer.now pass }
    requires held { HoldsFrameAlone renderer.now pass frame }
    ensures { IsIdle renderer.now result }
{
    laws::frames_are_given_back();
    let after = renderer.release(rt, pass, frame);
    renderer.proof_kept(&after);
    after
}

/// A frame that is painted.
fn painted(alloc: Global, frame: &Frame) -> Mem<Shown>
    requires { IsFrameSize frame.now.size }
{
    let canvas = paint(alloc, frame)?;
    Ok(Shown { n: frame.n, canvas })
}

/// Offers the event of a chunk, which is shown for ten seconds.
fn feed_chunk<R: Wait>(
    rt: &R,
    alloc: Global,
    renderer: &Renderer,
    pass: RenderPass,
    chunk: &[u8],
) -> (RenderPass, Feed)
    requires { IsIdle renderer.now pass }
    ensures { IsIdle renderer.now result.0 }
{
    if chunk.len() > MAX_FILE_BYTES {
        return (pass, Feed::OutOfMemory);
    }
    renderer.feed(rt, alloc, pass, chunk, 0, 10_000)
}

/// Offers the event of a number.
pub fn feed_letter<R: Wait>(
    rt: &R,
    alloc: Global,
    renderer: &Renderer,
    pass: RenderPass,
    order: u32,
) -> (RenderPass, Feed)
    requires { IsIdle renderer.now pass }
    ensures { IsIdle renderer.now result.0 }
{
    match letter_chunk(alloc, order) {
        Ok(chunk) => feed_chunk(rt, alloc, renderer, pass, chunk.as_str().as_bytes()),
        Err(_) => (pass, Feed::OutOfMemory),
    }
}

/// Offers so many events, each with a mask of its own.
pub fn feed_crowd<R: Wait>(
    rt: &R,
    alloc: Global,
    renderer: &Renderer,
    pass: RenderPass,
    count: u32,
) -> RenderPass
    requires { IsIdle renderer.now pass }
    ensures { IsIdle renderer.now result }
{
    let mut mine = pass;
    for i in 0..count {
        if let Ok(chunk) = stretched_chunk(alloc, i.wrapping_add(100)) {
            let (next, _answer) = feed_chunk(rt, alloc, renderer, mine, chunk.as_str().as_bytes());
            mine = next;
        }
    }
    mine
}

/// Offers the event of a number within three tries.
pub fn feed_letter_within(
    alloc: Global,
    renderer: &Renderer,
    pass: RenderPass,
    order: u32,
) -> (RenderPass, Result<Feed, TurnOut>)
    requires { IsIdle renderer.now pass }
    ensures { IsIdle renderer.now result.0 }
{
    let Ok(chunk) = letter_chunk(alloc, order) else {
        return (pass, Ok(Feed::OutOfMemory));
    };
    let bytes = chunk.as_str().as_bytes();
    if bytes.len() > MAX_FILE_BYTES {
        return (pass, Ok(Feed::OutOfMemory));
    }
    renderer.feed_within(alloc, pass, bytes, 0, 10_000, 3)
}

/// A frame of all events, which alone is held.
pub fn held_frame<R: Wait, H: TestHook>(
    rt: &R,
    alloc: Global,
    renderer: &Renderer,
    pass: RenderPass,
    size: &Size,
    hook: &H,
) -> (RenderPass, Mem<Frame>)
    requires idle { IsIdle renderer.now pass }
    requires size { IsFrameSize size.now }
    ensures pass { IsPassOfRenderer renderer.now result.0 }
    ensures held { IfOk result.1 (HoldsFrameAlone renderer.now result.0) }
    ensures size { IfOk result.1 (λ frame. IsFrameSize frame.size) }
    ensures none { OnErr result.1 (HoldsNothing renderer.now result.0) }
{
    let (after, frame) = renderer.frame(rt, alloc, pass, INSTANT, size, hook);
    laws::frames_are_given_back();
    renderer.proof_kept(&after);
    (after, frame)
}

/// A frame that is tried for, and alone is held.
pub fn tried_frame(
    alloc: Global,
    renderer: &Renderer,
    pass: RenderPass,
    size: &Size,
) -> (RenderPass, Result<Frame, TryRefusal>)
    requires idle { IsIdle renderer.now pass }
    requires size { IsFrameSize size.now }
    ensures pass { IsPassOfRenderer renderer.now result.0 }
    ensures held { IfOk result.1 (HoldsFrameAlone renderer.now result.0) }
    ensures size { IfOk result.1 (λ frame. IsFrameSize frame.size) }
    ensures none { OnErr result.1 (HoldsNothing renderer.now result.0) }
{
    let (after, frame) = renderer.try_frame(alloc, pass, INSTANT, size);
    laws::frames_are_given_back();
    renderer.proof_kept(&after);
    (after, frame)
}

/// The same, where a mask that is being made is told.
pub fn tried_frame_telling(
    alloc: Global,
    renderer: &Renderer,
    pass: RenderPass,
    size: &Size,
) -> (RenderPass, Result<Frame, TryRefusal>)
    requires idle { IsIdle renderer.now pass }
    requires size { IsFrameSize size.now }
    ensures pass { IsPassOfRenderer renderer.now result.0 }
    ensures held { IfOk result.1 (HoldsFrameAlone renderer.now result.0) }
    ensures size { IfOk result.1 (λ frame. IsFrameSize frame.size) }
    ensures none { OnErr result.1 (HoldsNothing renderer.now result.0) }
{
    let (after, frame) = renderer.try_frame_telling(alloc, pass, INSTANT, size);
    laws::frames_are_given_back();
    renderer.proof_kept(&after);
    (after, frame)
}

/// A frame of at least so many entries, which alone is held.
pub fn held_from<R: Wait, H: TestHook>(
    rt: &R,
    alloc: Global,
    renderer: &Renderer,
    pass: RenderPass,
    least: usize,
    size: &Size,
    hook: &H,
) -> (RenderPass, Result<Frame, FromRefusal>)
    requires idle { IsIdle renderer.now pass }
    requires size { IsFrameSize size.now }
    ensures pass { IsPassOfRenderer renderer.now result.0 }
    ensures held { IfOk result.1 (HoldsFrameAlone renderer.now result.0) }
    ensures size { IfOk result.1 (λ frame. IsFrameSize frame.size) }
    ensures none { OnErr result.1 (HoldsNothing renderer.now result.0) }
{
    let (after, frame) = renderer.frame_from(rt, alloc, pass, least, INSTANT, size, hook);
    laws::frames_are_given_back();
    renderer.proof_kept(&after);
    (after, frame)
}

/// A frame that is had within some tries, and alone is held.
pub fn held_within(
    alloc: Global,
    renderer: &Renderer,
    pass: RenderPass,
    size: &Size,
) -> (RenderPass, Result<Frame, TryRefusal>)
    requires idle { IsIdle renderer.now pass }
    requires size { IsFrameSize size.now }
    ensures pass { IsPassOfRenderer renderer.now result.0 }
    ensures held { IfOk result.1 (HoldsFrameAlone renderer.now result.0) }
    ensures size { IfOk result.1 (λ frame. IsFrameSize frame.size) }
    ensures none { OnErr result.1 (HoldsNothing renderer.now result.0) }
{
    let (after, frame) = renderer.frame_within(alloc, pass, INSTANT, size, TRIES);
    laws::frames_are_given_back();
    renderer.proof_kept(&after);
    (after, frame)
}

/// The same, where a mask that is being made is told.
pub fn held_within_telling(
    alloc: Global,
    renderer: &Renderer,
    pass: RenderPass,
    size: &Size,
) -> (RenderPass, Result<Frame, TryRefusal>)
    requires idle { IsIdle renderer.now pass }
    requires size { IsFrameSize size.now }
    ensures pass { IsPassOfRenderer renderer.now result.0 }
    ensures held { IfOk result.1 (HoldsFrameAlone renderer.now result.0) }
    ensures size { IfOk result.1 (λ frame. IsFrameSize frame.size) }
    ensures none { OnErr result.1 (HoldsNothing renderer.now result.0) }
{
    let (after, frame) = renderer.frame_within_telling(alloc, pass, INSTANT, size, TRIES);
    laws::frames_are_given_back();
    renderer.proof_kept(&after);
    (after, frame)
}

/// A frame that a call tries for, and alone is held.
fn held_by(
    alloc: Global,
    renderer: &Renderer,
    pass: RenderPass,
    size: &Size,
    call: TryCall,
) -> (RenderPass, Result<Frame, TryRefusal>)
    requires idle { IsIdle renderer.now pass }
    requires size { IsFrameSize size.now }
    ensures pass { IsPassOfRenderer renderer.now result.0 }
    ensures held { IfOk result.1 (HoldsFrameAlone renderer.now result.0) }
    ensures size { IfOk result.1 (λ frame. IsFrameSize frame.size) }
    ensures none { OnErr result.1 (HoldsNothing renderer.now result.0) }
{
    match call {
        TryCall::TryFrame => tried_frame(alloc, renderer, pass, size),
        TryCall::TryFrameTelling => tried_frame_telling(alloc, renderer, pass, size),
        TryCall::FrameWithin => held_within(alloc, renderer, pass, size),
        TryCall::FrameWithinTelling => held_within_telling(alloc, renderer, pass, size),
    }
}

/// What a frame of all events shows. It is given back.
pub fn drawn<R: Wait, H: TestHook>(
    rt: &R,
    alloc: Global,
    renderer: &Renderer,
    pass: RenderPass,
    size: &Size,
    hook: &H,
) -> (RenderPass, Mem<Shown>)
    requires idle { IsIdle renderer.now pass }
    requires size { IsFrameSize size.now }
    ensures { IsIdle renderer.now result.0 }
{
    let (held, frame) = held_frame(rt, alloc, renderer, pass, size, hook);
    match frame {
        Ok(frame) => {
            let seen = painted(alloc, &frame);
            (given_back(rt, renderer, held, frame), seen)
        }
        Err(refused) => (held, Err(refused)),
    }
}

/// What a frame shows that a call tries for. It is given back.
pub fn tried<R: Wait>(
    rt: &R,
    alloc: Global,
    renderer: &Renderer,
    pass: RenderPass,
    size: &Size,
    call: TryCall,
) -> (RenderPass, Result<Shown, TryRefusal>)
    requires idle { IsIdle renderer.now pass }
    requires size { IsFrameSize size.now }
    ensures { IsIdle renderer.now result.0 }
{
    let (held, frame) = held_by(alloc, renderer, pass, size, call);
    match frame {
        Ok(frame) => {
            let seen = painted(alloc, &frame).map_err(|_| TryRefusal::OutOfMemory);
            (given_back(rt, renderer, held, frame), seen)
        }
        Err(refusal) => (held, Err(refusal)),
    }
}

/// What a frame of at least so many entries shows. It is given back.
pub fn drawn_from<R: Wait, H: TestHook>(
    rt: &R,
    alloc: Global,
    renderer: &Renderer,
    pass: RenderPass,
    least: usize,
    size: &Size,
    hook: &H,
) -> (RenderPass, Result<Shown, FromRefusal>)
    requires idle { IsIdle renderer.now pass }
    requires size { IsFrameSize size.now }
    ensures { IsIdle renderer.now result.0 }
{
    let (held, frame) = held_from(rt, alloc, renderer, pass, least, size, hook);
    match frame {
        Ok(frame) => {
            let seen = painted(alloc, &frame).map_err(|_| FromRefusal::OutOfMemory);
            (given_back(rt, renderer, held, frame), seen)
        }
        Err(refusal) => (held, Err(refusal)),
    }
}

/// The totals.
pub fn counted<R: Wait>(rt: &R, renderer: &Renderer, pass: RenderPass) -> (RenderPass, [Totals; 3])
    requires { IsIdle renderer.now pass }
    ensures { IsIdle renderer.now result.0 }
{
    let (after, totals) = renderer.totals(rt, pass);
    proof_idle(renderer, &after);
    (after, totals)
}

/// A new budget.
pub fn limited<R: Wait>(
    rt: &R,
    alloc: Global,
    renderer: &Renderer,
    pass: RenderPass,
    budget: u64,
) -> RenderPass
    requires idle { IsIdle renderer.now pass }
    requires budget { budget ≤ max_budget }
    ensures { IsIdle renderer.now result }
{
    let after = renderer.set_limits(rt, alloc, pass, budget);
    proof_idle(renderer, &after);
    after
}

/// A hard limit of a cost, in which each mask that is being made counts one.
pub fn hard_limited<R: Wait>(
    rt: &R,
    renderer: &Renderer,
    pass: RenderPass,
    cost: u64,
) -> (RenderPass, HardSet)
    requires idle { IsIdle renderer.now pass }
    requires cost { cost ≤ max_budget }
    ensures { IsIdle renderer.now result.0 }
{
    let hard = HardLimit { cost, making: 1 };
    let (after, set) = renderer.set_hard_limit(rt, pass, Some(hard));
    proof_idle(renderer, &after);
    (after, set)
}

/// Makes the masks of the instant of all frames.
pub fn warmed<R: Wait, H: TestHook>(
    rt: &R,
    alloc: Global,
    renderer: &Renderer,
    pass: RenderPass,
    size: &Size,
    hook: &H,
) -> (RenderPass, Mem<Prefetched>)
    requires idle { IsIdle renderer.now pass }
    requires size { IsFrameSize size.now }
    ensures { IsIdle renderer.now result.0 }
{
    let (after, warmed) = renderer.warm(rt, alloc, pass, &[INSTANT], size, hook);
    proof_idle(renderer, &after);
    (after, warmed)
}

//! Tries for a frame beside threads that wait for its mask, which another one is held to make.

ghost use Rattle.std.specs.Prelude.{IfSome};
ghost use Rattle.renderer_tests.specs.Passes.{AreFourIdle, IsIdle};

use crate::calls::{TryCall, tried};
use crate::crew::{Drawer, Four, work_by_eight};
use crate::gates::{Gate, LOOKS};
use crate::inputs::WIDE_FRAME;
use crate::rows::tell;
use crossbeam_utils::Backoff;
use renderer::{Again, RenderPass, Renderer, TryRefusal};
use std::alloc::Global;
use std::sync::Wait;
use std::thread::{Threads, join_mut};

/// Whether another pass had a turn that the try wanted.
fn is_out(answer: &Result<usize, TryRefusal>) -> bool {
    match answer {
        Err(TryRefusal::Again(again)) => matches!(again, Again::Track | Again::Cache),
        _ => false,
    }
}

/// Tries until no other pass has a turn that it wants, at most so often. It tells of how many entries the frame is, or why there is none.
fn try_at_turns<R: Wait + Print>(
    rt: &R,
    alloc: Global,
    renderer: &Renderer,
    pass: RenderPass,
    name: &str,
    call: TryCall,
) -> RenderPass
    requires { IsIdle renderer.now pass }
    ensures { IsIdle renderer.now result }
{
    let backoff = Backoff::new();
    let mut mine = pass;
    for _ in 0..LOOKS {
        let (next, shown) = tried(rt, alloc, renderer, mine, &WIDE_FRAME, call);
        mine = next;
        let answer = shown.map(|shown| shown.n);
        if !is_out(&answer) {
            tell(rt, name, &answer);
            break;
        }
        backoff.snooze();
    }
    mine
}

/// Tries by each call while the maker is held.
fn try_all<R: Wait + Print>(
    rt: &R,
    alloc: Global,
    renderer: &Renderer,
    pass: RenderPass,
    gate: &Gate,
) -> RenderPass
    requires { IsIdle renderer.now pass }
    ensures { IsIdle renderer.now result }
{
    tell(rt, "all have fed and a maker is held", &gate.awaits_held());
    let (one, other) = (TryCall::TryFrame, TryCall::TryFrameTelling);
    let pass = try_at_turns(rt, alloc, renderer, pass, "try_frame meanwhile", one);
    let pass = try_at_turns(
        rt,
        alloc,
        renderer,
        pass,
        "try_frame_telling meanwhile",
        other,
    );
    let (one, other) = (TryCall::FrameWithin, TryCall::FrameWithinTelling);
    let pass = try_at_turns(rt, alloc, renderer, pass, "frame_within meanwhile", one);
    let pass = try_at_turns(
        rt,
        alloc,
        renderer,
        pass,
        "frame_within_telling meanwhile",
        other,
    );
    gate.let_go();
    pass
}

/// What the thread does that tries.
fn try_beside<R: Wait + Print>(
    rt: &R,
    alloc: Global,
    renderer: &Renderer,
    drawer: &mut Drawer,
    gate: &Gate,
)
    requires { IfSome drawer.old.pass (IsIdle renderer.now) }
    ensures { IfSome drawer.new.pass (IsIdle renderer.now) }
{
    let Some(pass) = drawer.pass.take() else {
        return;
    };
    let pass = try_all(rt, alloc, renderer, pass, gate);
    let before = drawer.pass.replace(pass);
    let None = before else { unreachable!() };
}

/// Eight threads that feed and draw, and one that tries.
pub fn work_and_try<R: Threads + Wait + Sync + Print>(
    rt: &R,
    alloc: Global,
    renderer: &Renderer,
    left: &mut Four,
    right: &mut Four,
    drawer: &mut Drawer,
    gate: &Gate,
)
    requires left { AreFourIdle renderer.now left.old }
    requires right { AreFourIdle renderer.now right.old }
    requires one { IfSome drawer.old.pass (IsIdle renderer.now) }
    ensures left { AreFourIdle renderer.now left.new }
    ensures right { AreFourIdle renderer.now right.new }
    ensures one { IfSome drawer.new.pass (IsIdle renderer.now) }
{
    join_mut(
        rt,
        &mut ||
            requires left { AreFourIdle renderer.now left.now }
            requires right { AreFourIdle renderer.now right.now }
        { work_by_eight(rt, alloc, renderer, left, right, gate) },
        &mut || try_beside(rt, alloc, renderer, drawer, gate),
    );
}

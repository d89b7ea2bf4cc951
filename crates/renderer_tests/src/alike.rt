//! Frames told apart.

ghost use Rattle.renderer_tests.specs.Passes.{IsIdle};

use crate::calls::{feed_letter, given_back, held_frame};
use crate::inputs::{SMALL, SMALL_FRAME, opened};
use crate::lending::{lend, take_back};
use crate::rows::tell;
use renderer::{Frame, RenderPass, Renderer};
use std::alloc::Global;
use std::sync::Wait;
use test_hook::NoHook;

/// Whether a frame shows the same as one of now.
fn compared<R: Wait + Print>(
    rt: &R,
    alloc: Global,
    renderer: &Renderer,
    pass: RenderPass,
    frame: &Frame,
    call: &str,
) -> RenderPass
    requires { IsIdle renderer.now pass }
    ensures { IsIdle renderer.now result }
{
    let (held, other) = held_frame(rt, alloc, renderer, pass, &SMALL_FRAME, &NoHook);
    match other {
        Ok(other) => {
            tell(rt, call, &frame.is_same_as(&other));
            given_back(rt, renderer, held, other)
        }
        Err(_) => held,
    }
}

/// One pass holds a frame, and the other has frames before an event more and behind it.
fn both_compared<R: Wait + Print>(
    rt: &R,
    alloc: Global,
    renderer: &Renderer,
    one: RenderPass,
    other: RenderPass,
) -> (RenderPass, RenderPass)
    requires one { IsIdle renderer.now one }
    requires other { IsIdle renderer.now other }
    ensures one { IsIdle renderer.now result.0 }
    ensures other { IsIdle renderer.now result.1 }
{
    let (one, _answer) = feed_letter(rt, alloc, renderer, one, 0);
    let (held, frame) = held_frame(rt, alloc, renderer, one, &SMALL_FRAME, &NoHook);
    match frame {
        Ok(frame) => {
            let other = compared(
                rt,
                alloc,
                renderer,
                other,
                &frame,
                "is_same_as, nothing changed",
            );
            let (other, _answer) = feed_letter(rt, alloc, renderer, other, 32);
            let other = compared(
                rt,
                alloc,
                renderer,
                other,
                &frame,
                "is_same_as, an event more",
            );
            (given_back(rt, renderer, held, frame), other)
        }
        Err(_) => (held, other),
    }
}

/// Frames of a new renderer.
pub fn run_alike<R: Wait + Print>(rt: &R, alloc: Global) {
    let Some((renderer, first)) = opened(alloc, SMALL, 1_000_000) else {
        return;
    };
    let (first, one) = lend(&renderer, first);
    let Some(one) = one else {
        renderer.close(first);
        return;
    };
    let (first, other) = lend(&renderer, first);
    let first = match other {
        Some(other) => {
            let (one, other) = both_compared(rt, alloc, &renderer, one, other);
            let first = take_back(&renderer, first, Some(other));
            take_back(&renderer, first, Some(one))
        }
        None => take_back(&renderer, first, Some(one)),
    };
    renderer.close(first);
}

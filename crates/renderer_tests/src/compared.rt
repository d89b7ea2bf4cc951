//! Frames compared with pictures that one thread makes alone.

ghost use Rattle.renderer_tests.specs.Passes.{IsIdle};

use crate::calls::{Shown, drawn, feed_letter};
use crate::inputs::{WIDE, WIDE_FRAME, opened};
use crate::lending::{lend, take_back};
use ass_num::{Mem, OutOfMemory};
use renderer::{RenderPass, Renderer};
use std::alloc::Global;
use std::sync::Wait;
use test_hook::NoHook;

/// What a frame shows behind feeds of the events of these numbers.
fn fed_and_drawn<R: Wait>(
    rt: &R,
    alloc: Global,
    renderer: &Renderer,
    pass: RenderPass,
    orders: &[u32],
) -> (RenderPass, Mem<Shown>)
    requires { IsIdle renderer.now pass }
    ensures { IsIdle renderer.now result.0 }
{
    let mut mine = pass;
    for order in orders {
        let (next, _answer) = feed_letter(rt, alloc, renderer, mine, *order);
        mine = next;
    }
    drawn(rt, alloc, renderer, mine, &WIDE_FRAME, &NoHook)
}

/// What a frame shows of the events of these numbers on a renderer of its own.
fn drawn_alone<R: Wait>(rt: &R, alloc: Global, orders: &[u32]) -> Mem<Shown> {
    let Some((renderer, first)) = opened(alloc, WIDE, 1_000_000) else {
        return Err(OutOfMemory);
    };
    let (first, lent) = lend(&renderer, first);
    let (lent, shown) = match lent {
        Some(pass) => {
            let (after, shown) = fed_and_drawn(rt, alloc, &renderer, pass, orders);
            (Some(after), shown)
        }
        None => (None, Err(OutOfMemory)),
    };
    let first = take_back(&renderer, first, lent);
    renderer.close(first);
    shown
}

/// Whether a frame shows what a frame of its entries shows on a renderer of its own. These are the ReadOrders of all entries.
pub fn is_as_alone<R: Wait>(rt: &R, alloc: Global, orders: &[u32], shown: &Shown) -> bool {
    if shown.n > orders.len() {
        return false;
    }
    match drawn_alone(rt, alloc, &orders[..shown.n]) {
        Ok(alone) => alone.n == shown.n && alone.canvas.pixels() == shown.canvas.pixels(),
        Err(_) => false,
    }
}

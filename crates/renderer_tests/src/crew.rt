//! Eight threads, each of which feeds and draws with a pass of its own.

ghost use Rattle.std.specs.Prelude.{IfSome};
ghost use Rattle.renderer_tests.specs.Passes.{AreFourIdle, IsFirstOfRenderer, IsIdle, IsPairIdle};

use crate::calls::{Shown, drawn, feed_letter};
use crate::compared::is_as_alone;
use crate::inputs::WIDE_FRAME;
use crate::lending::{lend, take_back};
use renderer::{RenderPass, Renderer};
use std::alloc::Global;
use std::sync::Wait;
use std::thread::{Threads, join_mut};
use test_hook::{HookPoint, TestHook};

/// So many events are fed by each thread.
const EVENTS: u32 = 4;

/// A thread: its pass, its number, and how many of its frames were right.
pub struct Drawer {
    pub pass: Option<RenderPass>,
    pub number: u32,
    pub right: u32,
}

/// Two threads.
pub struct Pair {
    pub left: Drawer,
    pub right: Drawer,
}

/// Four threads.
pub struct Four {
    pub left: Pair,
    pub right: Pair,
}

/// Whether a frame has more entries than the one before, and shows what one thread makes of them alone.
fn is_right<R: Wait>(
    rt: &R,
    alloc: Global,
    renderer: &Renderer,
    pass: RenderPass,
    before: usize,
    shown: &Shown,
) -> (RenderPass, bool)
    requires { IsIdle renderer.now pass }
    ensures { IsIdle renderer.now result.0 }
{
    let (after, orders) = renderer.orders(rt, alloc, pass);
    match orders {
        Ok(orders) => {
            let right = before < shown.n && is_as_alone(rt, alloc, orders.as_slice(), shown);
            (after, right)
        }
        Err(_) => (after, false),
    }
}

/// Feeds an event and draws. Answers of how many entries the frame is, if it is right.
fn feed_and_draw<R: Wait, H: TestHook>(
    rt: &R,
    alloc: Global,
    renderer: &Renderer,
    pass: RenderPass,
    order: u32,
    before: usize,
    hook: &H,
) -> (RenderPass, Option<usize>)
    requires { IsIdle renderer.now pass }
    ensures { IsIdle renderer.now result.0 }
{
    let (fed, _answer) = feed_letter(rt, alloc, renderer, pass, order);
    hook.at(HookPoint::AfterFeed(order));
    let (next, shown) = drawn(rt, alloc, renderer, fed, &WIDE_FRAME, hook);
    match shown {
        Ok(shown) => {
            let (after, right) = is_right(rt, alloc, renderer, next, before, &shown);
            (after, if right { Some(shown.n) } else { None })
        }
        Err(_) => (next, None),
    }
}

/// Feeds the events of a thread, and draws behind each. Answers how many frames were right.
fn draw_all<R: Wait, H: TestHook>(
    rt: &R,
    alloc: Global,
    renderer: &Renderer,
    pass: RenderPass,
    number: u32,
    hook: &H,
) -> (RenderPass, u32)
    requires { IsIdle renderer.now pass }
    ensures { IsIdle renderer.now result.0 }
{
    let mut mine = pass;
    let mut before = 0usize;
    let mut right = 0u32;
    for i in 0..EVENTS {
        let order = number.wrapping_mul(EVENTS).wrapping_add(i);
        let (next, n) = feed_and_draw(rt, alloc, renderer, mine, order, before, hook);
        mine = next;
        if let Some(n) = n {
            before = n;
            right = right.wrapping_add(1);
        }
    }
    (mine, right)
}

/// What one thread does.
fn work<R: Wait, H: TestHook>(
    rt: &R,
    alloc: Global,
    renderer: &Renderer,
    drawer: &mut Drawer,
    hook: &H,
)
    requires { IfSome drawer.old.pass (IsIdle renderer.now) }
    ensures { IfSome drawer.new.pass (IsIdle renderer.now) }
{
    let Some(pass) = drawer.pass.take() else {
        return;
    };
    let (pass, right) = draw_all(rt, alloc, renderer, pass, drawer.number, hook);
    drawer.right = right;
    let before = drawer.pass.replace(pass);
    let None = before else { unreachable!() };
}

/// Two threads at once.
fn work_by_pair<R: Threads + Wait + Sync, H: TestHook + Sync>(
    rt: &R,
    alloc: Global,
    renderer: &Renderer,
    pair: &mut Pair,
    hook: &H,
)
    requires { IsPairIdle renderer.now pair.old }
    ensures { IsPairIdle renderer.now pair.new }
{
    let Pair { left, right } = pair;
    join_mut(
        rt,
        &mut || work(rt, alloc, renderer, left, hook),
        &mut || work(rt, alloc, renderer, right, hook),
    );
}

/// Four threads at once.
fn work_by_four<R: Threads + Wait + Sync, H: TestHook + Sync>(
    rt: &R,
    alloc: Global,
    renderer: &Renderer,
    four: &mut Four,
    hook: &H,
)
    requires { AreFourIdle renderer.now four.old }
    ensures { AreFourIdle renderer.now four.new }
{
    let Four { left, right } = four;
    join_mut(
        rt,
        &mut ||
            requires { IsPairIdle renderer.now left.now }
        { work_by_pair(rt, alloc, renderer, left, hook) },
        &mut ||
            requires { IsPairIdle renderer.now right.now }
        { work_by_pair(rt, alloc, renderer, right, hook) },
    );
}

/// Eight threads at once.
pub fn work_by_eight<R: Threads + Wait + Sync, H: TestHook + Sync>(
    rt: &R,
    alloc: Global,
    renderer: &Renderer,
    left: &mut Four,
    right: &mut Four,
    hook: &H,
)
    requires left { AreFourIdle renderer.now left.old }
    requires right { AreFourIdle renderer.now right.old }
    ensures left { AreFourIdle renderer.now left.new }
    ensures right { AreFourIdle renderer.now right.new }
{
    join_mut(
        rt,
        &mut ||
            requires { AreFourIdle renderer.now left.now }
        { work_by_four(rt, alloc, renderer, left, hook) },
        &mut ||
            requires { AreFourIdle renderer.now right.now }
        { work_by_four(rt, alloc, renderer, right, hook) },
    );
}

/// A thread of this number, with a pass of its own.
pub fn hire(renderer: &Renderer, first: RenderPass, number: u32) -> (RenderPass, Drawer)
    requires { IsFirstOfRenderer renderer.now first }
    ensures first { IsFirstOfRenderer renderer.now result.0 }
    ensures idle { IfSome result.1.pass (IsIdle renderer.now) }
{
    let (first, pass) = lend(renderer, first);
    let drawer = Drawer {
        pass,
        number,
        right: 0,
    };
    (first, drawer)
}

/// Two threads, from this number on.
fn hire_pair(renderer: &Renderer, first: RenderPass, number: u32) -> (RenderPass, Pair)
    requires { IsFirstOfRenderer renderer.now first }
    ensures first { IsFirstOfRenderer renderer.now result.0 }
    ensures idle { IsPairIdle renderer.now result.1 }
{
    let (first, left) = hire(renderer, first, number);
    let (first, right) = hire(renderer, first, number.wrapping_add(1));
    (first, Pair { left, right })
}

/// Four threads, from this number on.
pub fn hire_four(renderer: &Renderer, first: RenderPass, number: u32) -> (RenderPass, Four)
    requires { IsFirstOfRenderer renderer.now first }
    ensures first { IsFirstOfRenderer renderer.now result.0 }
    ensures idle { AreFourIdle renderer.now result.1 }
{
    let (first, left) = hire_pair(renderer, first, number);
    let (first, right) = hire_pair(renderer, first, number.wrapping_add(2));
    (first, Four { left, right })
}

/// Takes a thread's pass in again, and tells how many of its frames were right.
pub fn dismiss(renderer: &Renderer, first: RenderPass, drawer: Drawer) -> (RenderPass, u32)
    requires first { IsFirstOfRenderer renderer.now first }
    requires idle { IfSome drawer.pass (IsIdle renderer.now) }
    ensures { IsFirstOfRenderer renderer.now result.0 }
{
    let Drawer {
        pass,
        number: _,
        right,
    } = drawer;
    (take_back(renderer, first, pass), right)
}

/// The same of two threads.
fn dismiss_pair(renderer: &Renderer, first: RenderPass, pair: Pair) -> (RenderPass, u32)
    requires first { IsFirstOfRenderer renderer.now first }
    requires idle { IsPairIdle renderer.now pair }
    ensures { IsFirstOfRenderer renderer.now result.0 }
{
    let Pair { left, right } = pair;
    let (first, one) = dismiss(renderer, first, left);
    let (first, other) = dismiss(renderer, first, right);
    (first, one.wrapping_add(other))
}

/// The same of four threads.
pub fn dismiss_four(renderer: &Renderer, first: RenderPass, four: Four) -> (RenderPass, u32)
    requires first { IsFirstOfRenderer renderer.now first }
    requires idle { AreFourIdle renderer.now four }
    ensures { IsFirstOfRenderer renderer.now result.0 }
{
    let Four { left, right } = four;
    let (first, one) = dismiss_pair(renderer, first, left);
    let (first, other) = dismiss_pair(renderer, first, right);
    (first, one.wrapping_add(other))
}

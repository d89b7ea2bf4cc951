//! Points where a test can hold one thread.

/// What is made.
#[derive(Clone, Copy, Debug, PartialEq, Eq)]
pub enum ValueKind {
    Outline,
    Mask,
    Composite,
}

/// Where a thread stands: before it makes a value of this kind, after a chunk with this read order
/// was fed, or after the frame of this instant, in milliseconds, was made.
#[derive(Clone, Copy, Debug, PartialEq, Eq)]
pub enum HookPoint {
    BeforeMake(ValueKind),
    AfterFeed(u32),
    AfterFrame(i64),
}

/// A hook that each thread calls at each point. It says nothing of any answer, and returns always.
pub trait TestHook {
    fn at(&self, point: HookPoint);
}

/// A hook that holds nobody.
#[derive(Clone, Copy, Debug)]
pub struct NoHook;

impl TestHook for NoHook {
    fn at(&self, _point: HookPoint) {}
}

//! Hooks that hold threads: one that makes a value, until others have fed and framed, and the first one that feeds or makes, until another does.

use crossbeam_utils::Backoff;
use std::sync::atomic::{AtomicBool, Ordering};
use test_hook::{HookPoint, TestHook};

/// A thread looks so often whether others have got so far.
const LOOKS: u32 = 100_000_000;

fn await_flag(flag: &AtomicBool) -> bool {
    let backoff = Backoff::new();
    for _ in 0..LOOKS {
        if flag.load(Ordering::SeqCst) {
            return true;
        }
        backoff.snooze();
    }
    false
}

/// Holds the first thread that makes a value until the event with ReadOrder 2 was fed and a frame at 20 or at 30 was made, and the
/// thread that fed that event until a value is being made.
#[derive(Drop)]
pub struct HoldingHook {
    making: AtomicBool,
    fed: AtomicBool,
    framed: AtomicBool,
    late: AtomicBool,
}

impl HoldingHook {
    /// Nothing was held yet.
    pub fn new() -> HoldingHook {
        HoldingHook {
            making: AtomicBool::new(false),
            fed: AtomicBool::new(false),
            framed: AtomicBool::new(false),
            late: AtomicBool::new(false),
        }
    }

    /// Whether a thread looked in vain.
    pub fn is_late(&self) -> bool {
        self.late.load(Ordering::SeqCst)
    }

    fn await_all(&self, flags: &[&AtomicBool]) {
        for flag in flags {
            if !await_flag(flag) {
                self.late.store(true, Ordering::SeqCst);
            }
        }
    }
}

impl TestHook for HoldingHook {
    fn at(&self, point: HookPoint) {
        match point {
            HookPoint::BeforeMake(_) => {
                if !self.making.swap(true, Ordering::SeqCst) {
                    self.await_all(&[&self.fed, &self.framed]);
                }
            }
            HookPoint::AfterFeed(2) => {
                self.fed.store(true, Ordering::SeqCst);
                self.await_all(&[&self.making]);
            }
            HookPoint::AfterFrame(20 | 30) => self.framed.store(true, Ordering::SeqCst),
            HookPoint::AfterFeed(_) | HookPoint::AfterFrame(_) => {}
        }
    }
}

/// Holds the first thread that comes to a point of a kind until another one came there.
#[derive(Drop)]
pub struct MeetingHook {
    is_of_feeders: bool,
    begun: AtomicBool,
    met: AtomicBool,
    late: AtomicBool,
}

impl MeetingHook {
    /// Threads meet that have fed an event.
    pub fn of_feeders() -> MeetingHook {
        MeetingHook::of(true)
    }

    /// Threads meet that are going to make a value.
    pub fn of_makers() -> MeetingHook {
        MeetingHook::of(false)
    }

    fn of(is_of_feeders: bool) -> MeetingHook {
        MeetingHook {
            is_of_feeders,
            begun: AtomicBool::new(false),
            met: AtomicBool::new(false),
            late: AtomicBool::new(false),
        }
    }

    /// Whether the first thread looked in vain for another.
    pub fn is_late(&self) -> bool {
        self.late.load(Ordering::SeqCst)
    }

    fn is_met_at(&self, point: HookPoint) -> bool {
        match point {
            HookPoint::AfterFeed(_) => self.is_of_feeders,
            HookPoint::BeforeMake(_) => !self.is_of_feeders,
            HookPoint::AfterFrame(_) => false,
        }
    }
}

impl TestHook for MeetingHook {
    fn at(&self, point: HookPoint) {
        if !self.is_met_at(point) {
            return;
        }
        if self.begun.swap(true, Ordering::SeqCst) {
            self.met.store(true, Ordering::SeqCst);
        } else if !await_flag(&self.met) {
            self.late.store(true, Ordering::SeqCst);
        }
    }
}

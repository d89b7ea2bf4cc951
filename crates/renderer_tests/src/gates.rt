//! A hook that holds the first thread that makes a value.

use crossbeam_utils::Backoff;
use std::sync::atomic::{AtomicBool, AtomicU64, Ordering};
use test_hook::{HookPoint, TestHook, ValueKind};

/// A thread looks so often whether the others have got so far.
pub const LOOKS: u32 = 100_000_000;

/// And waits for so many times more, so that they come to ask for what it makes.
const ROUNDS: u32 = 1_000;

/// Holds the first thread that makes a value until so many events were fed and another one has tried for a frame, and somewhat
/// longer. It counts what is made.
#[derive(Drop)]
pub struct Gate {
    wanted: u64,
    fed: AtomicU64,
    is_tried: AtomicBool,
    is_held: AtomicBool,
    is_late: AtomicBool,
    outlines: AtomicU64,
    masks: AtomicU64,
    composites: AtomicU64,
}

impl Gate {
    /// Nothing was fed, tried for or made yet.
    pub fn new(wanted: u64) -> Gate {
        Gate {
            wanted,
            fed: AtomicU64::new(0),
            is_tried: AtomicBool::new(false),
            is_held: AtomicBool::new(false),
            is_late: AtomicBool::new(false),
            outlines: AtomicU64::new(0),
            masks: AtomicU64::new(0),
            composites: AtomicU64::new(0),
        }
    }

    /// Whether a thread was held until the events were fed and another one had tried.
    pub fn has_held(&self) -> bool {
        self.is_held.load(Ordering::SeqCst) && !self.is_late.load(Ordering::SeqCst)
    }

    /// How many outlines, masks and composites threads began to make.
    pub fn makings(&self) -> [u64; 3] {
        [
            self.outlines.load(Ordering::SeqCst),
            self.masks.load(Ordering::SeqCst),
            self.composites.load(Ordering::SeqCst),
        ]
    }

    /// Whether the events were fed and this was so too, before it had looked in vain.
    fn sees(&self, flag: &AtomicBool) -> bool {
        let backoff = Backoff::new();
        for _ in 0..LOOKS {
            if self.fed.load(Ordering::SeqCst) >= self.wanted && flag.load(Ordering::SeqCst) {
                return true;
            }
            backoff.snooze();
        }
        false
    }

    /// Whether the events were fed and a thread is held, before it had looked in vain.
    pub fn awaits_held(&self) -> bool {
        self.sees(&self.is_held)
    }

    /// Another thread has tried for a frame.
    pub fn let_go(&self) {
        self.is_tried.store(true, Ordering::SeqCst);
    }

    /// Holds the thread.
    fn hold(&self) {
        if !self.sees(&self.is_tried) {
            self.is_late.store(true, Ordering::SeqCst);
        }
        let backoff = Backoff::new();
        for _ in 0..ROUNDS {
            backoff.snooze();
        }
    }

    /// Counts what is made, and holds the first thread.
    fn making(&self, kind: ValueKind) {
        let count = match kind {
            ValueKind::Outline => &self.outlines,
            ValueKind::Mask => &self.masks,
            ValueKind::Composite => &self.composites,
        };
        count.fetch_add(1, Ordering::SeqCst);
        if !self.is_held.swap(true, Ordering::SeqCst) {
            self.hold();
        }
    }
}

impl TestHook for Gate {
    fn at(&self, point: HookPoint) {
        match point {
            HookPoint::BeforeMake(kind) => self.making(kind),
            HookPoint::AfterFeed(_) => {
                self.fed.fetch_add(1, Ordering::SeqCst);
            }
            HookPoint::AfterFrame(_) => {}
        }
    }
}

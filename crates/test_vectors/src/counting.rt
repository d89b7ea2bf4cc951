//! A hook that counts makings.

use std::sync::atomic::{AtomicU64, Ordering};
use test_hook::{HookPoint, TestHook, ValueKind};

/// How many values of each kind threads began to make.
#[derive(Drop)]
pub struct Makings {
    regions: AtomicU64,
    masks: AtomicU64,
    composites: AtomicU64,
}

impl Makings {
    /// Nothing was begun yet.
    pub fn new() -> Makings {
        Makings {
            regions: AtomicU64::new(0),
            masks: AtomicU64::new(0),
            composites: AtomicU64::new(0),
        }
    }

    /// The counts of regions, of masks and of composites.
    pub fn counts(&self) -> [u64; 3] {
        [
            self.regions.load(Ordering::SeqCst),
            self.masks.load(Ordering::SeqCst),
            self.composites.load(Ordering::SeqCst),
        ]
    }
}

impl TestHook for Makings {
    fn at(&self, point: HookPoint) {
        let count = match point {
            HookPoint::BeforeMake(ValueKind::Outline) => &self.regions,
            HookPoint::BeforeMake(ValueKind::Mask) => &self.masks,
            HookPoint::BeforeMake(ValueKind::Composite) => &self.composites,
            _ => return,
        };
        count.fetch_add(1, Ordering::SeqCst);
    }
}

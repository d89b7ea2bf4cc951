//! What one look for a pin finds.
ghost use Rattle.std.specs.Prelude.{◌≡◌};
ghost use Rattle.evict_core.specs.Looks.{idle_of};

use std::sync::Arc;

/// What a look for a pin of a key found: nothing; the number that makes the key; that it has all its pins; that there was
/// no `Arc` more; or the value, which has one pin more now, and what it cost if it might have been evicted.
#[derive(Drop)]
pub enum Look<V> {
    Absent,
    Making(u32),
    Full,
    OutOfMemory,
    Pinned(Arc<V>, Option<u64>),
}

impl<V> Look<V> {
    /// What the value cost, where it was pinned and might have been evicted before.
    pub fn idle_cost(&self) -> Option<u64>
        ensures { result ≡ idle_of self.now }
    {
        match self {
            Look::Pinned(_, idle) => *idle,
            Look::Absent => None,
            Look::Making(_) => None,
            Look::Full => None,
            Look::OutOfMemory => None,
        }
    }
}

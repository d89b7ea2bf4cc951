//! What a cache counts.
ghost use Rattle.std.specs.Prelude.{◌≡◌, ◌+◌, min};
ghost use Rattle.evict_core.specs.Machine.{raised};

/// One more, up to the last value.
pub(crate) fn raise(count: u64) -> u64
    ensures { result ≡ raised count }
{
    count.saturating_add(1)
}

/// How often each kind of step was made. A count stands at its last value once it reaches it.
#[derive(Clone, Copy, Debug, PartialEq, Eq)]
pub struct Counts {
    pub hits: u64,
    pub claims: u64,
    pub fills: u64,
    pub fails: u64,
    pub crowded: u64,
    pub evictions: u64,
}

/// The counts of a cache, and what its entries are at the moment: how many there are, what those cost that no pin holds, and what
/// the others cost, each entry counted once.
#[derive(Clone, Copy, Debug, PartialEq, Eq)]
pub struct Totals {
    pub entries: u32,
    pub unpinned: u64,
    pub pinned: u64,
    pub budget: u64,
    pub counts: Counts,
}

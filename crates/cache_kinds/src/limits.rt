//! How many entries a cache may have.
ghost use Rattle.std.specs.Prelude.{◌≡◌, ◌≤◌};
ghost use Rattle.evict_core.specs.Machine.{max_entries};
ghost use Rattle.flight_cache.specs.Shards.{min_cache_entries};
ghost use Rattle.cache_kinds.specs.Limits as limits;

/// How much budget an entry stands for.
const BUDGET_OF_ENTRY: u64 = 1024;

const MIN_ENTRIES: u64 = 16;

const MAX_ENTRIES: u64 = 65_536;

/// The limit of entries that goes with a budget of bytes: one for each 1,024 of them, at least 16 and at most 65,536.
pub fn entry_limit(budget: u64) -> u32
    ensures value { result ≡ limits.entry_limit budget }
    ensures least { min_cache_entries ≤ result }
    ensures most { result ≤ max_entries }
{
    (budget / BUDGET_OF_ENTRY).max(MIN_ENTRIES).min(MAX_ENTRIES) as u32
}

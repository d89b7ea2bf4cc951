//! Laws of totals. Each function does nothing: its contract is the law.
ghost use Rattle.mask_caches.specs.Laws.{CachesBalance, CachesCountAsks, CompositesCountAsks, ShardsBalance, ShardsCountAsks, ThreeBalance};

use flight_cache::Made;

/// Where every number gave back all that it took in a shard, each claim was filled or failed, and what was evicted had been
/// filled. The hits, the claims and the crowded asks together are at least the asks, where a pin of several keys is an ask
/// for each.
pub fn totals_of_shards<M: Made>()
    ensures balance { ShardsBalance M.Key.eq M.meaning }
    ensures asks { ShardsCountAsks M.Key.eq M.meaning }
{}

/// The same of the sums of a cache's four shards.
pub fn totals_of_caches<M: Made>()
    ensures balance { CachesBalance M.Key.eq M.meaning }
    ensures asks { CachesCountAsks M.Key.eq M.meaning }
{}

/// The balance of each of the three caches, and the asks of that of composed masks.
pub fn totals_of_three()
    ensures balance { ThreeBalance }
    ensures asks { CompositesCountAsks }
{}

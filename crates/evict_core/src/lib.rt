//! The entries of a cache: which are kept, which are evicted, and the laws of every history.
#![tactic(auto)]

mod ask;
mod counts;
mod entries;
mod freed;
mod hard_limit;
mod laws;
mod ledger;
mod look;
mod recency;
mod stored;

pub use ask::Ask;
pub use counts::{Counts, Totals};
pub use entries::Entries;
pub use freed::Freed;
pub use hard_limit::HardLimit;
pub use laws::{budget, counted, filled, hard, legal, limit, pin_all, pins, single_fill, trims};

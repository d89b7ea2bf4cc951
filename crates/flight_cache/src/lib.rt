//! A cache that threads share: one of them makes a value, and the others wait for it.
//!
//! Each key is in one of four shards, each behind a turn of its own. What threads do to a shard is one history, which
//! is legal for the cache machine of `evict_core`. docs/CACHES.md explains the words.
#![tactic(auto)]

mod bell;
mod boxed_entries;
mod budgets;
mod cache;
mod holds;
mod kept;
pub mod laws;
mod made;
mod pass;
mod pinning;
mod pins;
mod shard;

pub use budgets::Budgets;
pub use cache::Cache;
pub use kept::{Entry, Opening};
pub use made::{Made, ShardSum, entry_cost};
pub use pass::CachePass;
pub use pinning::PinRefusal;
pub use pins::{Asked, Pin, Ticket};

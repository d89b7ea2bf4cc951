//! All that threads can do together, as one pure program: a world of one track, twelve shards and the actors that use them.
//! One thread makes the steps of all actors, in any order.
#![tactic(auto)]

mod actor_caches;
mod answer;
pub mod cache_laws;
mod caching;
mod holding;
pub mod laws;
mod looking;
mod painting;
mod steps;
mod world;
mod world_keys;
mod world_values;

pub use actor_caches::ActorCaches;
pub use answer::ActorAnswer;
pub use holding::{Holding, holding_place};
pub use steps::{Reply, Step};
pub use world::{World, one_step, open, run};
pub use world_keys::{WorldKey, WorldMade, WorldValue, first_shard, world_shard};
pub use world_values::made_value;

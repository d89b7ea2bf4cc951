//! The caches of regions, masks and composed masks, which threads share.
#![tactic(auto)]

mod ahead;
mod caches;
mod calls;
mod composites;
mod first_keys;
mod lease;
mod lending;
mod masks;
mod passes;
mod ready;
mod regions;
pub mod total_laws;
pub mod wait_laws;
mod warming;

pub use ahead::Ahead;
pub use caches::Caches;
pub use calls::HardSet;
pub use lease::Lease;
pub use passes::CachesPass;
pub use warming::Prefetched;

//! The caches of regions, masks and composed masks of one thread, and painting plans through them.
#![tactic(auto)]

mod cache;
mod images;
mod local;
mod making;
mod paint;
mod values;

pub use local::LocalCaches;

//! Regions of samples: those inside an outline, and those of two regions together.
#![tactic(auto)]

mod carried;
mod cut;
mod edges;
mod either;
mod region;
mod row;
mod sweep;

pub use either::union;
pub use region::region_of;

//! Masks of regions, and the values of masks.
#![tactic(auto)]

mod axis;
mod columns;
mod extent;
mod reading;
mod region_mask;
mod steps;
mod sum;

pub use extent::Extent;
pub use reading::at;
pub use region_mask::cover;
pub use sum::{MaskSum, sum_of};

//! Makes the values of keys: regions, masks and composed masks.
#![tactic(auto)]

mod composites;
mod costs;
mod laws;
mod masks;
mod outlines;
mod regions;

pub use composites::made_composite;
pub use costs::{mask_cost, region_cost};
pub use laws::{parts_make_their_composite, summed_masks_are_sums};
pub use masks::{made_mask, mask_from, mask_of_region};
pub use outlines::made_outline;
pub use regions::{border_from, made_border};

//! What the caches of regions, masks and composed masks keep. All their values are made from the same fonts.
#![tactic(auto)]

mod composites;
mod kinds;
mod limits;
mod masks;
mod outlines;
mod paths;
mod words;

pub use composites::add_composite_numbers;
pub use kinds::{CompositeMade, MaskMade, RegionMade};
pub use limits::entry_limit;
pub use masks::{add_mask_numbers, add_region_numbers};
pub use outlines::add_outline_numbers;

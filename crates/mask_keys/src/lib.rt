//! The keys of outlines, masks and composed masks, and the draws that name them.
#![tactic(auto)]

mod composite_key;
mod copies;
mod images;
mod key_lists;
mod laws;
mod mask_key;
mod outline_key;
mod plans;
mod region_key;
mod shared;
mod value_laws;

pub use composite_key::{CompositeKey, Part};
pub use copies::{
    key_copy, mask_key_copy, outline_key_copy, region_key_copy, region_key_of, unwidened,
};
pub use key_lists::plan_keys;
pub use laws::{equal_hashes, equal_keys};
pub use mask_key::MaskKey;
pub use outline_key::OutlineKey;
pub use plans::{Clip, Draw, Plan};
pub use region_key::RegionKey;
pub use shared::Shared;
pub use value_laws::{
    costs_are_words, equal_keys_have_one_value, masks_can_be_added, masks_cover_their_samples,
    regions_have_one_form, regions_have_their_samples,
};

//! The key of a composite.

use crate::mask_key::MaskKey;
use ass_num::Items;

/// A mask within a composite.
#[derive(Clone, Debug, PartialEq, Eq, Hash, Drop)]
pub struct Part {
    pub mask: MaskKey,
    /// How many pixels the mask is moved to the right, within 20,480 of 0.
    pub dx: i32,
    /// How many it is moved down.
    pub dy: i32,
}

/// The masks whose sum is one mask.
#[derive(Clone, Debug, PartialEq, Eq, Hash, Drop)]
pub struct CompositeKey {
    pub parts: Items<Part>,
}

//! The key of a region.

use crate::outline_key::OutlineKey;

/// All that the region of an outline's samples, widened or not, depends on besides the fonts.
#[derive(Clone, Debug, PartialEq, Eq, Hash, Drop)]
pub struct RegionKey {
    pub outline: OutlineKey,
    /// The horizontal radius of the border in samples, at most 1,600; 0 by 0 is no border.
    pub rx: u32,
    /// The vertical radius, likewise.
    pub ry: u32,
}

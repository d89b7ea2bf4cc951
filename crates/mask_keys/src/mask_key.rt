//! The key of a mask.

use crate::outline_key::OutlineKey;

/// All that a mask depends on besides the fonts.
#[derive(Clone, Debug, PartialEq, Eq, Hash, Drop)]
pub struct MaskKey {
    pub outline: OutlineKey,
    /// The horizontal radius of the border in samples, at most 1,600; 0 by 0 is no border.
    pub rx: u32,
    /// The vertical radius, likewise.
    pub ry: u32,
    /// How many samples the outline is moved to the right within its pixel, below 16.
    pub px: u8,
    /// How many it is moved down.
    pub py: u8,
    /// How many passes soften the mask, at most 127.
    pub edges: u8,
    /// The radius of the blur in pixels, at most 100; 0 is none.
    pub blur: u8,
}

//! Plain images.

use ass_num::{Mask, Rgba};

/// A mask on the frame, in one colour.
#[derive(Debug, Drop)]
pub struct PlainImage {
    /// The coverage of pixels of the frame. All of them lie in it, and there are some.
    pub mask: Mask,
    pub colour: Rgba,
}

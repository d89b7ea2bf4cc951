//! The size of a picture.

/// The columns and rows of a picture, in pixels.
#[derive(Clone, Copy, Debug, PartialEq, Eq, PartialOrd, Ord, Hash, Default)]
pub struct Size {
    pub w: u32,
    pub h: u32,
}

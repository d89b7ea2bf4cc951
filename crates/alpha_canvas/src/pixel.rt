//! Pixels with alpha.

/// A pixel of a picture with alpha. An `a` of 0 shows nothing, and 255 hides what lies below.
#[derive(Clone, Copy, Debug, PartialEq, Eq, Default)]
pub struct Pixel {
    pub r: u8,
    pub g: u8,
    pub b: u8,
    pub a: u8,
}

/// What the colour of a pixel with alpha says.
#[derive(Clone, Copy, Debug, PartialEq, Eq)]
pub enum AlphaForm {
    /// The colour by itself.
    Straight,
    /// The colour times the alpha.
    Premultiplied,
}

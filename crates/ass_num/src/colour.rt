//! Colours.

/// A colour. An `a` of 0 is opaque and 255 invisible, as scripts write alpha.
#[derive(Clone, Copy, Debug, PartialEq, Eq, Hash, Default)]
pub struct Rgba {
    pub r: u8,
    pub g: u8,
    pub b: u8,
    pub a: u8,
}

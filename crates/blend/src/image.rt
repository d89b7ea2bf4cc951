//! Images.

use crate::stencil::Stencil;
use ass_num::Rgba;

/// A mask at its place in a picture. `M` has the mask.
#[derive(Drop)]
pub struct Image<M> {
    pub mask: M,
    /// The pixel of the picture at which the mask's 0 stands.
    pub x: i32,
    pub y: i32,
    /// The colour of the pixels left of `edge`.
    pub left: Rgba,
    /// The colour of those from `edge` on.
    pub right: Rgba,
    /// The column of the picture at which a sweep stands.
    pub edge: i32,
    /// Where it shows.
    pub stencil: Stencil<M>,
}

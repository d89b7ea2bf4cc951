//! Stencils: clips as drawing takes them, in pixels and with the mask of a drawn clip at hand.

/// Where an image shows. All numbers are pixels of the picture. `M` has the mask of a drawn clip.
#[derive(Drop)]
pub enum Stencil<M> {
    /// Everywhere.
    Free,
    /// From `x1` and `y1` up to but not with `x2` and `y2`; `inverse`: anywhere else.
    Rect {
        x1: i32,
        y1: i32,
        x2: i32,
        y2: i32,
        inverse: bool,
    },
    /// By the mask, whose 0 stands at `x` and `y`: the image's coverage is multiplied by the mask's; `inverse`: by what it leaves.
    Drawn {
        mask: M,
        x: i32,
        y: i32,
        inverse: bool,
    },
}

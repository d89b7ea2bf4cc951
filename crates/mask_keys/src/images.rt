//! Draws as images.

ghost use Rattle.std.specs.Prelude.{◌≡◌};
ghost use Rattle.mask_keys.specs.Pictures.{image_with};

use crate::plans::Draw;
use blend::{Image, Stencil};

impl Draw {
    /// The image of a draw, with what has its mask and with its clip as a stencil.
    pub fn image<M>(&self, mask: M, stencil: Stencil<M>) -> Image<M>
        ensures { result ≡ image_with self.now mask stencil }
    {
        Image {
            mask,
            x: self.x,
            y: self.y,
            left: self.left,
            right: self.right,
            edge: self.edge,
            stencil,
        }
    }
}

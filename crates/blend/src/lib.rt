//! Blending images into a canvas.
#![tactic(auto)]

mod area;
mod as_mask;
mod banding;
mod canvas;
mod drawing;
mod fill;
mod image;
mod laws;
mod painting;
mod placed;
mod span;
mod stencil;

pub use as_mask::AsMask;
pub use banding::paint_bands;
pub use canvas::Canvas;
pub use drawing::draw_rows;
pub use image::Image;
pub use laws::bands_make_the_picture;
pub use painting::paint;
pub use placed::{Placed, cover};
pub use stencil::Stencil;

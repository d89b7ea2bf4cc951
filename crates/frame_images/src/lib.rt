//! The image of a picture in each format: on black, or with alpha.
#![tactic(auto)]

mod alpha;
mod image;

pub use alpha::alpha_pixels;
pub use image::frame_image;

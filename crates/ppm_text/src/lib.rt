//! Images and reports as bytes.
#![tactic(auto)]

mod image;

pub use image::{ppm_bytes, ppm_bytes_in};

//! Pictures with alpha as bytes.
#![tactic(auto)]

mod image;

pub use image::{pam_bytes, pam_bytes_in};

//! Only what changes of the pictures of a script: an image where a picture differs from the one before it, and an index.
#![tactic(auto)]

mod alpha_box;
mod boxes;
mod crop;
mod fault;
mod image;
mod laws;
mod paint;
mod reel;
mod stills;

pub use fault::StillsFault;
pub use laws::stills_show_all;
pub use stills::{end_instant, list_stills, show_stills};

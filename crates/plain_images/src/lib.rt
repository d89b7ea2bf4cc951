//! The images of a frame as plain ones: each a mask that lies in the frame, of one colour, hidden nowhere.
#![tactic(auto)]

mod cutting;
pub mod laws;
mod listing;
mod panes;
mod plain;

pub use listing::plain_images_of;
pub use plain::PlainImage;

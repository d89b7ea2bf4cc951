//! A law of pictures: that events have one at each instant.
#![tactic(auto)]

mod laws;

pub use laws::a_picture_exists;

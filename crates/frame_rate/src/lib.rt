//! Frame rates, and the instants of frames.
#![tactic(auto)]

mod instants;
mod laws;
mod rate;

pub use instants::Instants;
pub use laws::frames_are_on_time;
pub use rate::FrameRate;

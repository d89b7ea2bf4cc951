//! How the work of a play is shared out: the lines that each feeder offers in each round, and the instants of each round.
#![tactic(auto)]

mod batches;
mod instants;
mod laws;
mod renderers;
mod rounds;

pub use batches::offers;
pub use instants::{ahead_instants, instant_at, instant_count};
pub use laws::all_lines_are_offered;
pub use renderers::{painter_count, share_begins, share_ends};
pub use rounds::{feeding_rounds, has_too_many_frames, image_rounds};

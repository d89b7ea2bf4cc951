//! What changed between two pictures: between the draws that make them, and between their pixels.
#![tactic(auto)]

mod bytes;
mod columns;
mod kinds;
mod laws;
mod pixels;
mod words;

pub use kinds::{ChangeKind, change};
pub use laws::same_plans_have_one_picture;
pub use pixels::{Changed, changed_box};

//! The fonts that a script holds, as fonts of a set.
#![tactic(auto)]

mod laws;
mod read;
mod refusal;

pub use laws::one_embedded_answer;
pub use read::read_embedded_fonts;
pub use refusal::EmbeddedRefusal;

//! The fonts that a script holds in its sections `[Fonts]`.
#![tactic(auto)]

mod coding;
mod font;
mod laws;
mod lines;
mod read;
mod reading;
mod refusal;

pub use font::ScriptFont;
pub use laws::{fonts_are_read_back, fonts_fit_their_text};
pub use read::read_script_fonts;
pub use refusal::ScriptFontsRefusal;

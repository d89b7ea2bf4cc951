//! Scripts of SSA and ASS: header, styles, the fields of event lines, and the Dialogue lines themselves.
#![tactic(auto)]

mod event_format;
mod fields;
mod header_lines;
mod laws;
mod lines;
mod matrix;
mod read;
mod reading;
mod refusal;
mod script;
mod style;
mod style_field;
mod style_format;
mod style_line;
mod words;

pub use laws::numbers_are_read;
pub use matrix::{ColourMatrix, ColourRange, ScriptMatrix, VideoColours, video_colours_named};
pub use read::read_script;
pub use refusal::ScriptRefusal;
pub use script::{EventField, Header, Script, find_style};
pub use style::{Style, built_in_style};

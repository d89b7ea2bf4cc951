//! The images that are kept where only what changes is, as lists for others to read.
#![tactic(auto)]

mod concat;
mod entry;
mod index;
mod text;

pub use concat::concat_text;
pub use entry::StillEntry;
pub use index::json_index;
pub use text::words_index;

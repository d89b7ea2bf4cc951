//! Fonts of outlines: where the numbers of a font lie in the bytes of its file, or the first fault of a file that has none.
#![tactic(auto)]

mod cause;
mod characters;
mod codes;
mod directory;
mod faces;
mod file_bytes;
mod font;
mod laws;
mod maps;
mod names;
mod numbers;
mod read;
mod segments;
mod tables;

pub use cause::{SfntCause, SfntRefusal, Tag};
pub use directory::Table;
pub use faces::{face_count, is_sfnt};
pub use file_bytes::FileBytes;
pub use font::SfntFont;
pub use laws::{first_fault, one_answer};
pub use names::FontNames;
pub use numbers::{Bar, Numbers};
pub use read::{read_faces, read_sfnt};
pub use tables::{Outlines, Tables};

//! PostScript outlines: the table `CFF ` of version 1, and the contours of its glyphs, which charstrings of type 2 draw.
#![tactic(auto)]

mod blanks;
mod cause;
mod decimals;
mod dicts;
mod flex;
mod glyphs;
mod indexes;
mod laws;
mod lists;
mod machine;
mod matrices;
mod operators;
mod pens;
mod read;
mod reals;
mod steps;
mod strokes;
mod subroutines;
mod tokens;
mod transforms;

pub use blanks::cff_is_blank;
pub use cause::{CffCause, CffRefusal};
pub use glyphs::cff_contours;
pub use indexes::Index;
pub use laws::{blanks_are_empty, contours_are_total, faults_are_in};
pub use read::{CffFont, FontDicts, read_cff};
pub use tokens::Span;

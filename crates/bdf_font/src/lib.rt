//! Fonts: bitmaps of Adobe BDF 2.1, or TrueType outlines, as one list of glyphs; or how a file leaves its format.
#![tactic(auto)]

mod bitmap_font;
mod bits;
mod cause;
mod file;
mod font;
mod font_data;
mod glyphs;
mod header;
mod keyword;
mod laws;
mod numbers;
mod outlines;
mod read;
mod reading;
mod sets;
mod words;

pub use cause::{FontCause, FontFileRefusal, FontRefusal};
pub use file::read_fonts;
pub use font::{Font, glyph};
pub use glyphs::{FontGlyph, GlyphShape, Pixels};
pub use laws::{
    bitmap_rings_stay, bitmaps_stay_found, first_fault, last_line_counts, nearest_is_found,
    one_answer,
};
pub use read::read_font;
pub use sets::{FontSet, GlyphPlace, find_font, set_glyph};

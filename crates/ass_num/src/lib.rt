//! Numbers, texts, lists and plain shapes that every other crate names.
#![tactic(auto)]

mod angles;
mod blanks;
mod colour;
mod colour_codes;
mod decimals;
mod digits;
mod flat_lists;
mod floors;
mod geometry;
mod items;
mod items_compare;
mod laws;
mod mask;
mod memory;
mod powers;
mod readings;
mod region;
mod size;
mod text;
pub mod text_blanks;
mod text_compare;
mod times;

pub use angles::{cosine, sine};
pub use blanks::{before_blanks, past_blanks, trimmed};
pub use colour::Rgba;
pub use colour_codes::{colour_of, read_alpha, read_colour, read_style_colour};
pub use decimals::{read_milli, read_whole};
pub use digits::{blanks_before, is_blank};
pub use flat_lists::FlatLists;
pub use floors::{div_floor, hold};
pub use geometry::{Fix, Matrix, Milli, Outline, Path, Point, Seg};
pub use items::Items;
pub use laws::{one_mask, one_region, same_samples};
pub use mask::{Mask, is_mask};
pub use memory::{Mem, OutOfMemory};
pub use powers::power;
pub use readings::{one_reading, wholes_are_read};
pub use region::{Region, Run, is_canonical};
pub use size::Size;
pub use text::Text;
pub use times::read_time;

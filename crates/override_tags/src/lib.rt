//! Texts of events: characters, breaks, and the override tags in blocks.
#![tactic(auto)]

mod block;
mod clip;
mod cut;
mod item;
mod laws;
mod read;
mod scan;
mod single;
mod tag;
mod transform;
pub mod view;

pub use item::{Item, ItemKind};
pub use laws::{one_reading, parts_cover, tags_inside};
pub use read::read_text;
pub use single::whole;
pub use tag::{ClipTag, GradualTag, Tag};
pub use tag_arguments::{Num, Sung};
pub use view::{EventView, Shown, ShownKind, State, Syllable};

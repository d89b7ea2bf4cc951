//! What a player needs for one thread: a script, fonts, the live events of a track and caches; pictures, and lists of plain images.
#![tactic(auto)]

mod alpha;
mod changes;
mod drawing;
mod feeding;
mod fonts;
mod images;
mod listing;
mod opening;
mod player;

pub use player::Player;

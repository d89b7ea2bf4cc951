//! The accepted events of a track: one history, which many threads feed, look at and flush. docs/SHARING.md explains the words.
#![tactic(auto)]

mod answers;
mod blocks;
pub mod laws;
mod live_events;
mod local_feeding;
mod local_track;
mod near_index;
mod scene;
mod track;
mod within;

pub use answers::{Feed, Flushed, FromRefusal, LookRefusal, TrackEntry, TurnOut};
pub use live_events::LiveEvents;
pub use local_track::LocalTrack;
pub use scene::Scene;
pub use track::{Track, TrackPass};

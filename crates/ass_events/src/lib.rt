//! Events: the chunks in which a player feeds them, and the Dialogue lines of scripts.
#![tactic(auto)]

mod event;
mod events;
mod fields;
pub mod laws;
mod line;
pub mod line_laws;
mod numbers;
mod read;
mod words;
mod write;

pub use event::{Chunk, ChunkRefusal, Event};
pub use events::events_of;
pub use line::{chunk_of_line, event_of_line, line_fault};
pub use read::read_chunk;
pub use write::write_chunk;

//! What actors do, and what they are answered.

use ass_events::Chunk;
use ass_num::{Items, Size};
use mask_keys::{CompositeKey, MaskKey, RegionKey};
use test_hook::ValueKind;
use track_history::{Feed, Flushed};

/// A step of an actor, whose number comes first. Where a number of a kind is a place, it counts from 0 among the actor's own.
#[derive(Debug, Drop)]
pub enum Step {
    /// Feeds a chunk to the track.
    Feed(u32, Chunk),
    /// Drops all live events.
    Flush(u32),
    /// Looks at the track, at an instant in milliseconds, for a frame of a size in pixels.
    Look(u32, i64, Size),
    /// Asks for the region of an outline, widened or not.
    AskOutline(u32, RegionKey),
    /// Asks for a mask.
    AskMask(u32, MaskKey),
    /// Asks for a composed mask.
    AskComposite(u32, CompositeKey),
    /// Spends a ticket, by its place, for the value of its key.
    Fill(u32, usize),
    /// Spends a ticket, by its place, for nothing.
    Fail(u32, usize),
    /// Gives back a pin, by its place.
    Unpin(u32, usize),
    /// Sets the limits of a shard of a kind, from 0 to 3: its entries and its budget.
    Limits(ValueKind, u32, u32, u64),
    /// Shows the picture of the last look.
    Show(u32),
}

/// The answer to a step.
#[derive(Debug, Drop)]
pub enum Reply {
    Fed(Feed),
    Flushed(Flushed),
    /// The look saw so many entries of the history.
    Looked(usize),
    Hit,
    Claim,
    /// The actor of this number makes the key's value.
    Flying(u32),
    Crowded,
    Done,
    /// How many entries the look saw, and the bytes of the picture's pixels, row by row.
    Shown(usize, Items<u8>),
    /// The ticket, pin or look that the step names isn't there, or the actor doesn't hold a composed mask of the picture.
    Idle,
}

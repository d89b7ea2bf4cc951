//! Events, chunks, and why one is refused.

ghost use Rattle.std.specs.Prelude.{◌≡◌};
ghost use Rattle.ass_events.specs.declared.event.ChunkRefusal.TheVariants.{OutOfMemory as memory_refusal};

use ass_num::{Items, OutOfMemory, Text};
use ass_script::EventField;

/// An event of a track (ASS specification, "Dialogue event lines").
#[derive(Clone, Debug, PartialEq, Eq, Hash, Drop)]
pub struct Event {
    /// The ReadOrder, which tells the events of a track apart; at most 2,147,483,647.
    pub order: u32,
    pub layer: i32,
    /// The name of its style, as it is written.
    pub style: Text,
    /// The name of the speaker.
    pub name: Text,
    /// The margins in script pixels; 0 where the style's count.
    pub margin_l: i32,
    pub margin_r: i32,
    pub margin_v: i32,
    pub effect: Text,
    /// The text with its override tags.
    pub text: Text,
    /// The first instant at which it is shown, in milliseconds.
    pub start: i64,
    /// For how many milliseconds it is shown.
    pub duration: i64,
}

/// An event as a player feeds it: the fields of its line in one text, and its time beside them, in milliseconds.
#[derive(Clone, Debug, PartialEq, Eq, Hash, Drop)]
pub struct Chunk {
    /// `ReadOrder,Layer,Style,Name,MarginL,MarginR,MarginV,Effect,Text`.
    pub bytes: Items<u8>,
    pub start: i64,
    pub duration: i64,
}

/// Why a chunk or a line gives no event.
#[derive(Clone, Copy, Debug, PartialEq, Eq)]
pub enum ChunkRefusal {
    /// The first field that can't be read, and the byte at which it begins, or the length of all where it is
    /// missing.
    Malformed(EventField, usize),
    /// Memory was wanting.
    OutOfMemory,
}

impl From<OutOfMemory> for ChunkRefusal {
    ghost from_gives = { λ _ refusal. refusal ≡ memory_refusal };

    fn from(_refused: OutOfMemory) -> ChunkRefusal {
        ChunkRefusal::OutOfMemory
    }
}

//! What a track's calls answer, and the entries of its history.

ghost use Rattle.std.specs.Prelude.{◌≡◌, option_map};
ghost use Rattle.track_history.specs.Answers.{entry_of, fed_entry, flushed_entry};

use ass_events::Event;
use ass_script::EventField;
use std::snapshot::Snapshot;
use std::sync::Arc;

/// An entry of a track's history. It takes no memory.
#[derive(Drop)]
pub enum TrackEntry {
    /// The event was accepted.
    Chunk(Snapshot<Event>),
    /// All live events were dropped.
    Flush,
}

/// The answer to a feed. Only `Accepted` changes the history.
#[derive(Clone, Copy, Debug, PartialEq, Eq)]
pub enum Feed {
    /// The event is the history's last entry, at this place.
    Accepted(usize),
    /// A live event has this ReadOrder; its entry is at this place.
    Repeated(usize),
    /// The chunk gives no event: the first field that can't be read, and the byte at which it begins.
    Malformed(EventField, usize),
    /// There are this many live events, which is the most that there can be.
    Full(usize),
    OutOfMemory,
}

impl Feed {
    /// What the feed of the event added to the history.
    pub(crate) fn entry(self, event: &Arc<Event>) -> Option<TrackEntry>
        ensures { option_map entry_of result ≡ fed_entry event.now.value self }
    {
        match self {
            Feed::Accepted(_) => Some(TrackEntry::Chunk(Snapshot::of(&**event))),
            Feed::Repeated(_) | Feed::Malformed(_, _) | Feed::Full(_) | Feed::OutOfMemory => None,
        }
    }
}

/// The answer to a flush. Only `Done` changes the history.
#[derive(Clone, Copy, Debug, PartialEq, Eq)]
pub enum Flushed {
    /// The flush is the history's last entry, at this place.
    Done(usize),
    /// There are this many flushes, which is the most that there can be.
    TooMany(usize),
}

impl Flushed {
    /// What the flush added to the history.
    pub(crate) fn entry(self) -> Option<TrackEntry>
        ensures { option_map entry_of result ≡ flushed_entry self }
    {
        match self {
            Flushed::Done(_) => Some(TrackEntry::Flush),
            Flushed::TooMany(_) => None,
        }
    }
}

/// Why a try to feed or to flush did nothing: another pass has the turn.
#[derive(Clone, Copy, Debug, PartialEq, Eq)]
pub struct TurnOut;

/// Why a try to look has no scene.
#[derive(Clone, Copy, Debug, PartialEq, Eq)]
pub enum LookRefusal {
    /// Another pass has the turn.
    TurnOut,
    OutOfMemory,
}

/// Why a look for at least so many entries of the history has no scene.
#[derive(Clone, Copy, Debug, PartialEq, Eq)]
pub enum FromRefusal {
    /// The history has fewer: so many.
    Behind(usize),
    /// The history has enough.
    OutOfMemory,
}

//! A kept picture in a list.

use frame_change::Changed;

/// A kept picture: the place of the first instant that shows it, that instant in milliseconds, and the box that it changes.
#[derive(Clone, Copy, Debug, PartialEq, Eq)]
pub struct StillEntry {
    pub place: u64,
    pub t: u64,
    pub part: Changed,
}

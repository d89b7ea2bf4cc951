//! How a play ends.

use ass_num::Items;
use play_report::PlayReport;

/// Why a play ends before it is through.
#[derive(Clone, Copy, Debug, PartialEq, Eq)]
pub enum Stop {
    /// The sink of the images failed.
    WriteFault,
    OutOfMemory,
}

/// How a play ends.
#[derive(Drop)]
pub enum PlayEnd {
    /// It was played whole, and this came of it.
    Done(PlayReport),
    /// The sink of the images failed.
    WriteFault,
    OutOfMemory,
}

/// What was accepted at each time, and how many events were there already.
#[derive(Drop)]
pub struct Played {
    pub accepted: Items<Items<u32>>,
    pub repeated: u64,
}

//! What a seat shows.

use blend::Canvas;
use frame_change::ChangeKind;

/// A picture, and of how many entries of the track's history it is.
#[derive(Drop)]
pub struct Drawn {
    pub entries: usize,
    pub canvas: Canvas,
}

/// How a list of images differs from the one before, and of how many entries of the track's history it is.
#[derive(Clone, Copy, Debug, PartialEq, Eq)]
pub struct ListChange {
    pub entries: usize,
    pub change: ChangeKind,
}

//! A box on the screen, and the time for which it stands there.

use ass_num::Fix;

/// A box: the columns from `left` to `right` and the rows from `top` to `bottom`, in 1/64 pixel; y grows downwards.
/// It is empty unless `left < right` and `top < bottom`.
#[derive(Clone, Copy, Debug, PartialEq, Eq, Hash)]
pub struct Box2 {
    pub left: Fix,
    pub top: Fix,
    pub right: Fix,
    pub bottom: Fix,
}

/// An event that wants a place: its box, when it stands there, and which way it gives way.
#[derive(Clone, Copy, Debug, PartialEq, Eq, Hash)]
pub struct Stand {
    /// The instant in milliseconds at which the event begins.
    pub start: i64,
    /// The instant in milliseconds from which on it no longer stands.
    pub end: i64,
    /// Its box before any shift.
    pub place: Box2,
    /// Whether it gives way downwards; else it gives way upwards.
    pub down: bool,
}

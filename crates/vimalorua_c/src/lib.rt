//! The library for C: calls of a player behind a handle, and of seats of a shared track. docs/EMBEDDING-C.md explains them, and c/vimalorua.h declares them.
#![tactic(auto)]

pub mod alpha;
pub mod drawing;
pub mod feeding;
pub mod fonts;
mod handle;
mod held_seat;
mod kept;
pub mod listing;
pub mod names;
pub mod opening;
mod parts;
mod ranges;
pub mod seat_alpha;
pub mod seat_drawing;
pub mod seat_feeding;
mod seat_handle;
pub mod seat_listing;
mod seat_taking;
pub mod sharing;
mod status;
mod taking;
pub mod views;

//! What stands behind the handle of a seat.

use shared_player::Seat;

/// A seat, or none while a call has it.
#[derive(Drop)]
pub struct HeldSeat {
    pub seat: Option<Seat>,
}

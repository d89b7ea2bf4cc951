//! What stands behind a handle.

use player::Player;

/// A player, or none while a call has it, and once the handle is closed.
#[derive(Drop)]
pub struct HeldPlayer {
    pub player: Option<Player>,
}

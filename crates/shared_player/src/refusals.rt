//! Why there is no seat.

/// Why a player isn't shared.
#[derive(Clone, Copy, Debug, PartialEq, Eq)]
pub enum ShareRefusal {
    /// Something was fed to it already.
    WasFed,
    OutOfMemory,
}

/// Why no seat is split off.
#[derive(Clone, Copy, Debug, PartialEq, Eq)]
pub enum SplitRefusal {
    /// Seats are split off the first one alone.
    NotFirst,
    /// All 4,294,967,295 numbers were given to seats.
    TooMany,
    OutOfMemory,
}

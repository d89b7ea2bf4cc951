//! How long turns take.

use std::fmt;
use std::time::Duration;

/// How many turns were taken, and the nanoseconds of the shortest one and of all.
#[derive(Clone, Copy)]
pub struct Laps {
    turns: u32,
    least: u128,
    sum: u128,
}

impl Laps {
    /// No turns yet.
    pub fn new() -> Laps {
        Laps {
            turns: 0,
            least: u128::MAX,
            sum: 0,
        }
    }

    /// Adds a turn that took so long.
    pub fn add(&mut self, spent: Duration) {
        let nanos = spent.as_nanos();
        self.turns = self.turns.saturating_add(1);
        self.least = self.least.min(nanos);
        self.sum = self.sum.saturating_add(nanos);
    }
}

impl fmt::Display for Laps {
    /// The milliseconds of the shortest turn, and those of a turn in the mean.
    fn fmt<W: fmt::Write>(&self, f: &mut fmt::Formatter<W>) -> fmt::Result {
        let turns = self.turns;
        if turns == 0 {
            return write!(f, "no turns");
        }
        let (least, least_micros) = millis(self.least);
        let (mean, mean_micros) = millis(self.sum / u128::from(turns));
        write!(
            f,
            "{least}.{least_micros:03} ms at least, {mean}.{mean_micros:03} ms in the mean of {turns}"
        )
    }
}

/// Whole milliseconds, and the microseconds over.
fn millis(nanos: u128) -> (u128, u128) {
    (nanos / 1_000_000, nanos / 1_000 % 1_000)
}

//! Instants at a rate.

use crate::rate::FrameRate;

/// The last instant, in milliseconds.
const MAX_INSTANT: u64 = 4_000_000_000_000;

/// Instants in milliseconds: those of so many frames at a rate, the first one at `from`.
#[derive(Clone, Copy, Debug, PartialEq, Eq)]
pub struct Instants {
    pub from: u64,
    pub count: u64,
    pub rate: FrameRate,
}

impl Instants {
    ghost use Rattle.std.specs.Prelude.{◌≡◌, ◌<◌, ◌≤◌};
    ghost use Rattle.ass_num.specs.Limits.{max_instant};
    ghost use Rattle.frame_rate.specs.Instants.{AreInstants, counted_instants, instants_before, rated_instant};
    ghost use Rattle.frame_rate.specs.Rates.{IsFrameRate};

    /// Those that come before `to`.
    #[tactic(auto, using(crate::proofs::InstantLemmas::before_are_instants))]
    pub fn before(from: u64, to: u64, rate: FrameRate) -> Instants
        requires first { from ≤ max_instant }
        requires rate { IsFrameRate rate }
        requires within { to ≤ max_instant }
        ensures value { result ≡ instants_before rate from to }
        ensures are { AreInstants result }
    {
        Instants {
            from,
            count: rate.frames_before(from, to),
            rate,
        }
    }

    /// The first `count` of them, or as many as come before the last instant.
    #[tactic(auto, using(crate::proofs::InstantLemmas::counted_are_instants))]
    pub fn counted(from: u64, count: u64, rate: FrameRate) -> Instants
        requires first { from ≤ max_instant }
        requires rate { IsFrameRate rate }
        ensures value { result ≡ counted_instants rate from count }
        ensures are { AreInstants result }
    {
        Instants {
            from,
            count: count.min(rate.frames_before(from, MAX_INSTANT)),
            rate,
        }
    }

    /// The one at a place, from 0.
    #[tactic(auto, using(crate::proofs::InstantLemmas::instant_before))]
    pub fn at(&self, place: u64) -> u64
        requires instants { AreInstants self.now }
        requires within { place < self.now.count }
        ensures at { result ≡ rated_instant self.now place }
        ensures before { result < max_instant }
    {
        self.rate.instant_at(self.from, place)
    }
}

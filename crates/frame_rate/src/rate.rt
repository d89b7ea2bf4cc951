//! Rates.

/// So many frames in so many seconds: 24,000 in 1,001 are 23.976 a second.
#[derive(Clone, Copy, Debug, PartialEq, Eq)]
pub struct FrameRate {
    pub frames: u32,
    pub seconds: u64,
}

impl FrameRate {
    ghost use Rattle.std.specs.Prelude.{◌≡◌, ◌≤◌, ◌+◌};
    ghost use Rattle.ass_num.specs.Limits.{max_instant};
    ghost use Rattle.frame_rate.specs.Rates.{IsFrameRate, frame_instant, frames_before, step_rate};

    /// The rate of a step in milliseconds.
    pub fn of_step(step: u64) -> FrameRate
        ensures { result ≡ step_rate step }
    {
        FrameRate {
            frames: 1000,
            seconds: step,
        }
    }

    /// The instant of frame `i`, from 0, where frame 0 has the instant `from`, in milliseconds.
    pub fn instant_at(self, from: u64, i: u64) -> u64
        requires rate { IsFrameRate self }
        requires within { frame_instant self from i ≤ max_instant }
        ensures { result ≡ frame_instant self from i }
    {
        from + 1000 * i * self.seconds / u64::from(self.frames)
    }

    /// How many frames have instants before `to`.
    pub fn frames_before(self, from: u64, to: u64) -> u64
        requires rate { IsFrameRate self }
        requires within { to ≤ max_instant + 1 }
        ensures { result ≡ frames_before self from to }
    {
        let length = to.saturating_sub(from) * u64::from(self.frames);
        length.div_ceil(1000 * self.seconds)
    }
}

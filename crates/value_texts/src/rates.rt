//! Rates of frames.

ghost use Rattle.std.specs.Prelude.{◌≡◌};
ghost use Rattle.value_texts.specs.Values.{rate_in, rate_of, rate_parted};

use crate::numbers::number_within;
use frame_rate::FrameRate;

/// The most frames of a rate, and the most seconds of one that a text says.
const MAX_RATE_PARTS: u64 = 1_000_000;

/// The rate that texts are: so many frames, in so many seconds.
fn rate_of(frames: &str, seconds: &str) -> Option<FrameRate>
    ensures { result ≡ rate_of frames.now seconds.now }
{
    let frames = number_within(frames, 1, MAX_RATE_PARTS)?;
    let seconds = number_within(seconds, 1, MAX_RATE_PARTS)?;
    Some(FrameRate {
        frames: frames as u32,
        seconds,
    })
}

/// The rate that a text is: frames and seconds, with a `/` between.
fn rate_parted(text: &str) -> Option<FrameRate>
    ensures { result ≡ rate_parted text.now }
{
    let (frames, seconds) = text.split_once('/')?;
    rate_of(frames, seconds)
}

/// The rate that a text is: frames, in one second where none are said.
#[inline(never)]
pub fn rate_in(text: &str) -> Option<FrameRate>
    ensures { result ≡ rate_in text.now }
{
    match number_within(text, 1, MAX_RATE_PARTS) {
        Some(frames) => Some(FrameRate {
            frames: frames as u32,
            seconds: 1,
        }),
        None => rate_parted(text),
    }
}

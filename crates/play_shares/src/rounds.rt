//! How many rounds there are.

ghost use Rattle.std.specs.Prelude.{◌≡◌, ℕ, ◌<◌, ◌≤◌, ◌*◌, length, IsTrue, ◌↔◌};
ghost use Rattle.ass_script.specs.Limits.{max_lines};
ghost use Rattle.run_words.specs.Jobs.{IsPlay};
ghost use Rattle.play_shares.specs.Batches.{feeder_lines};
ghost use Rattle.play_shares.specs.Instants.{frame_count, instant_count};
ghost use Rattle.play_shares.specs.Limits.{max_frames};
ghost use Rattle.play_shares.specs.Renderers.{images_each, painter_count};
ghost use Rattle.play_shares.specs.Rounds.{feeding_rounds, image_rounds};

use crate::instants::instant_count;
use crate::renderers::{images_each, painter_count};
use run_words::PlayJob;

/// The most images of a play.
pub const MAX_FRAMES: u64 = 1_000_000;

/// How many rounds there are until all of so many lines are offered.
#[tactic(auto, using(crate::proofs::InstantLemmas::ceil_few))]
pub fn feeding_rounds(play: &PlayJob, count: usize) -> usize
    requires play { IsPlay play.now }
    requires lines { count ≤ max_lines }
    ensures rounds { result ≡ feeding_rounds play.now count }
    ensures few { result ≤ count }
    ensures enough { (feeder : ℕ) → feeder < play.now.feeders → length (feeder_lines count play.now.feeders feeder) ≤ result * play.now.batch }
{
    let feeders = play.feeders as usize;
    let batch = play.batch as usize;
    let lines = feeders * batch;
    count.div_ceil(lines)
}

/// How many rounds there are until all images are made.
#[tactic(auto, using(crate::proofs::InstantLemmas::ceil_enough, crate::proofs::InstantLemmas::ceil_few))]
pub fn image_rounds(play: &PlayJob) -> u64
    requires { IsPlay play.now }
    ensures rounds { result ≡ image_rounds play.now }
    ensures few { result ≤ instant_count play.now }
    ensures enough { instant_count play.now ≤ result * (painter_count play.now * images_each play.now) }
{
    let count = instant_count(play);
    let images = painter_count(play) * images_each(play);
    count.div_ceil(images)
}

/// Whether there are more images than a play may have, over all its times.
#[tactic(auto, using(crate::proofs::InstantLemmas::few_instants))]
pub fn has_too_many_frames(play: &PlayJob) -> bool
    requires { IsPlay play.now }
    ensures { IsTrue result ↔ max_frames < frame_count play.now }
{
    let times = u64::from(play.times);
    let count = instant_count(play);
    let frames = times * count;
    frames > MAX_FRAMES
}

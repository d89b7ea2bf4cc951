//! The painters of a round, and the instants that each has in it.

ghost use Rattle.std.specs.Prelude.{◌≡◌, ◌<◌, ◌≤◌};
ghost use Rattle.run_words.specs.Jobs.{IsFrame, IsPlay};
ghost use Rattle.play_shares.specs.Limits.{max_frames, max_painters, max_round_images};
ghost use Rattle.play_shares.specs.Renderers.{first_place, images_each, images_in, images_that_fit, painter_count, painters_in, share_begins, share_ends};
ghost use Rattle.play_shares.specs.Renderers.{share_pixels};

use crate::instants::instant_count;
use ass_num::Size;
use run_words::{Mode, PlayJob};

/// The most pixels of the images that a round has for each renderer, where it has more than one.
pub const MAX_ROUND_PIXELS: u64 = 16_777_216;

/// The most pixels of the images that one of several painters makes in a round, where it makes more than one.
pub const MAX_SHARE_PIXELS: u64 = 2_097_152;

/// The most images that a round has for each renderer.
pub const MAX_ROUND_IMAGES: u64 = 8;

/// How many images of a size fit in so many pixels.
fn images_that_fit(pixels: u64, size: &Size) -> u64
    requires { IsFrame size.now }
    ensures fit { result ≡ images_that_fit pixels size.now }
    ensures some { 1 ≤ result }
    ensures few { result ≤ max_round_images }
{
    let each = u64::from(size.w) * u64::from(size.h);
    (pixels / each).min(MAX_ROUND_IMAGES).max(1)
}

/// How many pixels the images of a share have at most: for one renderer alone as many as those of a round.
fn share_pixels(play: &PlayJob) -> u64
    ensures { result ≡ share_pixels play.now }
{
    if play.renderers == 1 {
        MAX_ROUND_PIXELS
    } else {
        MAX_SHARE_PIXELS
    }
}

/// How many images a painter makes in each round but the last.
pub(crate) fn images_each(play: &PlayJob) -> u64
    requires { IsPlay play.now }
    ensures each { result ≡ images_each play.now }
    ensures some { 1 ≤ result }
    ensures few { result ≤ max_round_images }
{
    match play.mode {
        Mode::Live => 1,
        Mode::Settled => {
            if play.ahead > 0 {
                return 1;
            }
            images_that_fit(share_pixels(play), &play.size)
        }
    }
}

/// How many painters a round has for each renderer.
fn painters_each(play: &PlayJob) -> u64
    requires { IsPlay play.now }
    ensures each { result ≡ painters_in play.now.mode play.now }
    ensures some { 1 ≤ result }
    ensures few { result ≤ max_round_images }
{
    match play.mode {
        Mode::Live => 1,
        Mode::Settled => {
            if play.ahead > 0 {
                return 1;
            }
            let images = images_that_fit(MAX_ROUND_PIXELS, &play.size);
            images / images_that_fit(share_pixels(play), &play.size)
        }
    }
}

/// How many painters a round has: one for each renderer or more. As many of them paint at once as there are renderers.
#[tactic(auto, using(crate::proofs::RoundPlaces::painters_many))]
pub fn painter_count(play: &PlayJob) -> u64
    requires { IsPlay play.now }
    ensures count { result ≡ painter_count play.now }
    ensures each { play.now.renderers ≤ result }
    ensures some { 1 ≤ result }
    ensures few { result ≤ max_painters }
{
    u64::from(play.renderers) * painters_each(play)
}

/// The place of the first instant of a round.
#[tactic(auto, using(crate::proofs::RoundPlaces::round_fits))]
fn first_place(play: &PlayJob, round: u64) -> u64
    requires play { IsPlay play.now }
    requires round { round ≤ max_frames }
    ensures place { result ≡ first_place play.now round }
    ensures near { result ≤ 512000000 }
{
    let images = painter_count(play) * images_each(play);
    round * images
}

/// How many images a painter makes in a round.
fn images_in(play: &PlayJob, round: u64) -> u64
    requires play { IsPlay play.now }
    requires round { round ≤ max_frames }
    ensures images { result ≡ images_in play.now round }
    ensures few { result ≤ max_round_images }
{
    let left = instant_count(play).saturating_sub(first_place(play, round));
    left.div_ceil(painter_count(play)).min(images_each(play))
}

/// The place of the first instant of a painter in a round.
pub fn share_begins(play: &PlayJob, round: u64, painter: u64) -> u64
    requires play { IsPlay play.now }
    requires round { round ≤ max_frames }
    requires painter { painter < painter_count play.now }
    ensures begins { result ≡ share_begins play.now round painter }
    ensures near { result ≤ 512000512 }
{
    let behind = painter * images_in(play, round);
    first_place(play, round) + behind
}

/// The place behind the last instant of a painter in a round.
pub fn share_ends(play: &PlayJob, round: u64, painter: u64) -> u64
    requires play { IsPlay play.now }
    requires round { round ≤ max_frames }
    requires painter { painter < painter_count play.now }
    ensures { result ≡ share_ends play.now round painter }
{
    let end = share_begins(play, round, painter) + images_in(play, round);
    end.min(instant_count(play))
}

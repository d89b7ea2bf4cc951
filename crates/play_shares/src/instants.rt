//! The instants of a play.

ghost use Rattle.std.specs.Prelude.{◌≡◌, ◌≤◌, IfOk};
ghost use Rattle.std.specs.List.{slice_get};
ghost use Rattle.run_words.specs.Jobs.{IsPlay};
ghost use Rattle.play_shares.specs.Instants.{ahead_instants, instant_count, instants};
ghost use Rattle.play_shares.specs.Limits.{max_frames};

use ass_num::Mem;
use run_words::PlayJob;
use std::alloc::Global;

/// How many instants there are.
pub fn instant_count(play: &PlayJob) -> u64
    requires { IsPlay play.now }
    ensures { result ≡ instant_count play.now }
{
    play.instants.count
}

/// The instant at a place, if there are so many.
#[tactic(auto, using(crate::proofs::InstantLemmas::instant_there, crate::proofs::InstantLemmas::instant_gone))]
pub fn instant_at(play: &PlayJob, place: u64) -> Option<i64>
    requires { IsPlay play.now }
    ensures { result ≡ slice_get (instants play.now) place }
{
    if place >= instant_count(play) {
        return None;
    }
    let t = play.instants.at(place);
    Some(t as i64)
}

/// The instants that are warmed ahead while a round's images are made: those that come after the round's, as many as were asked for.
pub fn ahead_instants(alloc: Global, play: &PlayJob, round: u64) -> Mem<Vec<i64>>
    requires play { IsPlay play.now }
    requires round { round ≤ max_frames }
    ensures { IfOk result (λ ahead. ahead.items ≡ ahead_instants play.now round) }
{
    let mut ahead = Vec::new(alloc);
    let renderers = u64::from(play.renderers);
    let count = u64::from(play.ahead);
    let first = (round + 1) * renderers;
    for place in first..first + count {
        match instant_at(play, place) {
            Some(t) => ahead.push(t)?,
            None => return Ok(ahead),
        }
    }
    Ok(ahead)
}

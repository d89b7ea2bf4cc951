//! How the work of a play is shared out.

ghost use Rattle.std.specs.Prelude.{◌≤◌};
ghost use Rattle.run_words.specs.Jobs.{IsJob, IsPlay};

use crate::runs::words_of;
use crate::telling::{numbers, parted, shown};
use ass_num::Mem;
use play_shares::{
    ahead_instants, feeding_rounds, has_too_many_frames, image_rounds, instant_at, instant_count,
    offers, painter_count, share_begins, share_ends,
};
use run_words::{Job, PlayJob, read_words};
use std::alloc::Global;

/// Whether each of seven lines gives an event.
const GOOD: [bool; 7] = [true, true, false, true, true, true, true];

/// The lines that a feeder offers in a round: the round and the feeder.
fn offered(alloc: Global, play: &PlayJob, question: &str) -> Mem<String>
    requires { IsPlay play.now }
{
    let (round, feeder) = parted(question, " ");
    let round = usize::from(round.parse::<u8>().unwrap_or(0));
    let feeder = usize::from(feeder.parse::<u8>().unwrap_or(0));
    if feeder >= play.feeders as usize {
        return shown(alloc, &"no such feeder");
    }
    let lines = offers(alloc, play, GOOD.as_slice(), round, feeder)?;
    shown(alloc, &lines.as_slice())
}

/// How many instants and rounds of images there are, the fourth and the fifth instant, those that are warmed ahead in the first
/// round, in how many rounds seven lines are fed, and whether there are too many frames.
fn instants(alloc: Global, play: &PlayJob) -> Mem<String>
    requires { IsPlay play.now }
{
    let ahead = ahead_instants(alloc, play, 0)?;
    let counts = [instant_count(play), image_rounds(play)];
    let last = [instant_at(play, 3), instant_at(play, 4)];
    let rounds = feeding_rounds(play, 7);
    let too_many = has_too_many_frames(play);
    shown(alloc, &(counts, last, ahead.as_slice(), rounds, too_many))
}

/// How many painters and rounds of images there are; where the share of the second painter begins in the first round and in the
/// second one; and where those of the second and the third painter end in the first round, and that of the second one in the second.
fn shares(alloc: Global, play: &PlayJob) -> Mem<String>
    requires { IsPlay play.now }
{
    let painters = painter_count(play);
    if painters < 3 {
        return shown(alloc, &"fewer than three painters");
    }
    let begins = [share_begins(play, 0, 1), share_begins(play, 1, 1)];
    let ends = [
        share_ends(play, 0, 1),
        share_ends(play, 0, 2),
        share_ends(play, 1, 1),
    ];
    shown(alloc, &(painters, image_rounds(play), begins, ends))
}

fn play_told(alloc: Global, play: &PlayJob, question: &str) -> Mem<String>
    requires { IsPlay play.now }
{
    match question {
        "instants" => instants(alloc, play),
        "shares" => shares(alloc, play),
        _ => offered(alloc, play, question),
    }
}

fn job_told(alloc: Global, job: &Job, question: &str) -> Mem<String>
    requires { IsJob job.now }
{
    match job {
        Job::Play(play, _, _) => play_told(alloc, play, question),
        _ => shown(alloc, &"no play"),
    }
}

/// What is asked of a play, a bar, and the play's words.
pub fn told(alloc: Global, question: &str) -> Mem<String> {
    let (asked, line) = parted(question, " |");
    let words = words_of(alloc, line)?;
    match read_words(alloc, words.as_slice()) {
        Ok(job) => job_told(alloc, &job, asked),
        Err(refusal) => shown(alloc, &refusal),
    }
}

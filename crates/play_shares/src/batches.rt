//! The lines that feeders offer.

ghost use Rattle.std.specs.Prelude.{◌≡◌, ◌<◌, ◌≤◌, ◌++◌, ◌∷◌, [], false, length, slice_index_or, IfOk, OnOk};
ghost use Rattle.std.specs.List.{slice_get};
ghost use Rattle.ass_script.specs.Limits.{max_lines};
ghost use Rattle.run_words.specs.Jobs.{IsPlay};
ghost use Rattle.run_words.specs.Limits.{max_batch, max_workers};
ghost use Rattle.play_shares.specs.Batches.{again_lines, batch_lines, feeder_lines, good_lines, has_batch, last_items, offered};
ghost use Rattle.play_shares.specs.Limits.{max_places};

use ass_num::Mem;
use run_words::PlayJob;
use std::alloc::Global;

/// The line of a feeder at a place, where it has so many of these lines.
#[tactic(auto, using(crate::proofs::FeederLines::line_there, crate::proofs::FeederLines::line_gone, crate::proofs::FeederLines::rows_fit))]
fn line_at(count: usize, feeders: usize, feeder: usize, place: usize) -> Option<usize>
    requires feeder { feeder < feeders }
    requires feeders { feeders ≤ max_workers }
    requires place { place ≤ max_places }
    ensures { result ≡ slice_get (feeder_lines count feeders feeder) place }
{
    let row = place * feeders;
    let line = row + feeder;
    if line < count {
        return Some(line);
    }
    None
}

/// Whether a feeder has a line for a round.
#[tactic(auto, using(crate::proofs::Parts::some_within, crate::proofs::FeederLines::places_fit))]
fn has_batch(play: &PlayJob, count: usize, round: usize, feeder: usize) -> bool
    requires few { play.now.feeders ≤ max_workers }
    requires short { play.now.batch ≤ max_batch }
    requires feeder { feeder < play.now.feeders }
    requires round { round ≤ max_lines }
    ensures { result ≡ has_batch play.now count round feeder }
{
    let batch = play.batch as usize;
    let feeders = play.feeders as usize;
    let place = round * batch;
    line_at(count, feeders, feeder, place).is_some()
}

/// Whether a line gives an event.
fn is_good(good: &[bool], line: usize) -> bool
    ensures { result ≡ slice_index_or good.now line false }
{
    line < good.len() && good[line]
}

/// Adds a line that gives an event.
#[tactic(auto, using(crate::proofs::Parts::good_one, crate::proofs::Parts::good_none))]
fn add_good(good: &[bool], line: usize, lines: &mut Vec<usize>) -> Mem<()>
    ensures { OnOk result (lines.new.items ≡ lines.old.items ++ good_lines good.now (line ∷ [])) }
{
    if is_good(good, line) {
        lines.push(line)?;
    }
    Ok(())
}

/// Adds the lines of a feeder's batch that give events.
#[tactic(auto, using(crate::proofs::FeederLines::places_fit))]
fn add_batch(
    play: &PlayJob,
    good: &[bool],
    round: usize,
    feeder: usize,
    lines: &mut Vec<usize>,
) -> Mem<()>
    requires few { play.now.feeders ≤ max_workers }
    requires short { play.now.batch ≤ max_batch }
    requires feeder { feeder < play.now.feeders }
    requires round { round ≤ max_lines }
    ensures { OnOk result (lines.new.items ≡ lines.old.items ++ good_lines good.now (batch_lines play.now (length good.now) round feeder)) }
{
    let feeders = play.feeders as usize;
    let batch = play.batch as usize;
    let first = round * batch;
    let end = first + batch;
    for place in first..end {
        match line_at(good.len(), feeders, feeder, place) {
            Some(line) => add_good(good, line, lines)?,
            None => return Ok(()),
        }
    }
    Ok(())
}

/// The last so many of a list.
fn last_items(alloc: Global, lines: &[usize], count: usize) -> Mem<Vec<usize>>
    ensures { IfOk result (λ last. last.items ≡ last_items count lines.now) }
{
    let first = lines.len().saturating_sub(count);
    let (_, rest) = lines.split_at(first);
    let mut last = Vec::new(alloc);
    last.extend_from_slice(rest)?;
    Ok(last)
}

/// The lines that a feeder offers once more before a batch: the last ones of the batch before that give events.
fn again_lines(
    alloc: Global,
    play: &PlayJob,
    good: &[bool],
    round: usize,
    feeder: usize,
) -> Mem<Vec<usize>>
    requires few { play.now.feeders ≤ max_workers }
    requires short { play.now.batch ≤ max_batch }
    requires feeder { feeder < play.now.feeders }
    requires round { round ≤ max_lines }
    ensures { IfOk result (λ lines. lines.items ≡ again_lines play.now good.now round feeder) }
{
    let mut before = Vec::new(alloc);
    if round == 0 {
        return Ok(before);
    }
    if !has_batch(play, good.len(), round, feeder) {
        return Ok(before);
    }
    add_batch(play, good, round - 1, feeder, &mut before)?;
    last_items(alloc, before.as_slice(), play.again as usize)
}

/// The lines that a feeder offers in a round, in order: some of the batch before once more, and then its batch. Those that give no event
/// are left out; `good` tells of each line whether it gives one.
pub fn offers(
    alloc: Global,
    play: &PlayJob,
    good: &[bool],
    round: usize,
    feeder: usize,
) -> Mem<Vec<usize>>
    requires play { IsPlay play.now }
    requires feeder { feeder < play.now.feeders }
    requires round { round ≤ max_lines }
    ensures { IfOk result (λ lines. lines.items ≡ offered play.now good.now round feeder) }
{
    let mut lines = again_lines(alloc, play, good, round, feeder)?;
    add_batch(play, good, round, feeder, &mut lines)?;
    Ok(lines)
}

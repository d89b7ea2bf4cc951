//! A run of the program, by its words.

ghost use Rattle.ass_io.specs.Fetches.{fetch_change};
ghost use Rattle.play_command.specs.WordRuns.{IsRunOfWords};
ghost use Rattle.run_words.specs.Words.{texts};
ghost use Rattle.single_run.specs.Runs.{sink_change};

use crate::run::top;
use ass_io::{Rt, Shelf, Sink};
use run_status::Status;
use std::alloc::Global;
use test_hook::TestHook;

/// Does what the words ask, as [`top`] does.
pub fn run_of_words<S: Shelf, F: Sink, R: Sink, H: TestHook + Sync>(
    rt: &impl Rt,
    alloc: Global,
    words: &[String],
    shelf: &mut S,
    frames: &mut F,
    report: &mut R,
    hook: &H,
) -> Status
    ensures { IsRunOfWords (S.told shelf.old) (fetch_change (S.log shelf.old) (S.log shelf.new)) (texts words.now)
        (sink_change (F.state frames.old) (F.state frames.new))
        (sink_change (R.state report.old) (R.state report.new)) result }
{
    top(rt, alloc, words, shelf, frames, report, hook)
}

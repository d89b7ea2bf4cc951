//! The exit status of the program.

ghost use Rattle.std.specs.Prelude.{◌≡◌};
ghost use Rattle.ass_io.specs.Fetches.{fetch_change};
ghost use Rattle.run_reports.specs.AskedRuns.{IsAskedRun};
ghost use Rattle.run_status.specs.Endings.{ending_exit};
ghost use Rattle.run_status.specs.declared.ending.Ending.{Ending as EndingValue};
ghost use Rattle.run_words.specs.Words.{texts};
ghost use Rattle.single_run.specs.Runs.{sink_change};

use crate::run::run_asked;
use ass_io::{NamedSink, PipedSink, Rt, Shelf};
use std::alloc::Global;
use test_hook::TestHook;

/// Does what the words ask, as [`run_asked`] does, and answers the exit status of the program.
pub fn exit_of_asked<S: Shelf, F: PipedSink, I: NamedSink, R: NamedSink, H: TestHook + Sync>(
    rt: &impl Rt,
    alloc: Global,
    words: &[String],
    shelf: &mut S,
    frames: &mut F,
    index: &mut I,
    report: &mut R,
    hook: &H,
) -> u8
    ensures { (ending : EndingValue) × (result ≡ ending_exit ending) × IsAskedRun (S.told shelf.old)
        (fetch_change (S.log shelf.old) (S.log shelf.new)) (texts words.now)
        (sink_change (F.state frames.old) (F.state frames.new)) (sink_change (I.state index.old) (I.state index.new))
        (sink_change (R.state report.old) (R.state report.new)) (F.closed frames.new) ending }
{
    run_asked(rt, alloc, words, shelf, frames, index, report, hook).exit_status()
}

//! Selftests that are told otherwise than by default.

ghost use Rattle.std.specs.Prelude.{◌≡◌};
ghost use Rattle.run_reports.specs.Tales.{IsSelftestTold, tale_of};
ghost use Rattle.run_words.specs.Jobs.{IsJob};
ghost use Rattle.run_words.specs.declared.job.Job.TheVariants.{Selftest};
ghost use Rattle.single_run.specs.Runs.{sink_change};

use crate::tale::Tale;
use crate::tell::tell;
use ass_io::{Rt, Sink};
use play_command::do_selftest;
use run_status::Ending;
use run_words::ReportForm;
use single_run::Outcome;
use std::alloc::Global;
use test_hook::TestHook;

/// What a selftest came to that had this outcome.
fn tale_of(outcome: Outcome) -> Tale
    ensures { result ≡ tale_of outcome }
{
    match outcome {
        Outcome::Found(text) => Tale::Found(text),
        Outcome::Ended(status) => Tale::Ends(Ending::As(status)),
    }
}

/// Plays a generated script, and tells in a form the digest of its images.
pub fn tell_selftest<R: Sink, H: TestHook + Sync>(
    rt: &impl Rt,
    alloc: Global,
    form: ReportForm,
    seed: u32,
    events: u32,
    workers: u32,
    report: &mut R,
    hook: &H,
) -> Ending
    requires { IsJob (Selftest seed events workers) }
    ensures { IsSelftestTold form seed events (sink_change (R.state report.old) (R.state report.new)) result }
{
    let outcome = do_selftest(rt, alloc, form, seed, events, workers, hook);
    tell(alloc, form, tale_of(outcome), report)
}

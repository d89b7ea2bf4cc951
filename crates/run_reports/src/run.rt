//! The call that the program makes.

ghost use Rattle.std.specs.Prelude.{◌≡◌, true};
ghost use Rattle.ass_io.specs.Fetches.{fetch_change};
ghost use Rattle.run_reports.specs.AskedRuns.{IsAskedRun, IsFileBegun, IsJobTold, IsRunListed, IsRunOtherwise, reports, run_sight};
ghost use Rattle.run_words.specs.Jobs.{IsJob};
ghost use Rattle.run_words.specs.Words.{texts};
ghost use Rattle.single_run.specs.Runs.{sink_change};

use crate::asked::{AskedJob, asked_otherwise};
use crate::plays::tell_play;
use crate::selftests::tell_selftest;
use crate::tale::Tale;
use crate::tell::{say_memory, tell};
use crate::works::tell_work;
use ass_io::{Making, NamedSink, PipedSink, Rt, Shelf, Sink};
use ass_num::{OutOfMemory, Text};
use play_command::run_of_words;
use run_status::{Ending, Status, Which};
use run_words::{Job, ReportForm, ReportOptions};
use std::alloc::Global;
use test_hook::TestHook;

/// Makes a file, where one is named.
fn begin<O: NamedSink>(name: &Option<Text>, output: &mut O) -> Making
    ensures { IsFileBegun name.now result (O.state output.old) (O.state output.new) }
{
    match name {
        Some(name) => output.make(name.as_str()),
        None => Making::Made,
    }
}

/// Does a job that reports, and tells of it as is asked for.
fn do_job<S: Shelf, F: PipedSink, I: Sink, R: Sink, H: TestHook + Sync>(
    rt: &impl Rt,
    alloc: Global,
    job: Job,
    options: &ReportOptions,
    shelf: &mut S,
    frames: &mut F,
    index: &mut I,
    report: &mut R,
    hook: &H,
) -> Ending
    requires within { IsJob job }
    requires reports { reports job ≡ true }
    ensures { IsJobTold options.now job (run_sight (S.told shelf.old) (fetch_change (S.log shelf.old) (S.log shelf.new))
        (sink_change (F.state frames.old) (F.state frames.new)) (sink_change (I.state index.old) (I.state index.new))
        (sink_change (R.state report.old) (R.state report.new)) (F.closed frames.new)) result }
{
    let form = options.report_form();
    match job {
        Job::Play(play, script, fonts) => {
            let is_quiet = options.quiet_pipe;
            let fonts = fonts.as_slice();
            tell_play(
                rt, alloc, form, is_quiet, play, &script, fonts, shelf, frames, report, hook,
            )
        }
        Job::Selftest(seed, events, workers) => {
            tell_selftest(rt, alloc, form, seed, events, workers, report, hook)
        }
        job => tell_work(alloc, options, job, shelf, frames, index, report, hook),
    }
}

/// Makes the file of the list, where there is one, and then does a job that reports.
fn do_listed<S: Shelf, F: PipedSink, I: NamedSink, R: Sink, H: TestHook + Sync>(
    rt: &impl Rt,
    alloc: Global,
    job: Job,
    options: &ReportOptions,
    shelf: &mut S,
    frames: &mut F,
    index: &mut I,
    report: &mut R,
    hook: &H,
) -> Ending
    requires within { IsJob job }
    requires reports { reports job ≡ true }
    ensures { IsRunListed (S.told shelf.old) (fetch_change (S.log shelf.old) (S.log shelf.new)) options.now job
        (sink_change (F.state frames.old) (F.state frames.new)) (sink_change (I.state index.old) (I.state index.new))
        (sink_change (R.state report.old) (R.state report.new)) (F.closed frames.new) result }
{
    let form = options.report_form();
    match begin(&options.index, index) {
        Making::Made => do_job(rt, alloc, job, options, shelf, frames, index, report, hook),
        Making::Failed => tell(alloc, form, Tale::Ends(Ending::ListFault), report),
        Making::OutOfMemory => tell(
            alloc,
            form,
            Tale::Ends(Ending::As(Status::OutOfMemory)),
            report,
        ),
    }
}

/// Makes the file of the report, where there is one, and then that of the list, and does a job that reports.
fn do_into<S: Shelf, F: PipedSink, I: NamedSink, R: NamedSink, H: TestHook + Sync>(
    rt: &impl Rt,
    alloc: Global,
    job: Job,
    options: &ReportOptions,
    shelf: &mut S,
    frames: &mut F,
    index: &mut I,
    report: &mut R,
    hook: &H,
) -> Ending
    requires within { IsJob job }
    requires reports { reports job ≡ true }
    ensures { IsRunOtherwise (S.told shelf.old) (fetch_change (S.log shelf.old) (S.log shelf.new)) options.now job
        (sink_change (F.state frames.old) (F.state frames.new)) (sink_change (I.state index.old) (I.state index.new))
        (sink_change (R.state report.old) (R.state report.new)) (F.closed frames.new) result }
{
    let form = options.report_form();
    match begin(&options.file, report) {
        Making::Made => do_listed(rt, alloc, job, options, shelf, frames, index, report, hook),
        Making::Failed => {
            let fault = Status::WriteFault(Which::Report);
            tell(alloc, form, Tale::Ends(Ending::As(fault)), report)
        }
        Making::OutOfMemory => tell(
            alloc,
            form,
            Tale::Ends(Ending::As(Status::OutOfMemory)),
            report,
        ),
    }
}

/// Does what the words ask, as [`run_of_words`] does, unless they tell that the report is to be written in another form, to go
/// to a file or to come line by line, or that a list of changed images is to go to one. A job that reports does so then: the files
/// are made first, and what changes is told as soon as it is known. Words that ask for no job are refused by default, where the
/// report goes by default.
pub fn run_asked<S: Shelf, F: PipedSink, I: NamedSink, R: NamedSink, H: TestHook + Sync>(
    rt: &impl Rt,
    alloc: Global,
    words: &[String],
    shelf: &mut S,
    frames: &mut F,
    index: &mut I,
    report: &mut R,
    hook: &H,
) -> Ending
    ensures { IsAskedRun (S.told shelf.old) (fetch_change (S.log shelf.old) (S.log shelf.new)) (texts words.now)
        (sink_change (F.state frames.old) (F.state frames.new)) (sink_change (I.state index.old) (I.state index.new))
        (sink_change (R.state report.old) (R.state report.new)) (F.closed frames.new) result }
{
    match asked_otherwise(alloc, words) {
        Ok(Some(asked)) => {
            let AskedJob { job, options } = asked;
            do_into(rt, alloc, job, &options, shelf, frames, index, report, hook)
        }
        Ok(None) => Ending::As(run_of_words(rt, alloc, words, shelf, frames, report, hook)),
        Err(OutOfMemory) => say_memory(ReportForm::Text, report),
    }
}

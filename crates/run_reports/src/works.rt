//! What waits for nobody, where it is told otherwise than by default.

ghost use Rattle.std.specs.Prelude.{Ok};
ghost use Rattle.ass_io.specs.Fetches.{fetch_change};
ghost use Rattle.ass_script.specs.Ranges.{IsScript};
ghost use Rattle.run_reports.specs.Tales.{IsCheckTale, IsReportTask, IsReportWork, IsTaskTold, IsWorkRun, IsWorkTold, told_run};
ghost use Rattle.single_run.specs.Runs.{sink_change};
ghost use Rattle.single_run.specs.Works.{AreInputsOf, IsWork, work_in};
ghost use Rattle.run_words.specs.Jobs.{IsJob};

use crate::changes::tell_changes;
use crate::check::check_in;
use crate::stills::tell_stills;
use crate::tale::Tale;
use crate::tell::tell;
use ass_events::line_laws;
use ass_io::{PipedSink, Shelf, Sink};
use ass_num::OutOfMemory;
use run_status::{Ending, Inputs, Status, read_inputs};
use run_words::{Job, ReportForm, ReportOptions};
use single_run::{Task, Work, work_in};
use std::alloc::Global;
use test_hook::TestHook;

/// What a check comes to.
fn check_tale(alloc: Global, form: ReportForm, inputs: &Inputs) -> Tale
    ensures { IsCheckTale form inputs.now result }
{
    match check_in(alloc, form, &inputs.script, inputs.fonts.as_slice()) {
        Ok(text) => Tale::Found(text),
        Err(OutOfMemory) => Tale::Ends(Ending::As(Status::OutOfMemory)),
    }
}

/// Does a task with its inputs, and tells of it as is asked for.
fn tell_task<F: PipedSink, I: Sink, R: Sink, H: TestHook>(
    alloc: Global,
    options: &ReportOptions,
    task: &Task,
    inputs: Inputs,
    frames: &mut F,
    index: &mut I,
    report: &mut R,
    hook: &H,
) -> Ending
    requires script { IsScript inputs.script }
    requires inputs { AreInputsOf task.now inputs }
    requires reports { IsReportTask task.now }
    ensures { IsTaskTold (told_run options.now (F.closed frames.new) (sink_change (F.state frames.old) (F.state frames.new))
        (sink_change (I.state index.old) (I.state index.new)) (sink_change (R.state report.old) (R.state report.new))) task.now inputs result }
{
    let form = options.report_form();
    match task {
        Task::Check => tell(alloc, form, check_tale(alloc, form, &inputs), report),
        Task::Changes(changes) => tell_changes(alloc, form, changes, inputs, report),
        Task::Stills(stills) => {
            tell_stills(
                alloc, options, form, stills, inputs, frames, index, report, hook,
            )
        }
        Task::Frame(_) => unreachable!(),
        Task::Write(_) => unreachable!(),
    }
}

/// Does some work with its files, and tells of it as is asked for.
fn do_work<S: Shelf, F: PipedSink, I: Sink, R: Sink, H: TestHook>(
    alloc: Global,
    options: &ReportOptions,
    work: &Work,
    shelf: &mut S,
    frames: &mut F,
    index: &mut I,
    report: &mut R,
    hook: &H,
) -> Ending
    requires within { IsWork work.now }
    requires reports { IsReportTask work.now.task }
    ensures { IsWorkRun (S.told shelf.old) (fetch_change (S.log shelf.old) (S.log shelf.new))
        (told_run options.now (F.closed frames.new) (sink_change (F.state frames.old) (F.state frames.new))
        (sink_change (I.state index.old) (I.state index.new)) (sink_change (R.state report.old) (R.state report.new))) work.now result }
{
    line_laws::lines_fit_their_text();
    match read_inputs(alloc, shelf, &work.script, work.fonts.as_slice()) {
        Ok(inputs) => tell_task(
            alloc, options, &work.task, inputs, frames, index, report, hook,
        ),
        Err(status) => {
            let tale = Tale::Ends(Ending::As(status));
            tell(alloc, options.report_form(), tale, report)
        }
    }
}

/// Does a `check`, a `changes` or a play of only what changes with its files, and tells of it as is asked for.
#[tactic(auto, using(crate::proofs::WorkLemmas::work_reports, crate::proofs::WorkLemmas::work_is_done))]
pub fn tell_work<S: Shelf, F: PipedSink, I: Sink, R: Sink, H: TestHook>(
    alloc: Global,
    options: &ReportOptions,
    job: Job,
    shelf: &mut S,
    frames: &mut F,
    index: &mut I,
    report: &mut R,
    hook: &H,
) -> Ending
    requires within { IsJob job }
    requires reports { IsReportWork job }
    ensures { IsWorkTold (S.told shelf.old) (fetch_change (S.log shelf.old) (S.log shelf.new))
        (told_run options.now (F.closed frames.new) (sink_change (F.state frames.old) (F.state frames.new))
        (sink_change (I.state index.old) (I.state index.new)) (sink_change (R.state report.old) (R.state report.new))) (work_in (Ok job)) result }
{
    match work_in(alloc, job) {
        Ok(Some(work)) => do_work(alloc, options, &work, shelf, frames, index, report, hook),
        Ok(None) => unreachable!(),
        Err(status) => {
            let tale = Tale::Ends(Ending::As(status));
            tell(alloc, options.report_form(), tale, report)
        }
    }
}

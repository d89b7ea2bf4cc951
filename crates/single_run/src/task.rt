//! A task, up to what is to be reported of it.

ghost use Rattle.std.specs.Prelude.{◌≡◌, ◌≢◌, Ok};
ghost use Rattle.ass_io.specs.Fetches.{fetch_change};
ghost use Rattle.ass_script.specs.Ranges.{IsScript};
ghost use Rattle.single_run.specs.Outcomes.{IsOrFault, IsStatusReadCounted, IsWriteCounted, SuitsSink, status_if_put};
ghost use Rattle.single_run.specs.Outcomes.{text_to_report};
ghost use Rattle.single_run.specs.CheckReports.{check_text};
ghost use Rattle.single_run.specs.Outputs.{IsAnswerOf, SuitsTask, task_status};
ghost use Rattle.single_run.specs.Runs.{IsTaskDone, IsWorked, sink_change};
ghost use Rattle.single_run.specs.Works.{AreInputsOf, IsWork};
ghost use Rattle.run_status.specs.declared.status.Status.TheVariants.{Done as done_status};

use crate::changes::compare;
use crate::check_report;
use crate::outcome::Outcome;
use crate::picture::draw;
use crate::rewrite::rewrite;
use crate::still_run::keep;
use crate::work::{Task, Work};
use ass_events::line_laws;
use ass_io::{Shelf, Sink};
use ass_num::OutOfMemory;
use run_status::{Inputs, Status, Which, read_inputs};
use std::alloc::Global;

/// What a check is to report.
fn check(alloc: Global, inputs: &Inputs) -> Outcome
    requires { IsScript inputs.now.script }
    ensures answered { IsOrFault Which.Report done_status (status_if_put result) }
    ensures text { status_if_put result ≡ done_status → text_to_report result ≡ check_text inputs.now.script inputs.now.fonts }
    ensures own { SuitsSink Which.Report result }
    ensures memory { status_if_put result ≢ done_status → result ≡ Outcome.Ended Status.OutOfMemory }
{
    match check_report(alloc, &inputs.script, inputs.fonts.as_slice()) {
        Ok(text) => Outcome::Found(text),
        Err(OutOfMemory) => Outcome::Ended(Status::OutOfMemory),
    }
}

/// Does a task with its inputs.
fn do_task<F: Sink>(alloc: Global, task: &Task, inputs: Inputs, frames: &mut F) -> Outcome
    requires script { IsScript inputs.script }
    requires inputs { AreInputsOf task.now inputs }
    ensures answered { IsAnswerOf task.now (task_status task.now inputs) (status_if_put result) }
    ensures done { IsTaskDone task.now (Ok inputs) (sink_change (F.state frames.old) (F.state frames.new)) result }
    ensures counted { IsWriteCounted (status_if_put result) (F.state frames.old).faults (F.state frames.new).faults }
    ensures own { SuitsTask task.now result }
{
    match task {
        Task::Check => check(alloc, &inputs),
        Task::Frame(frame) => Outcome::Ended(draw(alloc, frame, inputs, frames)),
        Task::Changes(changes) => compare(alloc, changes, inputs),
        Task::Stills(stills) => keep(alloc, stills, inputs, frames),
        Task::Write(write) => Outcome::Ended(rewrite(alloc, write, &inputs.script, frames)),
    }
}

/// Does the work of a job. Nothing goes to the frames sink before all files were read.
pub fn do_work<S: Shelf, F: Sink>(
    alloc: Global,
    work: &Work,
    shelf: &mut S,
    frames: &mut F,
) -> Outcome
    requires { IsWork work.now }
    ensures run { IsWorked (S.told shelf.old) (fetch_change (S.log shelf.old) (S.log shelf.new)) work.now
        (sink_change (F.state frames.old) (F.state frames.new)) result }
    ensures read { IsStatusReadCounted (status_if_put result) (S.faults shelf.old) (S.faults shelf.new) }
    ensures write { IsWriteCounted (status_if_put result) (F.state frames.old).faults (F.state frames.new).faults }
{
    line_laws::lines_fit_their_text();
    match read_inputs(alloc, shelf, &work.script, work.fonts.as_slice()) {
        Ok(inputs) => do_task(alloc, &work.task, inputs, frames),
        Err(status) => Outcome::Ended(status),
    }
}

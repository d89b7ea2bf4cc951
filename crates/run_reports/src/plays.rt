//! Plays that are told otherwise than by default.

ghost use Rattle.std.specs.Prelude.{◌≡◌, IfOk, IsOk, string_bytes};
ghost use Rattle.ass_io.specs.Fetches.{fetch_change};
ghost use Rattle.run_reports.specs.Tales.{IsPlayTale, IsPlayTold, IsPlayWhole, fault_ending, play_in};
ghost use Rattle.run_words.specs.Jobs.{IsPlay};
ghost use Rattle.single_run.specs.Runs.{sink_change};

use crate::tale::Tale;
use crate::tell::tell;
use ass_io::{PipedSink, Rt, Shelf, Sink};
use ass_num::{Mem, OutOfMemory, Text};
use play_command::{play_headed, play_inputs};
use play_report::{PlayReport, report_json, report_text};
use play_rounds::PlayEnd;
use run_status::{Ending, Status, Which};
use run_words::{PlayJob, ReportForm, ScriptSource};
use std::alloc::Global;
use test_hook::TestHook;

/// The report of a play in a form. The silent one takes no memory.
fn play_in(alloc: Global, form: ReportForm, report: &PlayReport) -> Mem<String>
    ensures text { IfOk result (λ text. string_bytes text ≡ play_in form report.now) }
    ensures silent { form ≡ ReportForm.Silent → IsOk result }
{
    match form {
        ReportForm::Text => report_text(alloc, report),
        ReportForm::Json => report_json(alloc, report),
        ReportForm::Silent => Ok(String::new(alloc)),
    }
}

/// How a play ends at a fault of the frames sink.
pub fn fault_ending(is_closed: bool, is_quiet: bool) -> Ending
    ensures { result ≡ fault_ending is_closed is_quiet }
{
    if !is_closed {
        Ending::As(Status::WriteFault(Which::Frames))
    } else if is_quiet {
        Ending::ClosedQuietly
    } else {
        Ending::Closed
    }
}

/// What a play that ended so came to.
fn play_tale(alloc: Global, form: ReportForm, fault: Ending, end: PlayEnd) -> Tale
    ensures { IsPlayTale form fault end result }
{
    match end {
        PlayEnd::Done(report) => match play_in(alloc, form, &report) {
            Ok(text) => Tale::Found(text),
            Err(OutOfMemory) => Tale::Ends(Ending::As(Status::OutOfMemory)),
        },
        PlayEnd::WriteFault => Tale::Ends(fault),
        PlayEnd::OutOfMemory => Tale::Ends(Ending::As(Status::OutOfMemory)),
    }
}

/// Plays a job with its files, up to what is to be told of it. Nothing goes to the frames sink before all files were read.
fn play_asked<S: Shelf, F: PipedSink, H: TestHook + Sync>(
    rt: &impl Rt,
    alloc: Global,
    form: ReportForm,
    is_quiet: bool,
    job: PlayJob,
    script: &ScriptSource,
    fonts: &[Text],
    shelf: &mut S,
    frames: &mut F,
    hook: &H,
) -> Tale
    requires { IsPlay job }
    ensures { IsPlayWhole (S.told shelf.old) (fetch_change (S.log shelf.old) (S.log shelf.new)) form (fault_ending (F.closed frames.new) is_quiet)
        job script.now fonts.now (sink_change (F.state frames.old) (F.state frames.new)) result }
{
    match play_inputs(alloc, shelf, &job, script, fonts) {
        Ok(inputs) => {
            let end = play_headed(rt, alloc, job, inputs, frames, hook);
            play_tale(alloc, form, fault_ending(frames.is_closed(), is_quiet), end)
        }
        Err(status) => Tale::Ends(Ending::As(status)),
    }
}

/// Plays a job with its files, and tells in a form what came of it. Where who reads the images is gone, that is how the run
/// ends, quietly where that is asked for.
pub fn tell_play<S: Shelf, F: PipedSink, R: Sink, H: TestHook + Sync>(
    rt: &impl Rt,
    alloc: Global,
    form: ReportForm,
    is_quiet: bool,
    job: PlayJob,
    script: &ScriptSource,
    fonts: &[Text],
    shelf: &mut S,
    frames: &mut F,
    report: &mut R,
    hook: &H,
) -> Ending
    requires { IsPlay job }
    ensures { IsPlayTold (S.told shelf.old) (fetch_change (S.log shelf.old) (S.log shelf.new)) form (fault_ending (F.closed frames.new) is_quiet)
        job script.now fonts.now (sink_change (F.state frames.old) (F.state frames.new))
        (sink_change (R.state report.old) (R.state report.new)) result }
{
    let tale = play_asked(
        rt, alloc, form, is_quiet, job, script, fonts, shelf, frames, hook,
    );
    tell(alloc, form, tale, report)
}

//! Plays of only what changes that are told otherwise than by default.

ghost use Rattle.std.specs.Prelude.{◌≡◌, IfOk, IsOk, string_bytes};
ghost use Rattle.ass_events.specs.LineLaws.{HasShortLines};
ghost use Rattle.ass_script.specs.Ranges.{IsScript};
ghost use Rattle.run_reports.specs.StillTales.{AreStillsTold, IsListAnswered, IsListPut, IsListedTale, IsStillsTale, format_name, index_in};
ghost use Rattle.run_reports.specs.Tales.{fault_ending};
ghost use Rattle.run_words.specs.Jobs.{IsStills};
ghost use Rattle.single_run.specs.Runs.{sink_change};
ghost use Rattle.still_images.specs.Stills.{stills_view};
ghost use Rattle.frame_rate.specs.Instants.{AreInstants};
ghost use Rattle.text_layout.specs.Fonts.{IsLayoutFontSet};

use crate::plays::fault_ending;
use crate::tale::Tale;
use crate::tell::tell;
use ass_io::{PipedSink, Put, Sink};
use ass_num::{Items, Mem, OutOfMemory};
use run_status::{Ending, Inputs, Status};
use run_words::{FrameFormat, ReportForm, ReportOptions, StillsJob};
use std::alloc::Global;
use still_images::{StillsFault, end_instant, list_stills};
use still_lists::{StillEntry, concat_text, json_index, words_index};
use test_hook::TestHook;

/// The index in a form. The silent one takes no memory.
fn index_in(
    alloc: Global,
    form: ReportForm,
    entries: &[StillEntry],
    count: u64,
    end: u64,
) -> Mem<String>
    ensures text { IfOk result (λ text. string_bytes text ≡ index_in form entries.now count end) }
    ensures silent { form ≡ ReportForm.Silent → IsOk result }
{
    match form {
        ReportForm::Text => words_index(alloc, entries, count, end),
        ReportForm::Json => json_index(alloc, entries, count, end),
        ReportForm::Silent => Ok(String::new(alloc)),
    }
}

/// What files of images in a format end with.
fn format_name(format: FrameFormat) -> &'static str
    ensures { result.now ≡ format_name format }
{
    match format {
        FrameFormat::Ppm => "ppm",
        FrameFormat::Pam => "pam",
        FrameFormat::Rgba => "rgba",
    }
}

/// Puts the list of images to its file.
fn put_wanted<I: Sink>(alloc: Global, job: &StillsJob, entries: &[StillEntry], index: &mut I) -> Put
    requires { AreInstants job.now.instants }
    ensures { IsListAnswered job.now entries.now result (I.state index.old) (I.state index.new) }
{
    let end = end_instant(&job.instants);
    match concat_text(alloc, format_name(job.format), entries, end) {
        Ok(text) => index.put(text.as_bytes()),
        Err(OutOfMemory) => Put::OutOfMemory,
    }
}

/// The same, where it is wanted.
fn put_list<I: Sink>(
    alloc: Global,
    options: &ReportOptions,
    job: &StillsJob,
    entries: &[StillEntry],
    index: &mut I,
) -> Put
    requires { AreInstants job.now.instants }
    ensures { IsListPut options.now.index job.now entries.now result (I.state index.old) (I.state index.new) }
{
    match &options.index {
        Some(_name) => put_wanted(alloc, job, entries, index),
        None => Put::Done,
    }
}

/// What a play came to whose list was put so.
fn listed_tale(
    alloc: Global,
    form: ReportForm,
    job: &StillsJob,
    entries: &[StillEntry],
    answer: Put,
) -> Tale
    requires { AreInstants job.now.instants }
    ensures { IsListedTale form job.now entries.now answer result }
{
    match answer {
        Put::Done => {
            let end = end_instant(&job.instants);
            match index_in(alloc, form, entries, job.instants.count, end) {
                Ok(text) => Tale::Found(text),
                Err(OutOfMemory) => Tale::Ends(Ending::As(Status::OutOfMemory)),
            }
        }
        Put::Failed => Tale::Ends(Ending::ListFault),
        Put::OutOfMemory => Tale::Ends(Ending::As(Status::OutOfMemory)),
    }
}

/// What a play came to whose images ended so.
fn stills_tale<I: Sink>(
    alloc: Global,
    options: &ReportOptions,
    form: ReportForm,
    fault: Ending,
    job: &StillsJob,
    end: Result<Items<StillEntry>, StillsFault>,
    index: &mut I,
) -> Tale
    requires { AreInstants job.now.instants }
    ensures { IsStillsTale form fault options.now.index job.now
        (sink_change (I.state index.old) (I.state index.new)) end result }
{
    match end {
        Ok(entries) => {
            let entries = entries.as_slice();
            let answer = put_list(alloc, options, job, entries, index);
            listed_tale(alloc, form, job, entries, answer)
        }
        Err(StillsFault::WriteFault) => Tale::Ends(fault),
        Err(StillsFault::OutOfMemory) => Tale::Ends(Ending::As(Status::OutOfMemory)),
    }
}

/// Shows a script in fonts from instant to instant, and puts the images of what changes to the frames sink, the list of them to its
/// file, where it is wanted, and their index to the report. The hook is called after each instant.
pub fn tell_stills<F: PipedSink, I: Sink, R: Sink, H: TestHook>(
    alloc: Global,
    options: &ReportOptions,
    form: ReportForm,
    job: &StillsJob,
    inputs: Inputs,
    frames: &mut F,
    index: &mut I,
    report: &mut R,
    hook: &H,
) -> Ending
    requires job { IsStills job.now }
    requires script { IsScript inputs.script }
    requires short { HasShortLines inputs.script }
    requires fonts { IsLayoutFontSet inputs.fonts }
    ensures { AreStillsTold form (fault_ending (F.closed frames.new) options.now.quiet_pipe) options.now.index (stills_view job.now inputs.script inputs.fonts)
        (sink_change (F.state frames.old) (F.state frames.new)) (sink_change (I.state index.old) (I.state index.new))
        (R.state report.old) (R.state report.new) result }
{
    let Inputs { script, fonts } = inputs;
    let end = list_stills(alloc, job, &script, fonts, frames, hook);
    let fault = fault_ending(frames.is_closed(), options.quiet_pipe);
    let tale = stills_tale(alloc, options, form, fault, job, end, index);
    tell(alloc, form, tale, report)
}

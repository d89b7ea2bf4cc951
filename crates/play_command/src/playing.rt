//! A play, up to what is to be reported of it.

ghost use Rattle.std.specs.Prelude.{◌≡◌, IfOk};
ghost use Rattle.std.specs.Arc.{arc_value};
ghost use Rattle.ass_io.specs.Fetches.{fetch_change};
ghost use Rattle.single_run.specs.Outcomes.{IsReportable, IsStatusReadCounted, IsWriteCounted, status_if_put};
ghost use Rattle.single_run.specs.Runs.{sink_change};
ghost use Rattle.play_command.specs.PlayRuns.{view_of};
ghost use Rattle.play_command.specs.Working.{IsHeadedPlay, IsPlayWorked, IsSpoken, IsToldOf};
ghost use Rattle.play_model.specs.Heads.{head_in};
ghost use Rattle.play_model.specs.Plays.{IsPlayable};
ghost use Rattle.play_rounds.specs.Outputs.{ArePut, IsPlayed};
ghost use Rattle.run_words.specs.Forms.{image_form};
ghost use Rattle.run_words.specs.Jobs.{IsPlay};
ghost use Rattle.run_words.specs.declared.job.ImageForm.TheVariants.{Video};

use crate::reading::play_inputs;
use ass_io::{Put, Rt, Shelf, Sink};
use ass_num::{Mem, OutOfMemory, Text};
use ass_script::Script;
use bdf_font::FontSet;
use play_report::report_text;
use play_rounds::{PlayEnd, play};
use run_status::{Inputs, Status, Which};
use run_words::{ImageForm, PlayJob, ScriptSource, image_form};
use single_run::Outcome;
use std::alloc::Global;
use std::sync::Arc;
use test_hook::TestHook;
use y4m_text::{VideoForm, stream_head};

/// A script and fonts that threads share.
fn shared(alloc: Global, inputs: Inputs) -> Mem<(Arc<Script>, Arc<FontSet>)>
    ensures script { IfOk result (λ both. arc_value both.0 ≡ inputs.script) }
    ensures fonts { IfOk result (λ both. (arc_value both.1).fonts ≡ inputs.fonts) }
{
    let Inputs { script, fonts } = inputs;
    let script = Arc::new(alloc, script)?;
    let fonts = Arc::new(alloc, FontSet { fonts })?;
    Ok((script, fonts))
}

/// Plays a job with what was read for it.
pub fn play_with<F: Sink, H: TestHook + Sync>(
    rt: &impl Rt,
    alloc: Global,
    job: PlayJob,
    inputs: Inputs,
    frames: &mut F,
    hook: &H,
) -> PlayEnd
    requires { IsPlayable (view_of job inputs) }
    ensures { IsPlayed (view_of job inputs) result (F.state frames.old) (F.state frames.new) }
{
    match shared(alloc, inputs) {
        Ok((script, fonts)) => play(rt, alloc, job, script, fonts, frames, hook),
        Err(OutOfMemory) => PlayEnd::OutOfMemory,
    }
}

/// Puts the head of a video, by one put.
fn put_stream_head<F: Sink>(alloc: Global, job: &PlayJob, form: VideoForm, frames: &mut F) -> Put
    ensures { ArePut (head_in (Video form) job.now.size job.now.instants.rate) result (F.state frames.old) (F.state frames.new) }
{
    let rate = job.instants.rate;
    match stream_head(alloc, &job.size, rate.frames, rate.seconds, form) {
        Ok(head) => frames.put(head.as_bytes()),
        Err(OutOfMemory) => Put::OutOfMemory,
    }
}

/// Puts what stands before the images of a play, if there is something.
fn put_head<F: Sink>(alloc: Global, job: &PlayJob, script: &Script, frames: &mut F) -> Put
    ensures { ArePut (head_in (image_form job.now.format script.now.header.matrix) job.now.size job.now.instants.rate) result (F.state frames.old) (F.state frames.new) }
{
    match image_form(job.format, script.header().matrix) {
        ImageForm::Image(_) => Put::Done,
        ImageForm::Video(form) => put_stream_head(alloc, job, form, frames),
    }
}

/// Plays a job with what was read for it, behind the head of its video, if it is one.
pub fn play_headed<F: Sink, H: TestHook + Sync>(
    rt: &impl Rt,
    alloc: Global,
    job: PlayJob,
    inputs: Inputs,
    frames: &mut F,
    hook: &H,
) -> PlayEnd
    requires { IsPlayable (view_of job inputs) }
    ensures { IsHeadedPlay (view_of job inputs) result (F.state frames.old) (F.state frames.new) }
{
    match put_head(alloc, &job, &inputs.script, frames) {
        Put::Done => play_with(rt, alloc, job, inputs, frames, hook),
        Put::Failed => PlayEnd::WriteFault,
        Put::OutOfMemory => PlayEnd::OutOfMemory,
    }
}

/// What is to be reported of a play.
fn told(alloc: Global, end: PlayEnd) -> Outcome
    ensures { IsToldOf end result }
{
    match end {
        PlayEnd::Done(report) => match report_text(alloc, &report) {
            Ok(text) => Outcome::Found(text),
            Err(OutOfMemory) => Outcome::Ended(Status::OutOfMemory),
        },
        PlayEnd::WriteFault => Outcome::Ended(Status::WriteFault(Which::Frames)),
        PlayEnd::OutOfMemory => Outcome::Ended(Status::OutOfMemory),
    }
}

/// Plays a job with its files. Nothing goes to the frames sink before all files were read.
pub fn play_files<S: Shelf, F: Sink, H: TestHook + Sync>(
    rt: &impl Rt,
    alloc: Global,
    job: PlayJob,
    script: &ScriptSource,
    fonts: &[Text],
    shelf: &mut S,
    frames: &mut F,
    hook: &H,
) -> Outcome
    requires { IsPlay job }
    ensures run { IsPlayWorked (S.told shelf.old) (fetch_change (S.log shelf.old) (S.log shelf.new))
        job script.now fonts.now (sink_change (F.state frames.old) (F.state frames.new)) result }
    ensures read { IsStatusReadCounted (status_if_put result) (S.faults shelf.old) (S.faults shelf.new) }
    ensures write { IsWriteCounted (status_if_put result) (F.state frames.old).faults (F.state frames.new).faults }
    ensures reportable { IsReportable result }
    ensures spoken { IsSpoken result }
{
    match play_inputs(alloc, shelf, &job, script, fonts) {
        Ok(inputs) => told(alloc, play_headed(rt, alloc, job, inputs, frames, hook)),
        Err(status) => Outcome::Ended(status),
    }
}

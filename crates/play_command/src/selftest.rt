//! A selftest, up to what is to be reported of it.

ghost use Rattle.std.specs.Prelude.{◌≡◌, ◌≢◌, ◌≤◌, IfOk, length, string_bytes};
ghost use Rattle.play_command.specs.SelftestRuns.{accepted_first, selftest_job, summary_in};
ghost use Rattle.play_command.specs.Working.{IsSelftestWorkedBy, IsSummedBy};
ghost use Rattle.play_report.specs.Digests.{digest_after};
ghost use Rattle.play_rounds.specs.declared.ends.PlayEnd.TheVariants as play_end;
ghost use Rattle.run_words.specs.Jobs.{IsJob};
ghost use Rattle.run_words.specs.Limits.{max_events};
ghost use Rattle.run_words.specs.declared.job.Job.TheVariants.{Selftest};

use crate::playing::play_with;
use crate::reading::selftest_inputs;
use ass_io::{MemorySink, Rt};
use ass_num::{Mem, OutOfMemory, Size};
use frame_rate::{FrameRate, Instants};
use play_report::{PlayReport, digest_after, summary_json, summary_text};
use play_rounds::PlayEnd;
use run_status::Status;
use run_words::{FrameFormat, Mode, PlayFormat, PlayJob, ReportForm};
use single_run::Outcome;
use std::alloc::Global;
use test_hook::TestHook;

/// How many images a selftest makes.
const IMAGE_COUNT: u64 = 20;

/// What is played: instants over the time in which the events begin.
fn selftest_job(events: u32, workers: u32) -> PlayJob
    requires { events ≤ max_events }
    ensures { result ≡ selftest_job events workers }
{
    let step = 5 * u64::from(events);
    PlayJob {
        instants: Instants {
            from: 0,
            count: IMAGE_COUNT,
            rate: FrameRate::of_step(step),
        },
        size: Size { w: 320, h: 180 },
        feeders: workers,
        renderers: workers,
        batch: 16,
        again: 0,
        times: 1,
        ahead: 0,
        bands: 1,
        format: PlayFormat::Image(FrameFormat::Ppm),
        budget: 1_048_576,
        mode: Mode::Settled,
    }
}

/// How many events were accepted.
fn accepted_count(report: &PlayReport) -> usize
    ensures { result ≡ length (accepted_first report.now) }
{
    match report.accepted.as_slice() {
        [orders, ..] => orders.len(),
        [] => 0,
    }
}

/// The report of a selftest in a form.
fn summary_in(
    alloc: Global,
    form: ReportForm,
    seed: u32,
    events: u32,
    accepted: usize,
    frames: u64,
    digest: u32,
) -> Mem<String>
    ensures { IfOk result (λ text. string_bytes text ≡ summary_in form seed events accepted frames digest) }
{
    match form {
        ReportForm::Text => summary_text(alloc, seed, events, accepted, frames, digest),
        ReportForm::Json => summary_json(alloc, seed, events, accepted, frames, digest),
        ReportForm::Silent => Ok(String::new(alloc)),
    }
}

/// The summary of a selftest, of its play's report and of its images.
fn summary_of(
    alloc: Global,
    form: ReportForm,
    seed: u32,
    events: u32,
    report: &PlayReport,
    images: &[u8],
) -> Mem<String>
    ensures { IfOk result (λ text. string_bytes text ≡ summary_in form seed events (length (accepted_first report.now)) report.now.frames
        (digest_after 0 images.now)) }
{
    let digest = digest_after(0, images);
    let accepted = accepted_count(report);
    summary_in(alloc, form, seed, events, accepted, report.frames, digest)
}

/// What is to be reported of a selftest whose play ended so and put these images. A sink in memory never fails.
fn summed(
    alloc: Global,
    form: ReportForm,
    seed: u32,
    events: u32,
    end: PlayEnd,
    images: &[u8],
) -> Outcome
    requires { end ≢ play_end.WriteFault }
    ensures { IsSummedBy (summary_in form) seed events images.now end result }
{
    match end {
        PlayEnd::Done(report) => match summary_of(alloc, form, seed, events, &report, images) {
            Ok(text) => Outcome::Found(text),
            Err(OutOfMemory) => Outcome::Ended(Status::OutOfMemory),
        },
        PlayEnd::WriteFault => unreachable!(),
        PlayEnd::OutOfMemory => Outcome::Ended(Status::OutOfMemory),
    }
}

/// Plays a generated script, and digests the images, for a report in a form.
pub fn do_selftest<H: TestHook + Sync>(
    rt: &impl Rt,
    alloc: Global,
    form: ReportForm,
    seed: u32,
    events: u32,
    workers: u32,
    hook: &H,
) -> Outcome
    requires { IsJob (Selftest seed events workers) }
    ensures { IsSelftestWorkedBy (summary_in form) seed events result }
{
    match selftest_inputs(alloc, seed, events) {
        Ok(inputs) => {
            let job = selftest_job(events, workers);
            let mut images = MemorySink::new(alloc);
            let end = play_with(rt, alloc, job, inputs, &mut images, hook);
            summed(alloc, form, seed, events, end, images.bytes())
        }
        Err(status) => Outcome::Ended(status),
    }
}

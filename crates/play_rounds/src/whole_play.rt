//! A whole play.

ghost use Rattle.std.specs.Prelude.{◌≡◌, ◌≤◌, ℕ, [], length, filter, not, IfOk};
ghost use Rattle.std.specs.Arc.{arc_value};
ghost use Rattle.play_model.specs.Plays.{IsPlayable};
ghost use Rattle.play_workers.specs.Asks.{masks_seen};
ghost use Rattle.play_rounds.specs.Passes.{IsAllJoined};
ghost use Rattle.play_workers.specs.Stages.{IsPlayStage, play_on};
ghost use Rattle.renderer.specs.Passes.{IsFirstPass, IsNewRenderer, IsPassOfRenderer, RenderView};
ghost use Rattle.track_history.specs.Calls.{history_of};
ghost use Rattle.play_rounds.specs.Outputs.{AreLastTotals, IsPlayed};
ghost use Rattle.play_rounds.specs.Times.{EndsAs};

use crate::ends::{PlayEnd, Played, Stop};
use crate::times::all_times;
use ass_io::Sink;
use ass_num::{Mem, OutOfMemory};
use ass_script::Script;
use bdf_font::FontSet;
use evict_core::Totals;
use play_report::PlayReport;
use play_shares::instant_count;
use play_workers::{PlayStage, good_flags};
use renderer::{RenderPass, Renderer};
use run_words::PlayJob;
use std::alloc::Global;
use std::sync::{Arc, Wait};
use std::thread::Threads;
use test_hook::TestHook;

/// How many Dialogue lines give no event.
fn malformed_count(good: &[bool]) -> u64
    ensures { result ≡ length (filter (λ flag. not flag) good.now) }
{
    let mut count = 0;
    for flag in good {
        if !*flag {
            count += 1;
        }
    }
    count
}

/// The stage of a job, and the first pass of its renderer.
fn set_stage(
    alloc: Global,
    job: PlayJob,
    script: Arc<Script>,
    fonts: Arc<FontSet>,
) -> Mem<(PlayStage, RenderPass)>
    requires { IsPlayable (record { job = job; script = arc_value script; fonts = (arc_value fonts).fonts }) }
    ensures stage { IfOk result (λ r. IsPlayStage r.0) }
    ensures play { IfOk result (λ r. play_on r.0 ≡ record { job = job; script = arc_value script; fonts = (arc_value fonts).fonts }) }
    ensures opened { IfOk result (λ r. IsNewRenderer r.0.renderer r.1 job.budget) }
    ensures home { IfOk result (λ r. IsAllJoined r.0.renderer r.1) }
    ensures new { IfOk result (λ r. history_of r.1.track.seen ≡ []) }
    ensures next { IfOk result (λ r. r.1.track.next ≡ 1) }
{
    let good = good_flags(alloc, &script)?;
    let shared = Arc::try_clone(&script)?;
    let (renderer, first) = Renderer::open(alloc, shared, fonts, job.budget)?;
    let stage = PlayStage {
        job,
        script,
        good,
        renderer,
    };
    Ok((stage, first))
}

/// The totals of the caches, when all other passes are joined.
fn last_totals<R: Wait>(rt: &R, renderer: &Renderer, first: RenderPass) -> (RenderPass, [Totals; 3])
    requires { IsAllJoined renderer.now first }
    ensures pass { IsPassOfRenderer renderer.now result.0 }
    ensures first { IsFirstPass result.0 }
    ensures totals { (budget asks : ℕ) (opening : RenderView) → IsNewRenderer renderer.now opening budget → asks ≤ masks_seen renderer.now first
        → AreLastTotals budget asks result.1 }
{
    renderer.totals(rt, first)
}

/// How a play ended that came so far.
fn end_of(stage: &PlayStage, played: Result<Played, Stop>, totals: [Totals; 3]) -> PlayEnd
    requires { IsPlayStage stage.now }
    ensures { EndsAs stage.now.job stage.now.good played totals result }
{
    match played {
        Ok(played) => PlayEnd::Done(PlayReport {
            accepted: played.accepted,
            malformed: malformed_count(stage.good.as_slice()),
            repeated: played.repeated,
            frames: u64::from(stage.job.times) * instant_count(&stage.job),
            totals,
        }),
        Err(Stop::WriteFault) => PlayEnd::WriteFault,
        Err(Stop::OutOfMemory) => PlayEnd::OutOfMemory,
    }
}

/// Plays a job with its script and its fonts, and writes the images of each time, in the order of their instants, by as
/// many puts as there are.
pub fn play<R: Threads + Wait + Sync, F: Sink, H: TestHook + Sync>(
    rt: &R,
    alloc: Global,
    job: PlayJob,
    script: Arc<Script>,
    fonts: Arc<FontSet>,
    frames: &mut F,
    hook: &H,
) -> PlayEnd
    requires playable { IsPlayable (record { job = job; script = arc_value script; fonts = (arc_value fonts).fonts }) }
    ensures played { IsPlayed (record { job = job; script = arc_value script; fonts = (arc_value fonts).fonts }) result (F.state frames.old) (F.state frames.new) }
{
    let (stage, first) = match set_stage(alloc, job, script, fonts) {
        Ok(set) => set,
        Err(OutOfMemory) => return PlayEnd::OutOfMemory,
    };
    let (first, played) = all_times(rt, alloc, &stage, first, frames, hook);
    let (first, totals) = last_totals(rt, &stage.renderer, first);
    let end = end_of(&stage, played, totals);
    let PlayStage {
        job: _,
        script: _,
        good: _,
        renderer,
    } = stage;
    renderer.close(first);
    end
}

//! The times of a play.

ghost use Rattle.std.specs.Prelude.{◌≡◌, ◌+◌, ◌*◌, ◌<◌, ◌≤◌, [], IfErr, IfOk};
ghost use Rattle.play_model.specs.Images.{shown_pieces};
ghost use Rattle.play_workers.specs.Asks.{masks_seen};
ghost use Rattle.play_rounds.specs.Passes.{IsAllJoined};
ghost use Rattle.play_shares.specs.Instants.{instant_count};
ghost use Rattle.run_words.specs.Limits.{max_times};
ghost use Rattle.run_words.specs.declared.job.Mode.TheVariants.{Settled};
ghost use Rattle.play_workers.specs.Limits.{max_rounds};
ghost use Rattle.play_workers.specs.Stages.{IsPlayStage, play_on};
ghost use Rattle.track_history.specs.Calls.{history_of};
ghost use Rattle.play_rounds.specs.Limits.{max_drawn};
ghost use Rattle.play_rounds.specs.Outputs.{AreImagesWritten, IsCutOff, IsStopped};
ghost use Rattle.play_rounds.specs.Times.{BeginsTime, HavePlayed, PlaysTime, PlaysTimes, StopsInTime, StopsInTimes};

use crate::ends::{Played, Stop};
use crate::rounds::play_shift;
use crate::shift::Shift;
use ass_io::Sink;
use ass_num::{Items, OutOfMemory};
use play_workers::PlayStage;
use renderer::RenderPass;
use run_words::Mode;
use std::alloc::Global;
use std::sync::Wait;
use std::thread::Threads;
use test_hook::TestHook;

/// Plays the job once, with all lines fed first.
fn play_settled<R: Threads + Wait + Sync, F: Sink, H: TestHook + Sync>(
    rt: &R,
    alloc: Global,
    stage: &PlayStage,
    first: RenderPass,
    frames: &mut F,
    hook: &H,
) -> (RenderPass, Result<u64, Stop>)
    requires stage { IsPlayStage stage.now }
    requires mode { stage.now.job.mode ≡ Settled }
    requires room { first.track.next + 2 * max_drawn ≤ u32.MAX }
    requires home { IsAllJoined stage.now.renderer first }
    ensures home { IsAllJoined stage.now.renderer result.0 }
    ensures drawn { result.0.track.next ≤ first.track.next + 2 * max_drawn }
    ensures few { IfOk result.1 (λ more. more ≤ 2 * (max_rounds * u32.MAX)) }
    ensures played { IfOk result.1 (λ more. PlaysTime (play_on stage.now) (history_of first.track.seen) (history_of result.0.track.seen) more
        (λ images. AreImagesWritten images (F.state frames.old) (F.state frames.new) (masks_seen stage.now.renderer first) (masks_seen stage.now.renderer result.0))) }
    ensures stopped { IfErr result.1 (λ stop. StopsInTime (play_on stage.now) (history_of first.track.seen)
        (λ images. IsCutOff stop (shown_pieces images) (F.state frames.old) (F.state frames.new))) }
{
    let (first, fed) = play_shift(rt, alloc, stage, Shift::Feed, first, frames, hook);
    let repeated = match fed {
        Ok(repeated) => repeated,
        Err(stop) => return (first, Err(stop)),
    };
    let (after, painted) = play_shift(rt, alloc, stage, Shift::Paint, first, frames, hook);
    match painted {
        Ok(more) => (after, Ok(repeated + more)),
        Err(stop) => (after, Err(stop)),
    }
}

/// Plays the job once: lines and instants together, or all lines first.
fn play_once<R: Threads + Wait + Sync, F: Sink, H: TestHook + Sync>(
    rt: &R,
    alloc: Global,
    stage: &PlayStage,
    first: RenderPass,
    frames: &mut F,
    hook: &H,
) -> (RenderPass, Result<u64, Stop>)
    requires stage { IsPlayStage stage.now }
    requires room { first.track.next + 2 * max_drawn ≤ u32.MAX }
    requires home { IsAllJoined stage.now.renderer first }
    ensures home { IsAllJoined stage.now.renderer result.0 }
    ensures drawn { result.0.track.next ≤ first.track.next + 2 * max_drawn }
    ensures few { IfOk result.1 (λ more. more ≤ 2 * (max_rounds * u32.MAX)) }
    ensures played { IfOk result.1 (λ more. PlaysTime (play_on stage.now) (history_of first.track.seen) (history_of result.0.track.seen) more
        (λ images. AreImagesWritten images (F.state frames.old) (F.state frames.new) (masks_seen stage.now.renderer first) (masks_seen stage.now.renderer result.0))) }
    ensures stopped { IfErr result.1 (λ stop. StopsInTime (play_on stage.now) (history_of first.track.seen)
        (λ images. IsCutOff stop (shown_pieces images) (F.state frames.old) (F.state frames.new))) }
{
    match stage.job.mode {
        Mode::Live => play_shift(rt, alloc, stage, Shift::Both, first, frames, hook),
        Mode::Settled => play_settled(rt, alloc, stage, first, frames, hook),
    }
}

/// Drops what earlier times fed, where there was one.
fn begin_time<R: Wait>(
    rt: &R,
    alloc: Global,
    stage: &PlayStage,
    time: u32,
    first: RenderPass,
) -> RenderPass
    requires stage { IsPlayStage stage.now }
    requires time { time < max_times }
    requires home { IsAllJoined stage.now.renderer first }
    ensures home { IsAllJoined stage.now.renderer result }
    ensures drawn { result.track.next ≡ first.track.next }
    ensures begins { BeginsTime (play_on stage.now) time (history_of first.track.seen) (history_of result.track.seen) }
    ensures asks { masks_seen stage.now.renderer result ≡ masks_seen stage.now.renderer first }
{
    if time == 0 {
        return first;
    }
    let (first, _) = stage.renderer.flush(rt, alloc, first);
    first
}

/// Plays the job once, and tells what was accepted.
fn one_time<R: Threads + Wait + Sync, F: Sink, H: TestHook + Sync>(
    rt: &R,
    alloc: Global,
    stage: &PlayStage,
    time: u32,
    first: RenderPass,
    frames: &mut F,
    hook: &H,
) -> (RenderPass, Result<(u64, Items<u32>), Stop>)
    requires stage { IsPlayStage stage.now }
    requires time { time < stage.now.job.times }
    requires room { first.track.next + 2 * max_drawn ≤ u32.MAX }
    requires home { IsAllJoined stage.now.renderer first }
    ensures home { IsAllJoined stage.now.renderer result.0 }
    ensures drawn { result.0.track.next ≤ first.track.next + 2 * max_drawn }
    ensures few { IfOk result.1 (λ more. more.0 ≤ 2 * (max_rounds * u32.MAX)) }
    ensures played { IfOk result.1 (λ more. PlaysTimes (play_on stage.now) time (history_of first.track.seen) (history_of result.0.track.seen) more.0 more.1
        (λ next. AreImagesWritten next (F.state frames.old) (F.state frames.new) (masks_seen stage.now.renderer first) (masks_seen stage.now.renderer result.0))) }
    ensures stopped { IfErr result.1 (λ stop. StopsInTimes (play_on stage.now) time (history_of first.track.seen)
        (λ images. IsCutOff stop (shown_pieces images) (F.state frames.old) (F.state frames.new))) }
{
    let first = begin_time(rt, alloc, stage, time, first);
    let (first, played) = play_once(rt, alloc, stage, first, frames, hook);
    let repeated = match played {
        Ok(repeated) => repeated,
        Err(stop) => return (first, Err(stop)),
    };
    let (first, orders) = stage.renderer.orders(rt, alloc, first);
    match orders {
        Ok(orders) => (first, Ok((repeated, orders))),
        Err(OutOfMemory) => (first, Err(Stop::OutOfMemory)),
    }
}

/// Plays the job as often as was asked for.
pub fn all_times<R: Threads + Wait + Sync, F: Sink, H: TestHook + Sync>(
    rt: &R,
    alloc: Global,
    stage: &PlayStage,
    first: RenderPass,
    frames: &mut F,
    hook: &H,
) -> (RenderPass, Result<Played, Stop>)
    requires stage { IsPlayStage stage.now }
    requires home { IsAllJoined stage.now.renderer first }
    requires new { history_of first.track.seen ≡ [] }
    requires next { first.track.next ≡ 1 }
    ensures home { IsAllJoined stage.now.renderer result.0 }
    ensures played { IfOk result.1 (λ played. HavePlayed (play_on stage.now) stage.now.job.times (history_of result.0.track.seen) played
        (λ images. AreImagesWritten images (F.state frames.old) (F.state frames.new) (masks_seen stage.now.renderer first) (masks_seen stage.now.renderer result.0))) }
    ensures stopped { IfErr result.1 (λ stop. IsStopped (play_on stage.now) stop (F.state frames.old) (F.state frames.new)) }
{
    let mut first = first;
    let mut played = Played {
        accepted: Items::new(alloc),
        repeated: 0,
    };
    for time in 0..stage.job.times {
        let (next, came) = one_time(rt, alloc, stage, time, first, frames, hook);
        first = next;
        match came {
            Ok(more) => {
                let (repeated, orders) = more;
                played.repeated += repeated;
                match played.accepted.push(orders) {
                    Ok(()) => {}
                    Err(OutOfMemory) => return (first, Err(Stop::OutOfMemory)),
                }
            }
            Err(stop) => return (first, Err(stop)),
        }
    }
    (first, Ok(played))
}

//! The rounds of a shift.

ghost use Rattle.std.specs.Prelude.{◌≡◌, ◌+◌, ◌*◌, ◌<◌, ◌≤◌, length, All, IfErr, IfOk};
ghost use Rattle.play_model.specs.Images.{shown_pieces};
ghost use Rattle.play_workers.specs.Asks.{masks_seen};
ghost use Rattle.play_rounds.specs.Passes.{IsAllJoined};
ghost use Rattle.play_rounds.specs.Rounds.{worker_roles};
ghost use Rattle.play_workers.specs.Limits.{max_rounds};
ghost use Rattle.play_workers.specs.Parts.{HasNoPass};
ghost use Rattle.play_workers.specs.Roles.{IsRoleOf};
ghost use Rattle.play_workers.specs.Stages.{IsPlayStage, play_on};
ghost use Rattle.play_workers.specs.declared.worker.Worker.{Worker};
ghost use Rattle.track_history.specs.Calls.{history_of};
ghost use Rattle.play_rounds.specs.Limits.{max_crew, max_drawn};
ghost use Rattle.play_rounds.specs.Outputs.{AreImagesWritten, IsCutOff};
ghost use Rattle.play_rounds.specs.Playing.{PlaysOn, StopsIn};
ghost use Rattle.play_rounds.specs.Shifts.{crew_of, rounds_of};

use crate::ends::Stop;
use crate::gather::{are_fine, count_repeated, put_images};
use crate::shift::{Shift, at_once, crew_of, rounds_of};
use crate::{Permits, play_round};
use ass_io::{Put, Sink};
use ass_num::OutOfMemory;
use play_workers::{PlayStage, Worker, dismiss};
use renderer::RenderPass;
use std::alloc::Global;
use std::sync::Wait;
use std::thread::Threads;
use test_hook::TestHook;

/// Plays one round, writes its images, and answers how many events were there already.
fn one_round<R: Threads + Wait + Sync, F: Sink, H: TestHook + Sync>(
    rt: &R,
    alloc: Global,
    stage: &PlayStage,
    round: usize,
    first: RenderPass,
    workers: &mut [Worker],
    permits: &Permits,
    frames: &mut F,
    hook: &H,
) -> (RenderPass, Result<usize, Stop>)
    requires stage { IsPlayStage stage.now }
    requires room { first.track.next + length workers.old ≤ u32.MAX }
    requires small { round ≤ max_rounds }
    requires idle { All HasNoPass workers.old }
    requires some { 0 < length workers.old }
    requires few { length workers.old ≤ max_crew }
    requires roles { All (λ (w : Worker). IsRoleOf stage.now.job w.role) workers.old }
    requires home { IsAllJoined stage.now.renderer first }
    ensures home { IsAllJoined stage.now.renderer result.0 }
    ensures drawn { result.0.track.next ≡ first.track.next + length workers.old }
    ensures idle { All HasNoPass workers.new }
    ensures crew { worker_roles workers.new ≡ worker_roles workers.old }
    ensures few { IfOk result.1 (λ more. more ≤ u32.MAX) }
    ensures played { IfOk result.1 (λ more. PlaysOn (play_on stage.now) (worker_roles workers.old) round (round + 1) (history_of first.track.seen)
        (history_of result.0.track.seen) more
        (λ next. AreImagesWritten next (F.state frames.old) (F.state frames.new) (masks_seen stage.now.renderer first) (masks_seen stage.now.renderer result.0))) }
    ensures stopped { IfErr result.1 (λ stop. StopsIn (play_on stage.now) (worker_roles workers.old) round (history_of first.track.seen)
        (λ next. IsCutOff stop (shown_pieces next) (F.state frames.old) (F.state frames.new))) }
{
    let first = play_round(rt, alloc, stage, round, first, workers, permits, hook);
    if !are_fine(workers) {
        return (first, Err(Stop::OutOfMemory));
    }
    match put_images(workers, frames) {
        Put::Done => (first, Ok(count_repeated(workers))),
        Put::Failed => (first, Err(Stop::WriteFault)),
        Put::OutOfMemory => (first, Err(Stop::OutOfMemory)),
    }
}

/// Plays the rounds of a shift with its crew.
fn all_rounds<R: Threads + Wait + Sync, F: Sink, H: TestHook + Sync>(
    rt: &R,
    alloc: Global,
    stage: &PlayStage,
    rounds: usize,
    first: RenderPass,
    workers: &mut [Worker],
    permits: &Permits,
    frames: &mut F,
    hook: &H,
) -> (RenderPass, Result<u64, Stop>)
    requires stage { IsPlayStage stage.now }
    requires small { rounds ≤ max_rounds }
    requires idle { All HasNoPass workers.old }
    requires some { 0 < length workers.old }
    requires few { length workers.old ≤ max_crew }
    requires roles { All (λ (w : Worker). IsRoleOf stage.now.job w.role) workers.old }
    requires room { first.track.next + rounds * max_crew ≤ u32.MAX }
    requires home { IsAllJoined stage.now.renderer first }
    ensures home { IsAllJoined stage.now.renderer result.0 }
    ensures drawn { result.0.track.next ≤ first.track.next + rounds * max_crew }
    ensures idle { All HasNoPass workers.new }
    ensures few { IfOk result.1 (λ more. more ≤ rounds * u32.MAX) }
    ensures played { IfOk result.1 (λ more. PlaysOn (play_on stage.now) (worker_roles workers.old) 0 rounds (history_of first.track.seen)
        (history_of result.0.track.seen) more
        (λ next. AreImagesWritten next (F.state frames.old) (F.state frames.new) (masks_seen stage.now.renderer first) (masks_seen stage.now.renderer result.0))) }
    ensures stopped { IfErr result.1 (λ stop. StopsIn (play_on stage.now) (worker_roles workers.old) 0 (history_of first.track.seen)
        (λ next. IsCutOff stop (shown_pieces next) (F.state frames.old) (F.state frames.new))) }
{
    let mut first = first;
    let mut repeated = 0;
    for round in 0..rounds {
        let (next, more) = one_round(
            rt, alloc, stage, round, first, workers, permits, frames, hook,
        );
        first = next;
        match more {
            Ok(more) => repeated += more as u64,
            Err(stop) => return (first, Err(stop)),
        }
    }
    (first, Ok(repeated))
}

/// Plays a shift.
pub fn play_shift<R: Threads + Wait + Sync, F: Sink, H: TestHook + Sync>(
    rt: &R,
    alloc: Global,
    stage: &PlayStage,
    shift: Shift,
    first: RenderPass,
    frames: &mut F,
    hook: &H,
) -> (RenderPass, Result<u64, Stop>)
    requires stage { IsPlayStage stage.now }
    requires room { first.track.next + max_drawn ≤ u32.MAX }
    requires home { IsAllJoined stage.now.renderer first }
    ensures home { IsAllJoined stage.now.renderer result.0 }
    ensures drawn { result.0.track.next ≤ first.track.next + max_drawn }
    ensures few { IfOk result.1 (λ more. more ≤ max_rounds * u32.MAX) }
    ensures played { IfOk result.1 (λ more. PlaysOn (play_on stage.now) (crew_of stage.now.job shift) 0 (rounds_of stage.now.job (length stage.now.good) shift)
        (history_of first.track.seen) (history_of result.0.track.seen) more
        (λ next. AreImagesWritten next (F.state frames.old) (F.state frames.new) (masks_seen stage.now.renderer first) (masks_seen stage.now.renderer result.0))) }
    ensures stopped { IfErr result.1 (λ stop. StopsIn (play_on stage.now) (crew_of stage.now.job shift) 0 (history_of first.track.seen)
        (λ next. IsCutOff stop (shown_pieces next) (F.state frames.old) (F.state frames.new))) }
{
    let mut workers = match crew_of(alloc, stage, shift) {
        Ok(workers) => workers,
        Err(OutOfMemory) => return (first, Err(Stop::OutOfMemory)),
    };
    let permits = Permits::new(at_once(stage, shift, workers.len()));
    let rounds = rounds_of(stage, shift);
    let crew = workers.as_mut_slice();
    let played = all_rounds(
        rt, alloc, stage, rounds, first, crew, &permits, frames, hook,
    );
    dismiss(workers);
    played
}

//! One round.

ghost use Rattle.std.specs.Prelude.{◌≡◌, ℕ, ◌+◌, ◌<◌, ◌≤◌, length, All, slice_index_or};
ghost use Rattle.std.specs.Thread.{IsSync};
ghost use Rattle.renderer.specs.Holding.{HoldsTheSame};
ghost use Rattle.renderer.specs.Passes.{HoldsNothing, IsFirstPass, IsPassOfRenderer, IsRenderJoined, IsRenderSplit, RenderView};
ghost use Rattle.play_workers.specs.Limits.{max_rounds};
ghost use Rattle.play_workers.specs.Parts.{HasNoPass, HasPass, HasWorked};
ghost use Rattle.play_workers.specs.Roles.{IsRoleOf};
ghost use Rattle.play_workers.specs.Stages.{IsPlayStage};
ghost use Rattle.play_workers.specs.declared.worker.Worker.{Worker};
ghost use Rattle.play_rounds.specs.Passes.{AreRendersJoined, AreRendersSplit, ExtendsItself, HasIdlePass, IsAllJoined};
ghost use Rattle.play_rounds.specs.Rounds.{AreHandedOut, IsRound, worker_roles};

use crate::permits::Permits;
use play_workers::{PlayStage, Worker};
use renderer::{RenderPass, Renderer, laws};
use std::alloc::Global;
use std::sync::Wait;
use std::thread::{Threads, join_mut};
use test_hook::TestHook;

/// All workers do their parts, each with a pass of its own, as many of them at once as there are permits. Then all passes
/// are joined again.
pub fn play_round<R: Threads + Wait + Sync, H: TestHook + Sync>(
    rt: &R,
    alloc: Global,
    stage: &PlayStage,
    round: usize,
    first: RenderPass,
    workers: &mut [Worker],
    permits: &Permits,
    hook: &H,
) -> RenderPass
    requires stage { IsPlayStage stage.now }
    requires home { IsAllJoined stage.now.renderer first }
    requires room { first.track.next + length workers.old ≤ u32.MAX }
    requires idle { All HasNoPass workers.old }
    requires small { round ≤ max_rounds }
    requires some { 0 < length workers.old }
    requires roles { All (λ (w : Worker). IsRoleOf stage.now.job w.role) workers.old }
    ensures home { IsAllJoined stage.now.renderer result }
    ensures drawn { result.track.next ≡ first.track.next + length workers.old }
    ensures idle { All HasNoPass workers.new }
    ensures roles { worker_roles workers.new ≡ worker_roles workers.old }
    ensures round { IsRound stage.now round first workers.new result }
{
    let first = hand_out(&stage.renderer, first, workers);
    work_all(rt, alloc, stage, round, permits, workers, hook);
    take_back(&stage.renderer, first, workers)
}

/// Gives each worker a pass that is split off the first one.
fn hand_out(renderer: &Renderer, first: RenderPass, workers: &mut [Worker]) -> RenderPass
    requires pass { IsPassOfRenderer renderer.now first }
    requires first { IsFirstPass first }
    requires room { first.track.next + length workers.old ≤ u32.MAX }
    requires idle { All HasNoPass workers.old }
    ensures pass { IsPassOfRenderer renderer.now result }
    ensures first { IsFirstPass result }
    ensures have { (i : ℕ) (d : Worker) → i < length workers.old → HasPass renderer.now (slice_index_or workers.new i d) }
    ensures passes { (passes : ℕ → RenderView) → AreHandedOut passes workers.new → AreRendersSplit renderer.now first (length workers.old) passes result }
    ensures roles { (i : ℕ) (d : Worker) → i < length workers.old → (slice_index_or workers.new i d).role ≡ (slice_index_or workers.old i d).role }
{
    let mut first = first;
    for worker in workers.iter_mut() {
        let (kept, new) = split(renderer, first);
        first = kept;
        let before = worker.pass.replace(new);
        let None = before else { unreachable!() };
    }
    first
}

/// Splits a pass off. There is a number left, so it isn't refused.
fn split(renderer: &Renderer, first: RenderPass) -> (RenderPass, RenderPass)
    requires pass { IsPassOfRenderer renderer.now first }
    requires first { IsFirstPass first }
    requires room { first.track.next < u32.MAX }
    ensures { IsRenderSplit renderer.now first result.0 result.1 }
{
    match renderer.split(first) {
        Ok(two) => two,
        Err(_) => unreachable!(),
    }
}

/// Each worker does its part in a thread of its own, which the calling thread begins once there is a permit for it. The
/// calling thread does the part of the last worker itself.
#[cycle(parts)]
fn work_all<R: Threads + Wait + Sync, H: TestHook + Sync>(
    rt: &R,
    alloc: Global,
    stage: &PlayStage,
    round: usize,
    permits: &Permits,
    workers: &mut [Worker],
    hook: &H,
)
    requires some { 0 < length workers.old }
    requires stage { IsPlayStage stage.now }
    requires small { round ≤ max_rounds }
    requires passes { All (HasPass stage.now.renderer) workers.old }
    requires roles { All (λ (w : Worker). IsRoleOf stage.now.job w.role) workers.old }
    ensures { (i : ℕ) (d : Worker) → i < length workers.old
        → HasWorked stage.now round (slice_index_or workers.old i d) (slice_index_or workers.new i d) }
{
    let Some((worker, rest)) = workers.split_first_mut() else {
        unreachable!()
    };
    permits.take(rt);
    if rest.is_empty() {
        work_permitted(rt, alloc, stage, round, permits, worker, hook);
        return;
    }
    work_apart(rt, alloc, stage, round, permits, hook, worker, rest);
}

/// A worker that has a permit does its part, and gives the permit back.
fn work_permitted<R: Threads + Wait + Sync, H: TestHook>(
    rt: &R,
    alloc: Global,
    stage: &PlayStage,
    round: usize,
    permits: &Permits,
    worker: &mut Worker,
    hook: &H,
)
    requires stage { IsPlayStage stage.now }
    requires small { round ≤ max_rounds }
    requires pass { HasPass stage.now.renderer worker.old }
    requires role { IsRoleOf stage.now.job worker.old.role }
    ensures { HasWorked stage.now round worker.old worker.new }
{
    permits.begin(rt);
    worker.work(rt, alloc, stage, round, hook);
    permits.end(rt);
}

/// One worker works in a new thread, while this one begins the threads of the rest.
#[cycle(parts)]
fn work_apart<R: Threads + Wait + Sync, H: TestHook + Sync>(
    rt: &R,
    alloc: Global,
    stage: &PlayStage,
    round: usize,
    permits: &Permits,
    hook: &H,
    worker: &mut Worker,
    rest: &mut [Worker],
)
    requires stage { IsPlayStage stage.now }
    requires small { round ≤ max_rounds }
    requires pass { HasPass stage.now.renderer worker.old }
    requires role { IsRoleOf stage.now.job worker.old.role }
    requires some { 0 < length rest.old }
    requires passes { All (HasPass stage.now.renderer) rest.old }
    requires roles { All (λ (w : Worker). IsRoleOf stage.now.job w.role) rest.old }
    ensures worker { HasWorked stage.now round worker.old worker.new }
    ensures rest { (i : ℕ) (d : Worker) → i < length rest.old
        → HasWorked stage.now round (slice_index_or rest.old i d) (slice_index_or rest.new i d) }
{
    let mut part = ||
        requires { IsPlayStage stage.now × (round ≤ max_rounds) × HasPass stage.now.renderer worker.now × IsRoleOf stage.now.job worker.now.role }
        ensures { HasWorked stage.entry.now round worker.entry.now worker.exit.now }
    { work_permitted(rt, alloc, stage, round, permits, worker, hook) };
    let mut others = ||
        requires { IsSync R.row × IsSync H.row × (0 < length rest.now) × IsPlayStage stage.now × (round ≤ max_rounds)
            × All (HasPass stage.now.renderer) rest.now × All (λ (w : Worker). IsRoleOf stage.now.job w.role) rest.now }
        ensures { (i : ℕ) (d : Worker) → i < length rest.entry.now
            → HasWorked stage.entry.now round (slice_index_or rest.entry.now i d) (slice_index_or rest.exit.now i d) }
    { work_all(rt, alloc, stage, round, permits, rest, hook) };
    join_mut(rt, &mut part, &mut others);
}

/// Joins a pass that holds as much as one that holds nothing into the first one.
fn join(renderer: &Renderer, first: RenderPass, pass: RenderPass) -> RenderPass
    requires passes { IsPassOfRenderer renderer.now first × IsPassOfRenderer renderer.now pass }
    requires first { IsFirstPass first }
    requires idle { (begun : RenderView) × HoldsNothing renderer.now begun × HoldsTheSame renderer.now begun pass }
    ensures joined { IsRenderJoined renderer.now first pass result }
    ensures nothing { HoldsNothing renderer.now pass }
{
    renderer.proof_kept(&pass);
    laws::frames_are_given_back();
    renderer.join(first, pass)
}

/// Joins the workers' passes into the first one.
fn take_back(renderer: &Renderer, first: RenderPass, workers: &mut [Worker]) -> RenderPass
    requires pass { IsPassOfRenderer renderer.now first }
    requires first { IsFirstPass first }
    requires itself { ExtendsItself first }
    requires passes { All (HasIdlePass renderer.now) workers.old }
    ensures pass { IsPassOfRenderer renderer.now result }
    ensures idle { All HasNoPass workers.new }
    ensures joined { (passes : ℕ → RenderView) → AreHandedOut passes workers.old → AreRendersJoined renderer.now first (length workers.old) passes result }
    ensures stay { (i : ℕ) (d : Worker) → i < length workers.old
        → ((slice_index_or workers.new i d).role ≡ (slice_index_or workers.old i d).role)
        × ((slice_index_or workers.new i d).outcome ≡ (slice_index_or workers.old i d).outcome) }
{
    let mut first = first;
    for worker in workers.iter_mut() {
        let Some(pass) = worker.pass.take() else {
            unreachable!()
        };
        first = join(renderer, first, pass);
    }
    first
}

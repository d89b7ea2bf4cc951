//! Which workers there are, and for how many rounds.

ghost use Rattle.std.specs.Prelude.{◌≡◌, ◌<◌, ◌≤◌, ◌++◌, length, All, IfOk};
ghost use Rattle.play_rounds.specs.Rounds.{worker_roles};
ghost use Rattle.play_workers.specs.Limits.{max_rounds};
ghost use Rattle.play_workers.specs.Parts.{HasNoPass};
ghost use Rattle.play_workers.specs.Stages.{IsPlayStage};
ghost use Rattle.play_rounds.specs.Shifts.{at_once, crew_of, feeders_of, painters_of, rounds_of};

use ass_num::Mem;
use play_shares::{feeding_rounds, image_rounds, painter_count};
use play_workers::{PlayStage, Role, Worker, hire};
use std::alloc::Global;

/// What is done at once: feeding and painting, or one of them alone.
#[derive(Clone, Copy)]
pub enum Shift {
    Both,
    Feed,
    Paint,
}

/// How many rounds a shift has.
pub fn rounds_of(stage: &PlayStage, shift: Shift) -> usize
    requires { IsPlayStage stage.now }
    ensures rounds { result ≡ rounds_of stage.now.job (length stage.now.good) shift }
    ensures few { result ≤ max_rounds }
{
    match shift {
        Shift::Both => {
            let feeding = feeding_rounds(&stage.job, stage.good.len());
            feeding.max(image_rounds(&stage.job) as usize)
        }
        Shift::Feed => feeding_rounds(&stage.job, stage.good.len()),
        Shift::Paint => image_rounds(&stage.job) as usize,
    }
}

/// Adds the feeders.
fn hire_feeders(stage: &PlayStage, workers: Vec<Worker>) -> Mem<Vec<Worker>>
    requires stage { IsPlayStage stage.now }
    requires idle { All HasNoPass workers.items }
    ensures idle { IfOk result (λ all. All HasNoPass all.items) }
    ensures roles { IfOk result (λ all. worker_roles all.items ≡ worker_roles workers.items ++ feeders_of stage.now.job) }
{
    let mut workers = workers;
    for feeder in 0..stage.job.feeders as usize {
        workers = hire(workers, Role::Feeder(feeder))?;
    }
    Ok(workers)
}

/// Adds those that paint, and one that warms ahead where that was asked for.
fn hire_painters(stage: &PlayStage, workers: Vec<Worker>) -> Mem<Vec<Worker>>
    requires stage { IsPlayStage stage.now }
    requires idle { All HasNoPass workers.items }
    ensures idle { IfOk result (λ all. All HasNoPass all.items) }
    ensures roles { IfOk result (λ all. worker_roles all.items ≡ worker_roles workers.items ++ painters_of stage.now.job) }
{
    let mut workers = workers;
    for painter in 0..painter_count(&stage.job) as usize {
        workers = hire(workers, Role::Painter(painter))?;
    }
    if stage.job.ahead > 0 {
        workers = hire(workers, Role::Warmer)?;
    }
    Ok(workers)
}

/// The workers of a shift, without passes.
pub fn crew_of(alloc: Global, stage: &PlayStage, shift: Shift) -> Mem<Vec<Worker>>
    requires { IsPlayStage stage.now }
    ensures idle { IfOk result (λ workers. All HasNoPass workers.items) }
    ensures roles { IfOk result (λ workers. worker_roles workers.items ≡ crew_of stage.now.job shift) }
{
    let nobody = Vec::new(alloc);
    match shift {
        Shift::Both => {
            let feeders = hire_feeders(stage, nobody)?;
            hire_painters(stage, feeders)
        }
        Shift::Feed => hire_feeders(stage, nobody),
        Shift::Paint => hire_painters(stage, nobody),
    }
}

/// How many of a crew of so many work at once: of painters alone as many as there are renderers, else all.
pub fn at_once(stage: &PlayStage, shift: Shift, crew: usize) -> usize
    requires stage { IsPlayStage stage.now }
    requires some { 0 < crew }
    ensures many { result ≡ at_once stage.now.job shift crew }
    ensures some { 0 < result }
{
    match shift {
        Shift::Both | Shift::Feed => crew,
        Shift::Paint => {
            if stage.job.ahead > 0 {
                return crew;
            }
            stage.job.renderers as usize
        }
    }
}

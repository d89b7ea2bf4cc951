//! Workers, each with a pass while a round lasts.

ghost use Rattle.std.specs.Prelude.{◌≡◌, ◌≤◌, ◌∷◌, ◌++◌, [], map, IfOk, None, All, IsTrue, ◌↔◌};
ghost use Rattle.play_workers.specs.Limits.{max_rounds};
ghost use Rattle.play_workers.specs.Parts.{HasNoPass, HasPass, HasWorked, IsFine, told_repeats};
ghost use Rattle.play_workers.specs.Roles.{IsRoleOf};
ghost use Rattle.play_workers.specs.Stages.{IsPlayStage};
ghost use Rattle.play_workers.specs.declared.worker.Worker.{Worker};

use crate::part::do_part;
use crate::stage::PlayStage;
use ass_num::{Items, Mem, OutOfMemory};
use renderer::RenderPass;
use std::alloc::{AllocFailed, Global};
use std::mem;
use std::sync::Wait;
use std::thread::Threads;
use test_hook::TestHook;

/// What a worker does in each round.
#[derive(Clone, Copy)]
pub enum Role {
    /// Feeds the batches of the feeder of this number.
    Feeder(usize),
    /// Paints the instants of the painter of this number.
    Painter(usize),
    /// Warms the masks of the instants ahead.
    Warmer,
}

/// What came of a part.
#[derive(Drop)]
pub enum Outcome {
    /// Nothing was to be done, or to be told of it.
    Idle,
    /// So many events that were offered were there already.
    Fed(usize),
    /// Images, in order.
    Shown(Items<Vec<u8>>),
    OutOfMemory,
}

impl Outcome {
    /// Whether memory wasn't wanting.
    pub fn is_fine(&self) -> bool
        ensures { IsTrue result ↔ IsFine self.now }
    {
        match self {
            Outcome::Idle | Outcome::Fed(_) | Outcome::Shown(_) => true,
            Outcome::OutOfMemory => false,
        }
    }

    /// How many events that were offered were there already.
    pub fn repeated(&self) -> usize
        ensures { result ≡ told_repeats self.now }
    {
        match self {
            Outcome::Fed(repeated) => *repeated,
            Outcome::Idle | Outcome::Shown(_) | Outcome::OutOfMemory => 0,
        }
    }
}

impl Outcome {
    /// The images, if it has some.
    fn into_images(self, alloc: Global) -> Vec<Vec<u8>> {
        match self {
            Outcome::Shown(images) => images.into_vec(),
            Outcome::Idle | Outcome::Fed(_) | Outcome::OutOfMemory => Vec::new(alloc),
        }
    }
}

/// A worker of the rounds.
pub struct Worker {
    pub role: Role,
    pub pass: Option<RenderPass>,
    pub outcome: Outcome,
}

impl Worker {
    /// Does the worker's part of a round with its pass, which is in its place again afterwards.
    pub fn work<R: Threads + Wait + Sync, H: TestHook>(
        &mut self,
        rt: &R,
        alloc: Global,
        stage: &PlayStage,
        round: usize,
        hook: &H,
    )
        requires pass { HasPass stage.now.renderer self.old }
        requires stage { IsPlayStage stage.now }
        requires small { round ≤ max_rounds }
        requires role { IsRoleOf stage.now.job self.old.role }
        ensures { HasWorked stage.now round self.old self.new }
    {
        let Some(pass) = self.pass.take() else {
            unreachable!()
        };
        // The images of the round before are written, so their memory serves those of this one.
        let written = mem::replace(&mut self.outcome, Outcome::Idle).into_images(alloc);
        let (pass, outcome) = do_part(rt, alloc, stage, round, self.role, written, pass, hook);
        self.outcome = outcome;
        let before = self.pass.replace(pass);
        let None = before else { unreachable!() };
    }
}

/// Adds a worker without a pass.
pub fn hire(workers: Vec<Worker>, role: Role) -> Mem<Vec<Worker>>
    requires { All HasNoPass workers.items }
    ensures idle { IfOk result (λ all. All HasNoPass all.items) }
    ensures roles { IfOk result (λ all. map (λ (w : Worker). w.role) all.items ≡ map (λ (w : Worker). w.role) workers.items ++ role ∷ []) }
{
    let mut workers = workers;
    let worker = Worker {
        role,
        pass: None,
        outcome: Outcome::Idle,
    };
    if let Err(refused) = workers.push(worker) {
        let AllocFailed { value } = refused;
        let Worker {
            role: _,
            pass,
            outcome: _outcome,
        } = value;
        let None = pass else { unreachable!() };
        dismiss(workers);
        return Err(OutOfMemory);
    }
    Ok(workers)
}

/// Lets workers go that have no passes.
pub fn dismiss(workers: Vec<Worker>)
    requires { All HasNoPass workers.items }
{
    let mut workers = workers;
    while let Some(worker) = workers.pop() {
        let Worker {
            role: _,
            pass,
            outcome: _outcome,
        } = worker;
        let None = pass else { unreachable!() };
    }
    workers.destroy_empty();
}

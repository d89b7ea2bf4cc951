//! The part of one worker in a round.

ghost use Rattle.std.specs.Prelude.{◌<◌, ◌≤◌};
ghost use Rattle.play_shares.specs.Renderers.{painter_count};
ghost use Rattle.play_workers.specs.Limits.{max_rounds};
ghost use Rattle.play_workers.specs.Parts.{IsDone};
ghost use Rattle.play_workers.specs.Roles.{IsRoleOf};
ghost use Rattle.play_workers.specs.Stages.{IsPlayStage};
ghost use Rattle.renderer.specs.Passes.{IsPassOfRenderer};

use crate::feeder::feed_part;
use crate::painter::paint_part;
use crate::stage::PlayStage;
use crate::warmer::warm_part;
use crate::worker::{Outcome, Role};
use renderer::RenderPass;
use std::alloc::Global;
use std::sync::Wait;
use std::thread::Threads;
use test_hook::TestHook;

/// Does the part of a feeder.
fn feeder_part<R: Wait, H: TestHook>(
    rt: &R,
    alloc: Global,
    stage: &PlayStage,
    round: usize,
    feeder: usize,
    pass: RenderPass,
    hook: &H,
) -> (RenderPass, Outcome)
    requires stage { IsPlayStage stage.now }
    requires small { round ≤ max_rounds }
    requires feeder { feeder < stage.now.job.feeders }
    requires pass { IsPassOfRenderer stage.now.renderer pass }
    ensures { IsDone stage.now round (Role.Feeder feeder) pass result.0 result.1 }
{
    let (pass, fed) = feed_part(rt, alloc, stage, round, feeder, pass, hook);
    match fed {
        Ok(repeated) => (pass, Outcome::Fed(repeated)),
        Err(_) => (pass, Outcome::OutOfMemory),
    }
}

/// Does the part of a painter.
fn painter_part<R: Threads + Wait + Sync, H: TestHook>(
    rt: &R,
    alloc: Global,
    stage: &PlayStage,
    round: usize,
    painter: usize,
    written: Vec<Vec<u8>>,
    pass: RenderPass,
    hook: &H,
) -> (RenderPass, Outcome)
    requires stage { IsPlayStage stage.now }
    requires small { round ≤ max_rounds }
    requires painter { painter < painter_count stage.now.job }
    requires pass { IsPassOfRenderer stage.now.renderer pass }
    ensures { IsDone stage.now round (Role.Painter painter) pass result.0 result.1 }
{
    let (pass, images) = paint_part(rt, alloc, stage, round, painter, written, pass, hook);
    match images {
        Ok(images) => (pass, Outcome::Shown(images)),
        Err(_) => (pass, Outcome::OutOfMemory),
    }
}

/// Does the part of the one that warms ahead.
fn warmer_part<R: Wait, H: TestHook>(
    rt: &R,
    alloc: Global,
    stage: &PlayStage,
    round: usize,
    pass: RenderPass,
    hook: &H,
) -> (RenderPass, Outcome)
    requires stage { IsPlayStage stage.now }
    requires small { round ≤ max_rounds }
    requires pass { IsPassOfRenderer stage.now.renderer pass }
    ensures { IsDone stage.now round Role.Warmer pass result.0 result.1 }
{
    let (pass, warmed) = warm_part(rt, alloc, stage, round, pass, hook);
    match warmed {
        Ok(_) => (pass, Outcome::Idle),
        Err(_) => (pass, Outcome::OutOfMemory),
    }
}

/// Does the part of a worker of this role in a round. The memory of images that are written serves those of this one.
pub fn do_part<R: Threads + Wait + Sync, H: TestHook>(
    rt: &R,
    alloc: Global,
    stage: &PlayStage,
    round: usize,
    role: Role,
    written: Vec<Vec<u8>>,
    pass: RenderPass,
    hook: &H,
) -> (RenderPass, Outcome)
    requires stage { IsPlayStage stage.now }
    requires small { round ≤ max_rounds }
    requires role { IsRoleOf stage.now.job role }
    requires pass { IsPassOfRenderer stage.now.renderer pass }
    ensures { IsDone stage.now round role pass result.0 result.1 }
{
    match role {
        Role::Feeder(feeder) => feeder_part(rt, alloc, stage, round, feeder, pass, hook),
        Role::Painter(painter) => {
            painter_part(rt, alloc, stage, round, painter, written, pass, hook)
        }
        Role::Warmer => warmer_part(rt, alloc, stage, round, pass, hook),
    }
}

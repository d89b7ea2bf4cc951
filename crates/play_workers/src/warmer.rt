//! What the worker does that warms ahead.

ghost use Rattle.std.specs.Prelude.{◌≤◌, []};
ghost use Rattle.mask_caches.specs.Balance.{AreLater};
ghost use Rattle.play_shares.specs.Limits.{max_frames};
ghost use Rattle.renderer.specs.Holding.{HoldsTheSame};
ghost use Rattle.renderer.specs.Passes.{IsPassOfRenderer};
ghost use Rattle.turn_cell.specs.Passes.{Follows};
ghost use Rattle.play_workers.specs.Stages.{IsPlayStage};

use crate::stage::PlayStage;
use ass_num::Mem;
use mask_caches::Prefetched;
use play_shares::ahead_instants;
use renderer::RenderPass;
use std::alloc::Global;
use std::sync::Wait;
use test_hook::TestHook;

/// Makes the masks of the instants that come after those of a round.
pub fn warm_part<R: Wait, H: TestHook>(
    rt: &R,
    alloc: Global,
    stage: &PlayStage,
    round: usize,
    pass: RenderPass,
    hook: &H,
) -> (RenderPass, Mem<Prefetched>)
    requires stage { IsPlayStage stage.now }
    requires small { round ≤ max_frames }
    requires pass { IsPassOfRenderer stage.now.renderer pass }
    ensures pass { IsPassOfRenderer stage.now.renderer result.0 }
    ensures track { Follows pass.track result.0.track [] }
    ensures later { AreLater pass.caches result.0.caches }
    ensures holds { HoldsTheSame stage.now.renderer pass result.0 }
{
    match ahead_instants(alloc, &stage.job, round as u64) {
        Ok(ahead) => {
            let size = &stage.job.size;
            stage
                .renderer
                .warm(rt, alloc, pass, ahead.as_slice(), size, hook)
        }
        Err(refused) => (pass, Err(refused)),
    }
}

//! Frames by one plan: with the masks that are ready, or through the caches.
ghost use Rattle.std.specs.Prelude.{List, IfOk};
ghost use Rattle.ass_events.specs.Histories.{Entry, IsHistory, live};
ghost use Rattle.ass_num.specs.Limits.{IsFrameSize, IsWithin, max_instant};
ghost use Rattle.mask_caches.specs.Caches.{IsPassOf};
ghost use Rattle.track_history.specs.Answers.{IsSceneOf};
ghost use Rattle.renderer.specs.Holding.{HoldsJustTheFrame, IsHomeFrame};
ghost use Rattle.renderer.specs.OneHistory.{ShowsOneHistory};
ghost use Rattle.renderer.specs.Passes.{IsPassOfRenderer};
ghost use Rattle.renderer.specs.Soon.{AreImagesSoon, IsTriedThenRendered};

use crate::passes::RenderPass;
use crate::renderer::Renderer;
use crate::rendering::frame_with;
use crate::trying::Readied;
use crate::{Frame, FrameImage};
use ass_num::{Items, Mem, OutOfMemory, Size};
use flight_cache::PinRefusal;
use mask_caches::CachesPass;
use std::alloc::Global;
use std::sync::Wait;
use test_hook::TestHook;
use track_history::Scene;

impl Renderer {
    /// The images of what a scene shows, with the masks that are ready where all are, else through the caches.
    fn images_soon<R: Wait, H: TestHook>(
        &self,
        rt: &R,
        alloc: Global,
        pass: CachesPass,
        scene: &Scene,
        size: &Size,
        hook: &H,
    ) -> (CachesPass, Mem<Items<FrameImage>>)
        requires pass { IsPassOf self.now.caches pass }
        requires scene { (history : List Entry) × IsHistory history × IsSceneOf history scene.now.t scene.now }
        requires instant { IsWithin max_instant scene.now.t }
        requires size { IsFrameSize size.now }
        ensures { (history : List Entry) → IsSceneOf history scene.now.t scene.now
            → AreImagesSoon self.now pass result.0 (live history) scene.now.t size.now result.1 }
    {
        match self.readied(alloc, scene, size) {
            Ok(Readied { plan, keys, room }) => {
                let (pass, tried) = self.images_pinned(alloc, pass, &plan.draws, keys, room);
                match tried {
                    Ok(images) => (pass, Ok(images)),
                    Err(refusal) => match refusal {
                        PinRefusal::OutOfMemory => (pass, Err(OutOfMemory)),
                        _ => self.images_lent(rt, alloc, pass, &plan.draws, hook),
                    },
                }
            }
            Err(refused) => (pass, Err(refused)),
        }
    }

    /// What the track shows at an instant, in milliseconds, in a frame of a size: at once where all its masks are ready, else by making
    /// those that aren't in the caches. It plans once. It waits for the turn of the track, and behind a refusal as a call of `frame` does.
    pub fn try_then_frame<R: Wait, H: TestHook>(
        &self,
        rt: &R,
        alloc: Global,
        pass: RenderPass,
        t: i64,
        size: &Size,
        hook: &H,
    ) -> (RenderPass, Mem<Frame>)
        requires pass { IsPassOfRenderer self.now pass }
        requires instant { IsWithin max_instant t }
        requires size { IsFrameSize size.now }
        ensures pass { IsPassOfRenderer self.now result.0 }
        ensures history { IfOk result.1 (ShowsOneHistory self.now pass result.0 t size.now) }
        ensures rendered { IsTriedThenRendered self.now pass result.0 t size.now result.1 }
        ensures holds { HoldsJustTheFrame self.now pass result.0 result.1 }
        ensures home { IfOk result.1 (IsHomeFrame self.now) }
    {
        let RenderPass { track, caches } = pass;
        let (track, scene) = self.track.look(rt, alloc, track, t);
        match scene {
            Ok(scene) => {
                let (caches, images) = self.images_soon(rt, alloc, caches, &scene, size, hook);
                let frame = frame_with(&scene, size, images);
                (RenderPass { track, caches }, frame)
            }
            Err(refused) => (RenderPass { track, caches }, Err(refused)),
        }
    }
}

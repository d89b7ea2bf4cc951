//! Frames of at least so many entries of the history.
ghost use Rattle.std.specs.Prelude.{IfOk};
ghost use Rattle.ass_num.specs.Limits.{IsFrameSize, IsWithin, max_instant};
ghost use Rattle.renderer.specs.Behind.{IsRenderedFrom};
ghost use Rattle.renderer.specs.Holding.{HoldsJustTheFrame, IsHomeFrame};
ghost use Rattle.renderer.specs.OneHistory.{ShowsOneHistory};
ghost use Rattle.renderer.specs.Passes.{IsPassOfRenderer};

use crate::Frame;
use crate::passes::RenderPass;
use crate::renderer::Renderer;
use crate::rendering::frame_with;
use ass_num::Size;
use std::alloc::Global;
use std::sync::Wait;
use test_hook::TestHook;
use track_history::FromRefusal;

impl Renderer {
    /// What the track shows at an instant, in milliseconds, in a frame of a size, of at least so many entries of its history. Where the
    /// history has fewer it says how many, takes no memory and asks for no mask. Where a pass was told `Accepted(p)`, the entry of that
    /// chunk is among the first p + 1. For the rest it is [`Renderer::frame`].
    pub fn frame_from<R: Wait, H: TestHook>(
        &self,
        rt: &R,
        alloc: Global,
        pass: RenderPass,
        least: usize,
        t: i64,
        size: &Size,
        hook: &H,
    ) -> (RenderPass, Result<Frame, FromRefusal>)
        requires pass { IsPassOfRenderer self.now pass }
        requires instant { IsWithin max_instant t }
        requires size { IsFrameSize size.now }
        ensures pass { IsPassOfRenderer self.now result.0 }
        ensures history { IfOk result.1 (ShowsOneHistory self.now pass result.0 t size.now) }
        ensures rendered { IsRenderedFrom self.now pass result.0 t size.now least result.1 }
        ensures holds { HoldsJustTheFrame self.now pass result.0 result.1 }
        ensures home { IfOk result.1 (IsHomeFrame self.now) }
    {
        let RenderPass { track, caches } = pass;
        let (track, scene) = self.track.look_from(rt, alloc, track, t, least);
        match scene {
            Ok(scene) => {
                let (caches, images) = self.images_of(rt, alloc, caches, &scene, size, hook);
                let frame = frame_with(&scene, size, images);
                match frame {
                    Ok(frame) => (RenderPass { track, caches }, Ok(frame)),
                    Err(_) => (RenderPass { track, caches }, Err(FromRefusal::OutOfMemory)),
                }
            }
            Err(refusal) => (RenderPass { track, caches }, Err(refusal)),
        }
    }
}

//! Frames by calls that may wait.
ghost use Rattle.std.specs.Prelude.{◌≡◌, ℤ, List, IfOk};
ghost use Rattle.ass_events.specs.Histories.{Entry, IsHistory, live};
ghost use Rattle.ass_events.specs.declared.event.Event.{Event};
ghost use Rattle.ass_num.specs.Limits.{IsFrameSize, IsWithin, max_instant};
ghost use Rattle.ass_num.specs.declared.size.Size.{Size};
ghost use Rattle.mask_caches.specs.Caches.{IsPassOf};
ghost use Rattle.mask_keys.specs.Keys.{IsValidPlan};
ghost use Rattle.mask_keys.specs.Outlines.{glyph_counts};
ghost use Rattle.frame_view.specs.FrameViews.{plain_frame};
ghost use Rattle.picture_plan.specs.Pictures.{AreDraws};
ghost use Rattle.track_history.specs.Answers.{IsSceneOf};
ghost use Rattle.renderer.specs.Frames.{frame_with};
ghost use Rattle.renderer.specs.Holding.{HoldsJustTheFrame, IsHomeFrame};
ghost use Rattle.renderer.specs.OneHistory.{ShowsOneHistory};
ghost use Rattle.renderer.specs.Passes.{IsPassOfRenderer};
ghost use Rattle.renderer.specs.Rendering.{AreImagesLent, IsRendered};

use crate::images::lend_images;
use crate::passes::RenderPass;
use crate::renderer::Renderer;
use crate::{Frame, FrameImage};
use ass_num::{Items, Mem, Size};
use frame_view::FrameView;
use mask_caches::CachesPass;
use mask_keys::{Draw, Plan};
use picture_plan::plan_of_spans;
use std::alloc::Global;
use std::sync::Wait;
use test_hook::TestHook;
use text_layout::Setting;
use track_history::Scene;

/// The frame of a scene in a size, with these images, or why there are none.
pub(crate) fn frame_with<E>(
    scene: &Scene,
    size: &Size,
    images: Result<Items<FrameImage>, E>,
) -> Result<Frame, E>
    ensures { result ≡ frame_with scene.now size.now images }
{
    match images {
        Ok(images) => Ok(Frame {
            n: scene.n,
            t: scene.t,
            size: *size,
            images,
        }),
        Err(refused) => Err(refused),
    }
}

impl Renderer {
    /// The draws of what a scene shows.
    pub(crate) fn plan_of(&self, alloc: Global, scene: &Scene, size: &Size) -> Mem<Plan>
        requires scene { (history : List Entry) × IsHistory history × IsSceneOf history scene.now.t scene.now }
        requires instant { IsWithin max_instant scene.now.t }
        requires size { IsFrameSize size.now }
        ensures draws { (history : List Entry) → IsSceneOf history scene.now.t scene.now
            → IfOk result (λ plan. AreDraws self.now.script self.now.fonts (live history) scene.now.t (plain_frame size.now) plan.draws) }
        ensures valid { IfOk result (λ plan. IsValidPlan (glyph_counts self.now.fonts) plan.draws) }
    {
        let setting = Setting {
            script: &self.script,
            fonts: &self.fonts,
            frame: FrameView::plain(*size),
        };
        let spans = scene.spans.as_slice();
        plan_of_spans(alloc, &setting, scene.events.as_slice(), spans, scene.t)
    }

    /// The images of draws, with masks through the caches.
    pub(crate) fn images_lent<R: Wait, H: TestHook>(
        &self,
        rt: &R,
        alloc: Global,
        pass: CachesPass,
        draws: &Items<Draw>,
        hook: &H,
    ) -> (CachesPass, Mem<Items<FrameImage>>)
        requires pass { IsPassOf self.now.caches pass }
        requires valid { IsValidPlan (glyph_counts self.now.fonts) draws.now }
        ensures { (events : List Event) (t : ℤ) (size : Size) → AreDraws self.now.script self.now.fonts events t (plain_frame size) draws.now
            → AreImagesLent self.now pass result.0 events t size result.1 }
    {
        lend_images(&self.caches, rt, alloc, pass, draws, hook)
    }

    /// The images of what a scene shows, with masks through the caches.
    pub(crate) fn images_of<R: Wait, H: TestHook>(
        &self,
        rt: &R,
        alloc: Global,
        pass: CachesPass,
        scene: &Scene,
        size: &Size,
        hook: &H,
    ) -> (CachesPass, Mem<Items<FrameImage>>)
        requires pass { IsPassOf self.now.caches pass }
        requires scene { (history : List Entry) × IsHistory history × IsSceneOf history scene.now.t scene.now }
        requires instant { IsWithin max_instant scene.now.t }
        requires size { IsFrameSize size.now }
        ensures { (history : List Entry) → IsSceneOf history scene.now.t scene.now
            → AreImagesLent self.now pass result.0 (live history) scene.now.t size.now result.1 }
    {
        match self.plan_of(alloc, scene, size) {
            Ok(plan) => self.images_lent(rt, alloc, pass, &plan.draws, hook),
            Err(refused) => (pass, Err(refused)),
        }
    }

    /// What the track shows at an instant, in milliseconds, in a frame of a size. Masks that aren't in the caches are made. It waits for
    /// the turns, and while another thread makes what it asks for. For out of memory it holds nothing.
    pub fn frame<R: Wait, H: TestHook>(
        &self,
        rt: &R,
        alloc: Global,
        pass: RenderPass,
        t: i64,
        size: &Size,
        hook: &H,
    ) -> (RenderPass, Mem<Frame>)
        requires pass { IsPassOfRenderer self.now pass }
        requires instant { IsWithin max_instant t }
        requires size { IsFrameSize size.now }
        ensures pass { IsPassOfRenderer self.now result.0 }
        ensures history { IfOk result.1 (ShowsOneHistory self.now pass result.0 t size.now) }
        ensures rendered { IsRendered self.now pass result.0 t size.now result.1 }
        ensures holds { HoldsJustTheFrame self.now pass result.0 result.1 }
        ensures home { IfOk result.1 (IsHomeFrame self.now) }
    {
        let RenderPass { track, caches } = pass;
        let (track, scene) = self.track.look(rt, alloc, track, t);
        match scene {
            Ok(scene) => {
                let (caches, images) = self.images_of(rt, alloc, caches, &scene, size, hook);
                let frame = frame_with(&scene, size, images);
                (RenderPass { track, caches }, frame)
            }
            Err(refused) => (RenderPass { track, caches }, Err(refused)),
        }
    }
}

//! Frames by a call that waits for nobody.
ghost use Rattle.std.specs.Prelude.{◌≡◌, ◌≤◌, ℤ, List, [], length, IfOk, vec_capacity, vec_len};
ghost use Rattle.ass_events.specs.Histories.{Entry, IsHistory, live};
ghost use Rattle.ass_events.specs.declared.event.Event.{Event};
ghost use Rattle.ass_num.specs.Limits.{IsFrameSize, IsWithin, max_instant};
ghost use Rattle.ass_num.specs.declared.size.Size.{Size};
ghost use Rattle.mask_caches.specs.Caches.{IsPassOf};
ghost use Rattle.mask_keys.specs.Keys.{IsValidPlan};
ghost use Rattle.mask_keys.specs.Outlines.{glyph_counts};
ghost use Rattle.frame_view.specs.FrameViews.{plain_frame};
ghost use Rattle.picture_plan.specs.Pictures.{AreDraws};
ghost use Rattle.track_history.specs.Answers.{IsSceneOf};
ghost use Rattle.mask_keys.specs.PlanKeys.{plan_keys};
ghost use Rattle.renderer.specs.Holding.{HoldsJustTheFrame, IsHomeFrame};
ghost use Rattle.renderer.specs.OneHistory.{ShowsOneHistory};
ghost use Rattle.renderer.specs.Passes.{IsPassOfRenderer};
ghost use Rattle.renderer.specs.Trying.{AreImagesTried, IsTried, look_refusal, pin_refusal};

use crate::passes::RenderPass;
use crate::readied::{images_with, key_copies};
use crate::renderer::Renderer;
use crate::rendering::frame_with;
use crate::{Frame, FrameImage};
use ass_num::{Items, Mem, OutOfMemory, Size};
use flight_cache::PinRefusal;
use mask_caches::CachesPass;
use mask_keys::{CompositeKey, Draw, Plan};
use std::alloc::Global;
use track_history::{LookRefusal, Scene};

/// What a frame may be tried again for.
#[derive(Clone, Copy, Debug, PartialEq, Eq)]
pub enum Again {
    /// The turn of the track is out.
    Track,
    /// The turn of a shard of composed masks is out.
    Cache,
    /// The mask of the key at this place isn't ready. The keys are those of the draws in order, behind each that of its drawn clip.
    /// A call that tells `Making` says by this that nobody makes the mask.
    NotReady(usize),
    /// The mask of the key at this place is being made.
    Making(usize),
    /// The mask of the key at this place has all its pins.
    PinsFull(usize),
}

/// Why a frame wasn't had without waiting.
#[derive(Clone, Copy, Debug, PartialEq, Eq)]
pub enum TryRefusal {
    Again(Again),
    OutOfMemory,
}

/// What is taken memory for before masks are pinned: the draws, their keys, and room for their images.
pub(crate) struct Readied {
    pub plan: Plan,
    pub keys: Vec<CompositeKey>,
    pub room: Vec<FrameImage>,
}

/// A refusal of the track.
fn of_track(refusal: LookRefusal) -> TryRefusal
    ensures { result ≡ look_refusal refusal }
{
    match refusal {
        LookRefusal::TurnOut => TryRefusal::Again(Again::Track),
        LookRefusal::OutOfMemory => TryRefusal::OutOfMemory,
    }
}

/// A refusal of the caches.
fn of_caches(refusal: PinRefusal) -> TryRefusal
    ensures { result ≡ pin_refusal refusal }
{
    match refusal {
        PinRefusal::TurnOut => TryRefusal::Again(Again::Cache),
        PinRefusal::NotReady(place) => TryRefusal::Again(Again::NotReady(place)),
        PinRefusal::Making(place) => TryRefusal::Again(Again::Making(place)),
        PinRefusal::PinsFull(place) => TryRefusal::Again(Again::PinsFull(place)),
        PinRefusal::OutOfMemory => TryRefusal::OutOfMemory,
    }
}

impl Renderer {
    /// What a scene shows, with memory for it.
    pub(crate) fn readied(&self, alloc: Global, scene: &Scene, size: &Size) -> Mem<Readied>
        requires scene { (history : List Entry) × IsHistory history × IsSceneOf history scene.now.t scene.now }
        requires instant { IsWithin max_instant scene.now.t }
        requires size { IsFrameSize size.now }
        ensures draws { (history : List Entry) → IsSceneOf history scene.now.t scene.now
            → IfOk result (λ r. AreDraws self.now.script self.now.fonts (live history) scene.now.t (plain_frame size.now) r.plan.draws) }
        ensures valid { IfOk result (λ r. IsValidPlan (glyph_counts self.now.fonts) r.plan.draws) }
        ensures keys { IfOk result (λ r. r.keys.items ≡ plan_keys r.plan.draws) }
        ensures empty { IfOk result (λ r. r.room.items ≡ []) }
        ensures len { IfOk result (λ r. vec_len r.room ≡ 0) }
        ensures room { IfOk result (λ r. length r.plan.draws ≤ vec_capacity r.room) }
    {
        let plan = self.plan_of(alloc, scene, size)?;
        let keys = key_copies(alloc, &plan.draws)?;
        let mut room = Vec::new(alloc);
        if room.reserve(plan.draws.len()).is_err() {
            room.destroy_empty();
            return Err(OutOfMemory);
        }
        Ok(Readied { plan, keys, room })
    }

    /// The images of draws, with pins of their keys, where all their masks are ready. There is room for them.
    pub(crate) fn images_pinned(
        &self,
        alloc: Global,
        pass: CachesPass,
        draws: &Items<Draw>,
        keys: Vec<CompositeKey>,
        room: Vec<FrameImage>,
    ) -> (CachesPass, Result<Items<FrameImage>, PinRefusal>)
        requires pass { IsPassOf self.now.caches pass }
        requires keys { keys.items ≡ plan_keys draws.now }
        requires empty { room.items ≡ [] }
        requires len { vec_len room ≡ 0 }
        requires room { length draws.now ≤ vec_capacity room }
        ensures pass { IsPassOf self.now.caches result.0 }
        ensures tried { (events : List Event) (t : ℤ) (size : Size) → AreDraws self.now.script self.now.fonts events t (plain_frame size) draws.now
            → AreImagesTried self.now pass result.0 events t size result.1 }
    {
        let (pass, tried) = self.caches.try_composites(alloc, pass, keys);
        match tried {
            Ok(leases) => (pass, Ok(images_with(draws, leases, room))),
            Err(refusal) => {
                room.destroy_empty();
                (pass, Err(refusal))
            }
        }
    }

    /// The images of what a scene shows, where all their masks are ready.
    fn ready_images(
        &self,
        alloc: Global,
        pass: CachesPass,
        scene: &Scene,
        size: &Size,
    ) -> (CachesPass, Result<Items<FrameImage>, PinRefusal>)
        requires pass { IsPassOf self.now.caches pass }
        requires scene { (history : List Entry) × IsHistory history × IsSceneOf history scene.now.t scene.now }
        requires instant { IsWithin max_instant scene.now.t }
        requires size { IsFrameSize size.now }
        ensures { (history : List Entry) → IsSceneOf history scene.now.t scene.now
            → AreImagesTried self.now pass result.0 (live history) scene.now.t size.now result.1 }
    {
        match self.readied(alloc, scene, size) {
            Ok(Readied { plan, keys, room }) => {
                self.images_pinned(alloc, pass, &plan.draws, keys, room)
            }
            Err(OutOfMemory) => (pass, Err(PinRefusal::OutOfMemory)),
        }
    }

    /// What the track shows at an instant, in milliseconds, in a frame of a size, where all its masks are ready. It makes no mask and
    /// waits for nobody. A refusal adds no entry to any history and holds nothing, and tells a mask that is being made from one that
    /// nobody makes.
    pub fn try_frame_telling(
        &self,
        alloc: Global,
        pass: RenderPass,
        t: i64,
        size: &Size,
    ) -> (RenderPass, Result<Frame, TryRefusal>)
        requires pass { IsPassOfRenderer self.now pass }
        requires instant { IsWithin max_instant t }
        requires size { IsFrameSize size.now }
        ensures pass { IsPassOfRenderer self.now result.0 }
        ensures history { IfOk result.1 (ShowsOneHistory self.now pass result.0 t size.now) }
        ensures tried { IsTried self.now pass result.0 t size.now result.1 }
        ensures holds { HoldsJustTheFrame self.now pass result.0 result.1 }
        ensures home { IfOk result.1 (IsHomeFrame self.now) }
    {
        let RenderPass { track, caches } = pass;
        let (track, scene) = self.track.try_look(alloc, track, t);
        match scene {
            Ok(scene) => {
                let (caches, images) = self.ready_images(alloc, caches, &scene, size);
                let frame = frame_with(&scene, size, images.map_err(of_caches));
                (RenderPass { track, caches }, frame)
            }
            Err(refusal) => (RenderPass { track, caches }, Err(of_track(refusal))),
        }
    }
}

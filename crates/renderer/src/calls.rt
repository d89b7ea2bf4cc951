//! The calls of a renderer that render nothing.
ghost use Rattle.std.specs.Prelude.{◌≡◌, ◌≤◌, ◌<◌, ◌∷◌, [], length, None, IfOk, IfErr, OnOk, All};
ghost use Rattle.std.specs.Arc.{arc_value};
ghost use Rattle.ass_events.specs.Histories.{live};
ghost use Rattle.ass_num.specs.Limits.{max_text_bytes};
ghost use Rattle.ass_script.specs.Ranges.{IsScript};
ghost use Rattle.cache_kinds.specs.Kinds.{composite_meaning, mask_meaning, region_meaning};
ghost use Rattle.evict_core.specs.Machine.{Limits, IsHardLimit, max_budget};
ghost use Rattle.flight_cache.specs.Shards.{EachGives, IsHardSetInEach, part};
ghost use Rattle.mask_caches.specs.Adding.{Adds};
ghost use Rattle.mask_caches.specs.Caches.{all_totals};
ghost use Rattle.mask_caches.specs.Holding.{all_given_steps};
ghost use Rattle.cache_kinds.specs.Limits.{entry_limit};
ghost use Rattle.mask_keys.specs.Equality.{equal_composites, equal_masks, equal_regions};
ghost use Rattle.text_layout.specs.Fonts.{IsLayoutFontSet};
ghost use Rattle.track_history.specs.Answers.{read_orders};
ghost use Rattle.track_history.specs.Calls.{IsFed, IsFlushed, IsTurn, history_of};
ghost use Rattle.renderer.specs.ShownFrames.{leases_of};
ghost use Rattle.renderer.specs.Holding.{HoldsFrame, HoldsFrameFewer, HoldsTheSame, IsHomeFrame};
ghost use Rattle.renderer.specs.Passes.{HoldsNothing, IsFirstPass, IsNewRenderer, IsPassOfRenderer, IsRenderJoined, IsRenderSplit, IsUnchanged};

use crate::Frame;
use crate::passes::RenderPass;
use crate::releasing::release_images;
use crate::renderer::Renderer;
use ass_num::{Items, Mem, OutOfMemory};
use ass_script::Script;
use bdf_font::FontSet;
use evict_core::{HardLimit, Totals};
use mask_caches::{Caches, HardSet};
use std::alloc::Global;
use std::sync::{Arc, Wait};
use track_history::{Feed, Flushed, Track};

impl Renderer {
    /// A renderer without events, and its first pass. Each of the three caches gets the whole budget.
    pub fn open(
        alloc: Global,
        script: Arc<Script>,
        fonts: Arc<FontSet>,
        budget: u64,
    ) -> Mem<(Renderer, RenderPass)>
        requires script { IsScript (arc_value script) }
        requires fonts { IsLayoutFontSet (arc_value fonts).fonts }
        requires budget { budget ≤ max_budget }
        ensures script { IfOk result (λ r. r.0.script ≡ arc_value script) }
        ensures fonts { IfOk result (λ r. r.0.fonts ≡ (arc_value fonts).fonts) }
        ensures new { IfOk result (λ r. IsNewRenderer r.0 r.1 budget) }
    {
        let of_caches = Arc::try_clone(&fonts)?;
        let (track, track_pass) = Track::open(alloc)?;
        let Ok((caches, caches_pass)) = Caches::open(alloc, of_caches, budget) else {
            track.close(track_pass);
            return Err(OutOfMemory);
        };
        let renderer = Renderer {
            script,
            fonts,
            track,
            caches,
        };
        let pass = RenderPass {
            track: track_pass,
            caches: caches_pass,
        };
        Ok((renderer, pass))
    }

    /// Offers the event of a chunk, with its time in milliseconds beside it (`ass_process_chunk` in libass `ass.h`). Only `Accepted`
    /// changes the track's history; the caches stay as they are. A chunk has at most 134,217,728 bytes.
    pub fn feed<R: Wait>(
        &self,
        rt: &R,
        alloc: Global,
        pass: RenderPass,
        chunk: &[u8],
        start: i64,
        duration: i64,
    ) -> (RenderPass, Feed)
        requires pass { IsPassOfRenderer self.now pass }
        requires short { length chunk.now ≤ max_text_bytes }
        ensures pass { IsPassOfRenderer self.now result.0 }
        ensures fed { IsFed chunk.now start duration pass.track result.0.track result.1 }
        ensures caches { result.0.caches ≡ pass.caches }
    {
        let RenderPass { track, caches } = pass;
        let (track, answer) = self.track.feed(rt, alloc, track, chunk, start, duration);
        let pass = RenderPass { track, caches };
        (pass, answer)
    }

    /// Drops all live events: the flush is an entry of the track's history. It takes no memory, and frees the events once others may
    /// have the track's turn. The caches stay as they are.
    pub fn flush<R: Wait>(&self, rt: &R, alloc: Global, pass: RenderPass) -> (RenderPass, Flushed)
        requires { IsPassOfRenderer self.now pass }
        ensures pass { IsPassOfRenderer self.now result.0 }
        ensures flushed { IsFlushed pass.track result.0.track result.1 }
        ensures caches { result.0.caches ≡ pass.caches }
    {
        let RenderPass { track, caches } = pass;
        let (track, answer) = self.track.flush(rt, alloc, track);
        let pass = RenderPass { track, caches };
        (pass, answer)
    }

    /// Gives a frame's masks back, the last one first. It takes no memory.
    pub fn release<R: Wait>(&self, rt: &R, pass: RenderPass, frame: Frame) -> RenderPass
        requires pass { IsPassOfRenderer self.now pass }
        requires own { IsHomeFrame self.now frame }
        requires held { HoldsFrame self.now pass frame }
        ensures pass { IsPassOfRenderer self.now result }
        ensures track { result.track ≡ pass.track }
        ensures composites { Adds equal_composites composite_meaning self.now.caches.composites pass.caches.composites result.caches.composites
            (all_given_steps (leases_of frame.images)) }
        ensures masks { result.caches.masks ≡ pass.caches.masks }
        ensures regions { result.caches.regions ≡ pass.caches.regions }
        ensures holds { HoldsFrameFewer self.now pass result frame }
    {
        let RenderPass { track, caches } = pass;
        let Frame {
            n: _,
            t: _,
            size: _,
            images,
        } = frame;
        let caches = release_images(&self.caches, rt, caches, images.into_vec());
        RenderPass { track, caches }
    }

    /// A new budget for each of the three caches, and the limit of entries that goes with it. What is evicted is freed once others
    /// may have the turn of its shard, as far as there is memory to keep it so long; else at once.
    pub fn set_limits<R: Wait>(
        &self,
        rt: &R,
        alloc: Global,
        pass: RenderPass,
        budget: u64,
    ) -> RenderPass
        requires pass { IsPassOfRenderer self.now pass }
        requires budget { budget ≤ max_budget }
        ensures pass { IsPassOfRenderer self.now result }
        ensures track { result.track ≡ pass.track }
        ensures regions { EachGives equal_regions region_meaning self.now.caches.regions.shards pass.caches.regions result.caches.regions
            (λ n. Limits (part (entry_limit budget) n) (part budget n) ∷ []) }
        ensures masks { EachGives equal_masks mask_meaning self.now.caches.masks.shards pass.caches.masks result.caches.masks
            (λ n. Limits (part (entry_limit budget) n) (part budget n) ∷ []) }
        ensures composites { EachGives equal_composites composite_meaning self.now.caches.composites.shards pass.caches.composites result.caches.composites
            (λ n. Limits (part (entry_limit budget) n) (part budget n) ∷ []) }
        ensures holds { HoldsTheSame self.now pass result }
    {
        let RenderPass { track, caches } = pass;
        let caches = self.caches.set_budgets(rt, alloc, caches, budget);
        RenderPass { track, caches }
    }

    /// A hard limit of what all values of each of the three caches cost together, with their keys: those that pins hold, those that
    /// none holds and those that are being made, each of these at what the limit has for one. Or none any more, as at first. What
    /// would pass it is made apart, and is the caller's own (see [`Frame::owned`]): pictures stay as they are. It evicts nothing, so a
    /// limit has to be above the budget by four times what is pinned and made at once in one shard. It tells which caches have the
    /// limit in all shards: a shard whose values pass its part as they are keeps the limit that it had.
    pub fn set_hard_limit<R: Wait>(
        &self,
        rt: &R,
        pass: RenderPass,
        hard: Option<HardLimit>,
    ) -> (RenderPass, HardSet)
        requires pass { IsPassOfRenderer self.now pass }
        requires hard { IsHardLimit hard }
        ensures pass { IsPassOfRenderer self.now result.0 }
        ensures track { result.0.track ≡ pass.track }
        ensures regions { IsHardSetInEach equal_regions region_meaning self.now.caches.regions.shards pass.caches.regions hard
            result.0.caches.regions result.1.regions }
        ensures masks { IsHardSetInEach equal_masks mask_meaning self.now.caches.masks.shards pass.caches.masks hard
            result.0.caches.masks result.1.masks }
        ensures composites { IsHardSetInEach equal_composites composite_meaning self.now.caches.composites.shards pass.caches.composites hard
            result.0.caches.composites result.1.composites }
        ensures holds { HoldsTheSame self.now pass result.0 }
    {
        let RenderPass { track, caches } = pass;
        let (caches, set) = self.caches.set_hard_limit(rt, caches, hard);
        let pass = RenderPass { track, caches };
        (pass, set)
    }

    /// The ReadOrders of the live events, in the order in which they were accepted.
    pub fn orders<R: Wait>(
        &self,
        rt: &R,
        alloc: Global,
        pass: RenderPass,
    ) -> (RenderPass, Mem<Items<u32>>)
        requires { IsPassOfRenderer self.now pass }
        ensures pass { IsPassOfRenderer self.now result.0 }
        ensures turn { IsTurn pass.track result.0.track None }
        ensures orders { IfOk result.1 (λ orders. orders ≡ read_orders (live (history_of result.0.track.seen))) }
        ensures caches { result.0.caches ≡ pass.caches }
    {
        let RenderPass { track, caches } = pass;
        let (track, orders) = self.track.orders(rt, alloc, track);
        let pass = RenderPass { track, caches };
        (pass, orders)
    }

    /// The totals of the caches of regions, of masks and of composed masks, in this order.
    pub fn totals<R: Wait>(&self, rt: &R, pass: RenderPass) -> (RenderPass, [Totals; 3])
        requires { IsPassOfRenderer self.now pass }
        ensures pass { IsPassOfRenderer self.now result.0 }
        ensures track { result.0.track ≡ pass.track }
        ensures regions { EachGives equal_regions region_meaning self.now.caches.regions.shards pass.caches.regions result.0.caches.regions (λ n. []) }
        ensures masks { EachGives equal_masks mask_meaning self.now.caches.masks.shards pass.caches.masks result.0.caches.masks (λ n. []) }
        ensures composites { EachGives equal_composites composite_meaning self.now.caches.composites.shards pass.caches.composites result.0.caches.composites
            (λ n. []) }
        ensures totals { result.1 ≡ all_totals self.now.caches result.0.caches }
        ensures budgets { All (λ t. t.unpinned ≤ t.budget) result.1 }
        ensures holds { HoldsTheSame self.now pass result.0 }
    {
        let RenderPass { track, caches } = pass;
        let (caches, totals) = self.caches.totals(rt, caches);
        let pass = RenderPass { track, caches };
        (pass, totals)
    }

    /// Splits a new pass off the first one. The first pass comes back as it was where 4,294,967,295 numbers were made.
    pub fn split(&self, pass: RenderPass) -> Result<(RenderPass, RenderPass), RenderPass>
        requires pass { IsPassOfRenderer self.now pass }
        requires first { IsFirstPass pass }
        ensures passes { IfOk result (λ r. IsRenderSplit self.now pass r.0 r.1) }
        ensures room { OnOk result (pass.track.next < u32.MAX) }
        ensures refused { IfErr result (λ p. (pass.track.next ≡ u32.MAX) × IsUnchanged pass p) }
    {
        let RenderPass { track, caches } = pass;
        let (track, new_track) = match self.track.split(track) {
            Ok(two) => two,
            Err(track) => {
                let pass = RenderPass { track, caches };
                return Err(pass);
            }
        };
        let (caches, new_caches) = match self.caches.split(caches) {
            Ok(two) => two,
            Err(_caches) => unreachable!(),
        };
        let first = RenderPass { track, caches };
        let new = RenderPass {
            track: new_track,
            caches: new_caches,
        };
        Ok((first, new))
    }

    /// Spends the other pass, whose frames were released. The first one keeps its number, what it gave, and the longer of what both had
    /// seen of the track and of each shard.
    pub fn join(&self, pass: RenderPass, other: RenderPass) -> RenderPass
        requires passes { IsPassOfRenderer self.now pass × IsPassOfRenderer self.now other }
        requires first { IsFirstPass pass }
        requires given { HoldsNothing self.now other }
        ensures { IsRenderJoined self.now pass other result }
    {
        let RenderPass { track, caches } = pass;
        let RenderPass {
            track: other_track,
            caches: other_caches,
        } = other;
        let track = self.track.join(track, other_track);
        let caches = self.caches.join(caches, other_caches);
        RenderPass { track, caches }
    }

    /// Spends the last pass. What another pass holds a turn of, which was never joined, isn't freed.
    pub fn close(self, pass: RenderPass)
        requires pass { IsPassOfRenderer self pass }
        requires first { IsFirstPass pass }
    {
        let Renderer {
            script: _,
            fonts: _,
            track,
            caches,
        } = self;
        let RenderPass {
            track: track_pass,
            caches: caches_pass,
        } = pass;
        track.close(track_pass);
        caches.close(caches_pass);
    }
}

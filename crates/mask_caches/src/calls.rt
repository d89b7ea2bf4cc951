//! The calls of the three caches together.
ghost use Rattle.std.specs.Prelude.{◌≡◌, ◌≤◌, ◌<◌, ◌∷◌, [], false, IfOk, IfErr, OnOk, All};
ghost use Rattle.std.specs.Arc.{arc_value};
ghost use Rattle.evict_core.specs.Machine.{Limits, Unpin, IsHardLimit, max_budget, max_entries};
ghost use Rattle.flight_cache.specs.Budgets.{shown_budgets};
ghost use Rattle.flight_cache.specs.Shards.{EachGives, IsCacheOf, IsHardSetInEach, min_cache_entries, part};
ghost use Rattle.cache_kinds.specs.Kinds.{composite_meaning, mask_meaning, region_meaning};
ghost use Rattle.mask_keys.specs.Equality.{equal_composites, equal_masks, equal_regions};
ghost use Rattle.mask_keys.specs.Outlines.{IsFontSet};
ghost use Rattle.mask_caches.specs.Adding.{Adds, IsFree};
ghost use Rattle.mask_caches.specs.Leases.{HoldsLease, given_steps, is_pinned, IsHomeLease};
ghost use Rattle.mask_caches.specs.Caches.{AreJoined, AreLegal, AreNew, AreNumbered, HasAllGivenBack, HoldsAsBefore, HoldsNothingAgain, IsNewCache, IsPassOf};
ghost use Rattle.mask_caches.specs.Caches.{IsSamePass, IsSplit, IsSplitIn, all_totals};
ghost use Rattle.mask_caches.specs.Warming.{AddsWarming};
ghost use Rattle.cache_kinds.specs.Limits.{entry_limit};

use crate::caches::Caches;
use crate::lease::{Lease, give_back};
use crate::passes::CachesPass;
use ass_num::{Mem, OutOfMemory};
use bdf_font::FontSet;
use cache_kinds::{CompositeMade, entry_limit};
use evict_core::{HardLimit, Totals};
use flight_cache::{Budgets, Cache, CachePass, Made};
use std::alloc::Global;
use std::sync::{Arc, Wait};

/// Which of the three caches have a hard limit that was to be set, in all their shards.
#[derive(Clone, Copy, Debug, PartialEq, Eq)]
pub struct HardSet {
    pub regions: bool,
    pub masks: bool,
    pub composites: bool,
}

/// A cache with the whole budget, and its first pass.
fn open_cache<M: Made>(alloc: Global, tag: M::Tag, budget: u64) -> Mem<(Cache<M>, CachePass<M>)>
    requires { budget ≤ max_budget }
    ensures tag { IfOk result (λ r. r.0.tag ≡ tag) }
    ensures new { IfOk result (λ r. IsNewCache r.0 r.1 budget) }
    ensures pass { IfOk result (λ r. IsCacheOf r.0 r.1) }
    ensures free { IfOk result (λ r. IsFree M.Key.eq M.meaning r.0 r.1) }
{
    let entries = entry_limit(budget);
    Cache::open(alloc, tag, entries, budget)
}

/// A split that can't be refused.
fn split_with_room<M: Made>(cache: &Cache<M>, pass: CachePass<M>) -> (CachePass<M>, CachePass<M>)
    requires cell { IsCacheOf cache.now pass }
    requires first { pass.first.number ≡ 0 }
    requires room { pass.first.next < u32.MAX }
    ensures { IsSplitIn M.meaning cache.now pass result.0 result.1 }
{
    match cache.split(pass) {
        Ok(two) => two,
        Err(_pass) => unreachable!(),
    }
}

impl Caches {
    /// No entries, and the first pass. Each cache gets the whole budget, and a limit of one entry for each 1,024 of it,
    /// from 16 to 65,536.
    pub fn open(alloc: Global, fonts: Arc<FontSet>, budget: u64) -> Mem<(Caches, CachesPass)>
        requires fonts { IsFontSet (arc_value fonts).fonts }
        requires budget { budget ≤ max_budget }
        ensures fonts { IfOk result (λ r. arc_value r.0.fonts ≡ arc_value fonts) }
        ensures new { IfOk result (λ r. AreNew r.0 r.1 budget) }
        ensures pass { IfOk result (λ r. IsPassOf r.0 r.1) }
        ensures given { IfOk result (λ r. HasAllGivenBack r.0 r.1) }
    {
        let of_regions = Arc::try_clone(&fonts)?;
        let of_masks = Arc::try_clone(&fonts)?;
        let of_composites = Arc::try_clone(&fonts)?;
        let (regions, regions_pass) = open_cache(alloc, of_regions, budget)?;
        let Ok((masks, masks_pass)) = open_cache(alloc, of_masks, budget) else {
            regions.close(regions_pass);
            return Err(OutOfMemory);
        };
        let Ok((composites, composites_pass)) = open_cache(alloc, of_composites, budget) else {
            regions.close(regions_pass);
            masks.close(masks_pass);
            return Err(OutOfMemory);
        };
        let caches = Caches {
            fonts,
            regions,
            masks,
            composites,
        };
        let pass = CachesPass {
            regions: regions_pass,
            masks: masks_pass,
            composites: composites_pass,
        };
        Ok((caches, pass))
    }

    /// A new budget, and the limit of entries that goes with it, for each cache.
    pub fn set_budgets<R: Wait>(
        &self,
        rt: &R,
        alloc: Global,
        pass: CachesPass,
        budget: u64,
    ) -> CachesPass
        requires pass { IsPassOf self.now pass }
        requires budget { budget ≤ max_budget }
        ensures pass { IsPassOf self.now result }
        ensures regions { EachGives equal_regions region_meaning self.now.regions.shards pass.regions result.regions
            (λ n. Limits (part (entry_limit budget) n) (part budget n) ∷ []) }
        ensures masks { EachGives equal_masks mask_meaning self.now.masks.shards pass.masks result.masks
            (λ n. Limits (part (entry_limit budget) n) (part budget n) ∷ []) }
        ensures composites { EachGives equal_composites composite_meaning self.now.composites.shards pass.composites result.composites
            (λ n. Limits (part (entry_limit budget) n) (part budget n) ∷ []) }
        ensures holds { HoldsAsBefore self.now pass result }
    {
        let CachesPass {
            regions,
            masks,
            composites,
        } = pass;
        let entries = entry_limit(budget);
        let regions = self.regions.set_limits(rt, alloc, regions, entries, budget);
        let masks = self.masks.set_limits(rt, alloc, masks, entries, budget);
        let composites = self
            .composites
            .set_limits(rt, alloc, composites, entries, budget);
        CachesPass {
            regions,
            masks,
            composites,
        }
    }

    /// A hard limit of what all entries of a cache cost together, or none any more, for each cache: it is told which of them have it
    /// in all shards. Where the entries of a shard pass its part as they are, it keeps the limit that it had.
    pub fn set_hard_limit<R: Wait>(
        &self,
        rt: &R,
        pass: CachesPass,
        hard: Option<HardLimit>,
    ) -> (CachesPass, HardSet)
        requires pass { IsPassOf self.now pass }
        requires hard { IsHardLimit hard }
        ensures pass { IsPassOf self.now result.0 }
        ensures regions { IsHardSetInEach equal_regions region_meaning self.now.regions.shards pass.regions hard result.0.regions result.1.regions }
        ensures masks { IsHardSetInEach equal_masks mask_meaning self.now.masks.shards pass.masks hard result.0.masks result.1.masks }
        ensures composites { IsHardSetInEach equal_composites composite_meaning self.now.composites.shards pass.composites hard
            result.0.composites result.1.composites }
        ensures holds { HoldsAsBefore self.now pass result.0 }
    {
        let CachesPass {
            regions,
            masks,
            composites,
        } = pass;
        let (regions, regions_set) = self.regions.set_hard_limit(rt, regions, hard);
        let (masks, masks_set) = self.masks.set_hard_limit(rt, masks, hard);
        let (composites, composites_set) = self.composites.set_hard_limit(rt, composites, hard);
        let pass = CachesPass {
            regions,
            masks,
            composites,
        };
        let set = HardSet {
            regions: regions_set,
            masks: masks_set,
            composites: composites_set,
        };
        (pass, set)
    }

    /// The totals of the regions, the masks and the composed masks, in this order.
    pub fn totals<R: Wait>(&self, rt: &R, pass: CachesPass) -> (CachesPass, [Totals; 3])
        requires { IsPassOf self.now pass }
        ensures pass { IsPassOf self.now result.0 }
        ensures regions { EachGives equal_regions region_meaning self.now.regions.shards pass.regions result.0.regions (λ n. []) }
        ensures masks { EachGives equal_masks mask_meaning self.now.masks.shards pass.masks result.0.masks (λ n. []) }
        ensures composites { EachGives equal_composites composite_meaning self.now.composites.shards pass.composites result.0.composites (λ n. []) }
        ensures totals { result.1 ≡ all_totals self.now result.0 }
        ensures budgets { All (λ t. t.unpinned ≤ t.budget) result.1 }
        ensures holds { HoldsAsBefore self.now pass result.0 }
    {
        let CachesPass {
            regions,
            masks,
            composites,
        } = pass;
        let (regions, of_regions) = self.regions.totals(rt, regions);
        let (masks, of_masks) = self.masks.totals(rt, masks);
        let (composites, of_composites) = self.composites.totals(rt, composites);
        (
            CachesPass {
                regions,
                masks,
                composites,
            },
            [of_regions, of_masks, of_composites],
        )
    }

    /// What the shards of the composed masks may keep. It adds nothing.
    pub fn composite_budgets<R: Wait>(&self, rt: &R, pass: CachesPass) -> (CachesPass, Budgets)
        requires { IsPassOf self.now pass }
        ensures pass { IsPassOf self.now result.0 }
        ensures composites { EachGives equal_composites composite_meaning self.now.composites.shards pass.composites result.0.composites (λ n. []) }
        ensures budgets { result.1 ≡ shown_budgets equal_composites composite_meaning self.now.composites result.0.composites }
        ensures adds { AddsWarming self.now pass result.0 [] }
        ensures holds { HoldsAsBefore self.now pass result.0 }
    {
        let CachesPass {
            regions,
            masks,
            composites,
        } = pass;
        let (composites, budgets) = self.composites.budgets(rt, composites);
        (
            CachesPass {
                regions,
                masks,
                composites,
            },
            budgets,
        )
    }

    /// Gives back what was had of a composed mask.
    pub fn give_back<R: Wait>(
        &self,
        rt: &R,
        pass: CachesPass,
        lease: Lease<CompositeMade>,
    ) -> CachesPass
        requires pass { IsPassOf self.now pass }
        requires own { IsHomeLease composite_meaning self.now.composites lease }
        requires held { HoldsLease equal_composites composite_meaning self.now.composites pass.composites lease }
        ensures pass { IsPassOf self.now result }
        ensures composites { Adds equal_composites composite_meaning self.now.composites pass.composites result.composites (given_steps lease) }
        ensures own { is_pinned lease ≡ false → result.composites ≡ pass.composites }
        ensures masks { result.masks ≡ pass.masks }
        ensures regions { result.regions ≡ pass.regions }
    {
        let CachesPass {
            regions,
            masks,
            composites,
        } = pass;
        let composites = give_back(&self.composites, rt, composites, lease);
        CachesPass {
            regions,
            masks,
            composites,
        }
    }

    /// A new pass. The first one comes back alone where no number is left.
    pub fn split(&self, pass: CachesPass) -> Result<(CachesPass, CachesPass), CachesPass>
        requires pass { IsPassOf self.now pass }
        requires first { pass.regions.first.number ≡ 0 }
        ensures passes { IfOk result (λ r. IsSplit self.now pass r.0 r.1) }
        ensures cells { IfOk result (λ r. IsPassOf self.now r.0 × IsPassOf self.now r.1) }
        ensures given { IfOk result (λ r. HasAllGivenBack self.now r.1) }
        ensures room { OnOk result (pass.regions.first.next < u32.MAX) }
        ensures refused { IfErr result (λ p. (pass.regions.first.next ≡ u32.MAX) × IsSamePass pass p) }
    {
        let CachesPass {
            regions,
            masks,
            composites,
        } = pass;
        match self.regions.split(regions) {
            Ok(two) => {
                let (regions, new_regions) = two;
                let (masks, new_masks) = split_with_room(&self.masks, masks);
                let (composites, new_composites) = split_with_room(&self.composites, composites);
                let first = CachesPass {
                    regions,
                    masks,
                    composites,
                };
                let new = CachesPass {
                    regions: new_regions,
                    masks: new_masks,
                    composites: new_composites,
                };
                Ok((first, new))
            }
            Err(regions) => {
                let pass = CachesPass {
                    regions,
                    masks,
                    composites,
                };
                Err(pass)
            }
        }
    }

    /// Spends the other pass, which holds no pin and has no claim open.
    pub fn join(&self, pass: CachesPass, other: CachesPass) -> CachesPass
        requires passes { IsPassOf self.now pass × IsPassOf self.now other }
        requires first { pass.regions.first.number ≡ 0 }
        requires given { HasAllGivenBack self.now other }
        ensures joined { AreJoined self.now pass other result }
        ensures pass { IsPassOf self.now result }
    {
        let CachesPass {
            regions,
            masks,
            composites,
        } = pass;
        let CachesPass {
            regions: other_regions,
            masks: other_masks,
            composites: other_composites,
        } = other;
        let regions = self.regions.join(regions, other_regions);
        let masks = self.masks.join(masks, other_masks);
        let composites = self.composites.join(composites, other_composites);
        CachesPass {
            regions,
            masks,
            composites,
        }
    }

    /// Spends the last pass.
    pub fn close(self, pass: CachesPass)
        requires pass { IsPassOf self pass }
        requires first { pass.regions.first.number ≡ 0 }
    {
        let Caches {
            fonts: _,
            regions,
            masks,
            composites,
        } = self;
        let CachesPass {
            regions: regions_pass,
            masks: masks_pass,
            composites: composites_pass,
        } = pass;
        regions.close(regions_pass);
        masks.close(masks_pass);
        composites.close(composites_pass);
    }

    /// What the pass has seen of each shard is legal, the shards have their numbers, and the pass holds nothing if it holds
    /// what one did that held nothing. It does nothing: its contract is the law.
    pub fn proof_legal(&self, pass: &CachesPass)
        requires { IsPassOf self.now pass.now }
        ensures legal { AreLegal self.now pass.now }
        ensures numbered { AreNumbered self.now }
        ensures nothing { HoldsNothingAgain self.now pass.now }
    {
        self.regions.proof_legal(&pass.regions);
        self.masks.proof_legal(&pass.masks);
        self.composites.proof_legal(&pass.composites);
        self.regions.proof_numbered();
        self.masks.proof_numbered();
        self.composites.proof_numbered();
    }
}

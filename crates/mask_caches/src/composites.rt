//! Composed masks through the three caches.
ghost use Rattle.std.specs.Prelude.{◌≡◌, ◌≤◌, true, List, [], length, map, flat_map, All, IfOk, OnOk, vec_capacity, vec_len};
ghost use Rattle.std.specs.Arc.{arc_value};
ghost use Rattle.flight_cache.specs.Shards.{HoldsEach, IsCacheOf};
ghost use Rattle.cache_kinds.specs.Kinds.{composite_meaning, mask_meaning, region_meaning};
ghost use Rattle.made_values.specs.Parts.{placed_masks};
ghost use Rattle.mask_cover.specs.Sums.{IsPlaceableMask};
ghost use Rattle.mask_keys.specs.Equality.{equal_composites, equal_masks, equal_regions};
ghost use Rattle.mask_keys.specs.Keys.{IsValidComposite, IsValidPart};
ghost use Rattle.mask_keys.specs.Masks.{summed_mask};
ghost use Rattle.mask_keys.specs.Outlines.{glyph_counts};
ghost use Rattle.mask_keys.specs.Values.{composite_value};
ghost use Rattle.mask_caches.specs.Adding.{Adds, HoldsAsMuch, HoldsFewer, HoldsMore, IsFree};
ghost use Rattle.mask_caches.specs.Caches.{IsPassOf};
ghost use Rattle.mask_caches.specs.Composing.{HoldsJustTheLease, IsComposed};
ghost use Rattle.mask_caches.specs.Threes.{three, three_of};
ghost use Rattle.mask_caches.specs.Holding.{AreAllHad, AreVisited, all_given_steps, pinned_keys};
ghost use Rattle.mask_caches.specs.Leases.{HoldsLease, lease_value, IsHomeLease};
ghost use Rattle.mask_caches.specs.Visits.{AreMaskVisits, MaskVisit, mask_steps, mask_steps_of, region_steps_of};

use crate::caches::Caches;
use crate::lease::{Lease, give_back};
use crate::lending::settle;
use crate::passes::CachesPass;
use ass_num::{Mask, Mem, OutOfMemory};
use cache_kinds::{CompositeMade, MaskMade, RegionMade};
use flight_cache::{Asked, Cache, CachePass};
use made_values::made_composite;
use mask_keys::{CompositeKey, Part};
use std::alloc::Global;
use std::sync::{Arc, Wait};
use test_hook::{HookPoint, TestHook, ValueKind};

/// The values of leases, each shared with its lease.
fn shared(alloc: Global, leases: &Vec<Lease<MaskMade>>) -> Mem<Vec<Arc<Mask>>>
    ensures { IfOk result (λ shares. map arc_value shares.items ≡ map lease_value leases.now.items) }
{
    let mut shares = Vec::new(alloc);
    for lease in leases {
        shares.push(lease.share()?)?;
    }
    Ok(shares)
}

/// The composed mask of parts, from the leases of their masks, where all are had.
fn composed<H: TestHook>(
    alloc: Global,
    parts: &[Part],
    leases: &Vec<Lease<MaskMade>>,
    are_all: bool,
    hook: &H,
) -> Mem<Arc<Mask>>
    requires count { are_all ≡ true → length leases.now.items ≡ length parts.now }
    requires masks { are_all ≡ true → All IsPlaceableMask (placed_masks parts.now (map lease_value leases.now.items)) }
    ensures all { OnOk result (are_all ≡ true) }
    ensures value { IfOk result (λ a. arc_value a ≡ summed_mask (placed_masks parts.now (map lease_value leases.now.items))) }
{
    if !are_all {
        return Err(OutOfMemory);
    }
    hook.at(HookPoint::BeforeMake(ValueKind::Composite));
    let shares = shared(alloc, leases)?;
    made_composite(alloc, parts, &shares)
}

/// Gives leases back, the last one first.
fn give_all_back<R: Wait>(
    cache: &Cache<MaskMade>,
    rt: &R,
    pass: CachePass<MaskMade>,
    leases: Vec<Lease<MaskMade>>,
) -> CachePass<MaskMade>
    requires cell { IsCacheOf cache.now pass }
    requires own { All (IsHomeLease mask_meaning cache.now) leases.items }
    requires held { HoldsEach equal_masks mask_meaning cache.now pass (pinned_keys leases.items) }
    ensures steps { Adds equal_masks mask_meaning cache.now pass result (all_given_steps leases.items) }
    ensures holds { HoldsFewer equal_masks mask_meaning cache.now pass result (pinned_keys leases.items) }
{
    let mut leases = leases;
    let mut pass = pass;
    while let Some(lease) = leases.pop() {
        pass = give_back(cache, rt, pass, lease);
    }
    leases.destroy_empty();
    pass
}

/// What is had of the masks of parts, and whether all were.
struct Masks {
    regions: CachePass<RegionMade>,
    masks: CachePass<MaskMade>,
    leases: Vec<Lease<MaskMade>>,
    are_all: bool,
}

/// The passes of the three caches, of whatever numbers.
struct Passes {
    regions: CachePass<RegionMade>,
    masks: CachePass<MaskMade>,
    composites: CachePass<CompositeMade>,
}

impl Caches {
    /// The masks of parts through their cache, in the order of the parts, until one can't be had. There is room for the leases.
    fn visit_masks<R: Wait, H: TestHook>(
        &self,
        rt: &R,
        alloc: Global,
        regions: CachePass<RegionMade>,
        masks: CachePass<MaskMade>,
        parts: &[Part],
        leases: Vec<Lease<MaskMade>>,
        hook: &H,
    ) -> Masks
        requires regions { IsCacheOf self.now.regions regions }
        requires masks { IsCacheOf self.now.masks masks }
        requires regions_free { IsFree equal_regions region_meaning self.now.regions regions }
        requires masks_free { IsFree equal_masks mask_meaning self.now.masks masks }
        requires parts { All (IsValidPart (glyph_counts (arc_value self.now.fonts).fonts)) parts.now }
        requires empty { leases.items ≡ [] }
        requires len { vec_len leases ≡ 0 }
        requires room { length parts.now ≤ vec_capacity leases }
        ensures visits { (visits : List MaskVisit) × AreVisited self.now parts.now visits result
            × Adds equal_regions region_meaning self.now.regions regions result.regions (region_steps_of self.now.regions.tag visits)
            × Adds equal_masks mask_meaning self.now.masks masks result.masks (flat_map (mask_steps self.now.masks.tag) visits) }
        ensures regions { HoldsAsMuch equal_regions region_meaning self.now.regions regions result.regions }
        ensures holds { HoldsMore equal_masks mask_meaning self.now.masks masks result.masks (pinned_keys result.leases.items) }
        ensures homes { All (IsHomeLease mask_meaning self.now.masks) result.leases.items }
    {
        let mut regions = regions;
        let mut masks = masks;
        let mut leases = leases;
        for part in parts {
            let (next_regions, next_masks, had) = self.mask(
                rt, alloc, regions, masks, &part.mask, hook,
            );
            regions = next_regions;
            masks = next_masks;
            match had {
                Ok(lease) => leases.push_reserved(lease),
                Err(_) => {
                    return Masks {
                        regions,
                        masks,
                        leases,
                        are_all: false,
                    };
                }
            }
        }
        Masks {
            regions,
            masks,
            leases,
            are_all: true,
        }
    }

    /// The composed mask of a key, from the masks of its parts, which are had through their cache.
    fn make_composite<R: Wait, H: TestHook>(
        &self,
        rt: &R,
        alloc: Global,
        regions: CachePass<RegionMade>,
        masks: CachePass<MaskMade>,
        key: &CompositeKey,
        hook: &H,
    ) -> (CachePass<RegionMade>, CachePass<MaskMade>, Mem<Arc<Mask>>)
        requires regions { IsCacheOf self.now.regions regions }
        requires masks { IsCacheOf self.now.masks masks }
        requires regions_free { IsFree equal_regions region_meaning self.now.regions regions }
        requires masks_free { IsFree equal_masks mask_meaning self.now.masks masks }
        requires key { IsValidComposite (glyph_counts (arc_value self.now.fonts).fonts) key.now }
        ensures visits { (visits : List MaskVisit) × AreMaskVisits key.now.parts visits
            × Adds equal_regions region_meaning self.now.regions regions result.0 (region_steps_of self.now.regions.tag visits)
            × Adds equal_masks mask_meaning self.now.masks masks result.1 (mask_steps_of self.now.masks.tag visits)
            × OnOk result.2 (AreAllHad key.now.parts visits) }
        ensures regions { HoldsAsMuch equal_regions region_meaning self.now.regions regions result.0 }
        ensures holds { HoldsAsMuch equal_masks mask_meaning self.now.masks masks result.1 }
        ensures value { IfOk result.2 (λ a. arc_value a ≡ composite_value (arc_value self.now.fonts).fonts key.now) }
    {
        let parts = key.parts.as_slice();
        let mut leases = Vec::new(alloc);
        if leases.reserve(parts.len()).is_err() {
            leases.destroy_empty();
            return (regions, masks, Err(OutOfMemory));
        }
        let Masks {
            regions,
            masks,
            leases,
            are_all,
        } = self.visit_masks(rt, alloc, regions, masks, parts, leases, hook);
        let made = composed(alloc, parts, &leases, are_all, hook);
        let masks = give_all_back(&self.masks, rt, masks, leases);
        (regions, masks, made)
    }

    /// What `composite` does, on the passes themselves.
    fn visit_composite<R: Wait, H: TestHook>(
        &self,
        rt: &R,
        alloc: Global,
        passes: Passes,
        key: &CompositeKey,
        hook: &H,
    ) -> (Passes, Mem<Lease<CompositeMade>>)
        requires regions { IsCacheOf self.now.regions passes.regions }
        requires masks { IsCacheOf self.now.masks passes.masks }
        requires composites { IsCacheOf self.now.composites passes.composites }
        requires regions_free { IsFree equal_regions region_meaning self.now.regions passes.regions }
        requires masks_free { IsFree equal_masks mask_meaning self.now.masks passes.masks }
        requires composites_free { IsFree equal_composites composite_meaning self.now.composites passes.composites }
        requires key { IsValidComposite (glyph_counts (arc_value self.now.fonts).fonts) key.now }
        ensures composed { IsComposed self.now (three passes) key.now (three result.0) result.1 }
        ensures holds { HoldsJustTheLease self.now (three passes) key.now (three result.0) result.1 }
        ensures home { IfOk result.1 (IsHomeLease composite_meaning self.now.composites) }
    {
        let Passes {
            regions,
            masks,
            composites,
        } = passes;
        let (composites, asked) = self.ask_composite(rt, alloc, &regions, &masks, composites, key);
        match asked {
            Asked::Hit(pin) => {
                let passes = Passes {
                    regions,
                    masks,
                    composites,
                };
                (passes, Ok(Lease::Pinned(pin)))
            }
            Asked::Make(duty) => {
                let (regions, masks, made) = self.make_composite(
                    rt, alloc, regions, masks, key, hook,
                );
                let (composites, had) = settle(&self.composites, rt, composites, duty, made);
                let passes = Passes {
                    regions,
                    masks,
                    composites,
                };
                (passes, had)
            }
            Asked::OutOfMemory => {
                let passes = Passes {
                    regions,
                    masks,
                    composites,
                };
                (passes, Err(OutOfMemory))
            }
        }
    }

    /// A lease of the key's composed mask. What isn't there is made: the call asks for the mask of each part in their
    /// order, for each missing mask its region, and for a missing widened region that of its outline. What the cache has
    /// no room for is made apart, and is the caller's own. Waits while another thread makes what it asks for; at most one
    /// making in each cache, of each of these four kinds, is under way in this call.
    pub fn composite<R: Wait, H: TestHook>(
        &self,
        rt: &R,
        alloc: Global,
        pass: CachesPass,
        key: &CompositeKey,
        hook: &H,
    ) -> (CachesPass, Mem<Lease<CompositeMade>>)
        requires pass { IsPassOf self.now pass }
        requires key { IsValidComposite (glyph_counts (arc_value self.now.fonts).fonts) key.now }
        ensures composed { IsComposed self.now (three_of pass) key.now (three_of result.0) result.1 }
        ensures value { IfOk result.1 (λ lease. lease_value lease ≡ composite_value (arc_value self.now.fonts).fonts key.now) }
        ensures holds { HoldsJustTheLease self.now (three_of pass) key.now (three_of result.0) result.1 }
        ensures pass { IsPassOf self.now result.0 }
        ensures held { IfOk result.1 (HoldsLease equal_composites composite_meaning self.now.composites result.0.composites) }
        ensures home { IfOk result.1 (IsHomeLease composite_meaning self.now.composites) }
    {
        let CachesPass {
            regions,
            masks,
            composites,
        } = pass;
        let passes = Passes {
            regions,
            masks,
            composites,
        };
        let (passes, had) = self.visit_composite(rt, alloc, passes, key, hook);
        let Passes {
            regions,
            masks,
            composites,
        } = passes;
        let pass = CachesPass {
            regions,
            masks,
            composites,
        };
        (pass, had)
    }
}

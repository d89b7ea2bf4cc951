//! Masks through their cache.
ghost use Rattle.std.specs.Prelude.{◌≡◌, true, IfOk, OnOk};
ghost use Rattle.std.specs.Arc.{arc_value};
ghost use Rattle.flight_cache.specs.Shards.{IsCacheOf};
ghost use Rattle.cache_kinds.specs.Kinds.{mask_meaning, region_meaning};
ghost use Rattle.mask_keys.specs.Equality.{equal_masks, equal_regions};
ghost use Rattle.mask_keys.specs.Keys.{IsValidMask, region_key};
ghost use Rattle.mask_keys.specs.Outlines.{glyph_counts};
ghost use Rattle.mask_keys.specs.Values.{mask_value};
ghost use Rattle.mask_caches.specs.Adding.{Adds, HoldsAsMuch, IsFree};
ghost use Rattle.mask_caches.specs.Courses.{HoldsTheLease, IsHadBy, has_value};
ghost use Rattle.mask_caches.specs.Visits.{IsMaskVisit, IsRegionVisit, MaskVisit, RegionVisit, mask_steps, region_use_steps, steps_of_its_region};
ghost use Rattle.mask_caches.specs.Leases.{IsHomeLease};

use crate::caches::Caches;
use crate::lease::{Lease, give_back};
use crate::lending::settle;
use ass_num::{Mask, Mem, OutOfMemory};
use cache_kinds::{MaskMade, RegionMade};
use flight_cache::{Asked, CachePass};
use made_values::mask_from;
use mask_keys::{MaskKey, region_key_of};
use std::alloc::Global;
use std::sync::{Arc, Wait};
use test_hook::{HookPoint, TestHook, ValueKind};

impl Caches {
    /// The mask of a key, from its region, which is had through the cache.
    fn make_mask<R: Wait, H: TestHook>(
        &self,
        rt: &R,
        alloc: Global,
        regions: CachePass<RegionMade>,
        key: &MaskKey,
        hook: &H,
    ) -> (CachePass<RegionMade>, Mem<Arc<Mask>>)
        requires pass { IsCacheOf self.now.regions regions }
        requires free { IsFree equal_regions region_meaning self.now.regions regions }
        requires key { IsValidMask (glyph_counts (arc_value self.now.fonts).fonts) key.now }
        ensures region { (visit : RegionVisit) × IsRegionVisit (region_key key.now) visit
            × Adds equal_regions region_meaning self.now.regions regions result.0 (region_use_steps self.now.regions.tag (region_key key.now) visit)
            × OnOk result.1 (has_value visit.course ≡ true) }
        ensures holds { HoldsAsMuch equal_regions region_meaning self.now.regions regions result.0 }
        ensures value { IfOk result.1 (λ a. arc_value a ≡ mask_value (arc_value self.now.fonts).fonts key.now) }
    {
        let Ok(region_key) = region_key_of(alloc, key) else {
            return (regions, Err(OutOfMemory));
        };
        let (regions, had) = self.region(rt, alloc, regions, &region_key, hook);
        match had {
            Ok(lease) => {
                hook.at(HookPoint::BeforeMake(ValueKind::Mask));
                let made = mask_from(alloc, lease.value(), key);
                (give_back(&self.regions, rt, regions, lease), made)
            }
            Err(refused) => (regions, Err(refused)),
        }
    }

    /// A mask, through the cache.
    pub(crate) fn mask<R: Wait, H: TestHook>(
        &self,
        rt: &R,
        alloc: Global,
        regions: CachePass<RegionMade>,
        masks: CachePass<MaskMade>,
        key: &MaskKey,
        hook: &H,
    ) -> (
        CachePass<RegionMade>,
        CachePass<MaskMade>,
        Mem<Lease<MaskMade>>,
    )
        requires regions { IsCacheOf self.now.regions regions }
        requires masks { IsCacheOf self.now.masks masks }
        requires regions_free { IsFree equal_regions region_meaning self.now.regions regions }
        requires masks_free { IsFree equal_masks mask_meaning self.now.masks masks }
        requires key { IsValidMask (glyph_counts (arc_value self.now.fonts).fonts) key.now }
        ensures visit { (visit : MaskVisit) × IsMaskVisit visit × (visit.key ≡ key.now)
            × Adds equal_regions region_meaning self.now.regions regions result.0 (steps_of_its_region self.now.regions.tag visit)
            × Adds equal_masks mask_meaning self.now.masks masks result.1 (mask_steps self.now.masks.tag visit)
            × IsHadBy mask_meaning self.now.masks.tag key.now visit.course result.2 }
        ensures regions { HoldsAsMuch equal_regions region_meaning self.now.regions regions result.0 }
        ensures holds { HoldsTheLease equal_masks mask_meaning self.now.masks masks result.1 result.2 }
        ensures home { IfOk result.2 (IsHomeLease mask_meaning self.now.masks) }
    {
        let (masks, asked) = self.ask_mask(rt, alloc, &regions, masks, key);
        match asked {
            Asked::Hit(pin) => (regions, masks, Ok(Lease::Pinned(pin))),
            Asked::Make(duty) => {
                let (regions, made) = self.make_mask(rt, alloc, regions, key, hook);
                let (masks, had) = settle(&self.masks, rt, masks, duty, made);
                (regions, masks, had)
            }
            Asked::OutOfMemory => (regions, masks, Err(OutOfMemory)),
        }
    }
}

//! Regions of outlines through their cache.
ghost use Rattle.std.specs.Prelude.{◌≡◌, true, false, [], IfOk, OnOk};
ghost use Rattle.std.specs.Arc.{arc_value};
ghost use Rattle.flight_cache.specs.Shards.{IsCacheOf};
ghost use Rattle.cache_kinds.specs.Kinds.{is_widened, region_meaning};
ghost use Rattle.mask_keys.specs.Equality.{equal_regions};
ghost use Rattle.mask_keys.specs.Keys.{IsValidRegion, unwidened};
ghost use Rattle.mask_keys.specs.Outlines.{glyph_counts};
ghost use Rattle.mask_keys.specs.Values.{region_value};
ghost use Rattle.mask_caches.specs.Adding.{Adds, HoldsAsMuch, IsFree};
ghost use Rattle.mask_caches.specs.Courses.{Course, HoldsTheLease, IsHadBy, course_steps, has_value, use_steps};
ghost use Rattle.mask_caches.specs.Visits.{HasWidenedOpen, IsRegionVisit, RegionVisit, region_steps};
ghost use Rattle.mask_caches.specs.Leases.{IsHomeLease};

use crate::caches::Caches;
use crate::lease::{Lease, give_back};
use crate::lending::settle;
use ass_num::{Mem, OutOfMemory, Region};
use cache_kinds::RegionMade;
use flight_cache::{Asked, CachePass};
use made_values::{border_from, made_outline};
use mask_keys::{RegionKey, unwidened};
use std::alloc::Global;
use std::sync::{Arc, Wait};
use test_hook::{HookPoint, TestHook, ValueKind};

/// Whether the region of a key is widened.
fn is_widened(key: &RegionKey) -> bool
    ensures { result ≡ is_widened key.now }
{
    !(key.rx == 0 && key.ry == 0)
}

impl Caches {
    /// The region of an outline that isn't widened.
    fn make_outline(&self, alloc: Global, key: &RegionKey) -> Mem<Arc<Region>>
        requires key { IsValidRegion (glyph_counts (arc_value self.now.fonts).fonts) key.now }
        requires outline { is_widened key.now ≡ false }
        ensures { IfOk result (λ a. arc_value a ≡ region_value (arc_value self.now.fonts).fonts key.now) }
    {
        let region = made_outline(alloc, &self.fonts, &key.outline)?;
        Ok(Arc::new(alloc, region)?)
    }

    /// The region of an outline that isn't widened, through the cache.
    fn outline<R: Wait, H: TestHook>(
        &self,
        rt: &R,
        alloc: Global,
        pass: CachePass<RegionMade>,
        key: &RegionKey,
        hook: &H,
    ) -> (CachePass<RegionMade>, Mem<Lease<RegionMade>>)
        requires pass { IsCacheOf self.now.regions pass }
        requires key { IsValidRegion (glyph_counts (arc_value self.now.fonts).fonts) key.now }
        requires outline { is_widened key.now ≡ false }
        requires free { HasWidenedOpen self.now.regions pass }
        ensures visit { (course : Course)
            × Adds equal_regions region_meaning self.now.regions pass result.0 (course_steps region_meaning self.now.regions.tag key.now course [])
            × IsHadBy region_meaning self.now.regions.tag key.now course result.1 }
        ensures holds { HoldsTheLease equal_regions region_meaning self.now.regions pass result.0 result.1 }
        ensures home { IfOk result.1 (IsHomeLease region_meaning self.now.regions) }
    {
        let (pass, asked) = self.ask_outline(rt, alloc, pass, key);
        match asked {
            Asked::Hit(pin) => (pass, Ok(Lease::Pinned(pin))),
            Asked::Make(duty) => {
                hook.at(HookPoint::BeforeMake(ValueKind::Outline));
                let made = self.make_outline(alloc, key);
                settle(&self.regions, rt, pass, duty, made)
            }
            Asked::OutOfMemory => (pass, Err(OutOfMemory)),
        }
    }

    /// The region of a key, widened from that of its outline, which is had through the cache.
    fn make_widened<R: Wait, H: TestHook>(
        &self,
        rt: &R,
        alloc: Global,
        pass: CachePass<RegionMade>,
        key: &RegionKey,
        hook: &H,
    ) -> (CachePass<RegionMade>, Mem<Arc<Region>>)
        requires pass { IsCacheOf self.now.regions pass }
        requires key { IsValidRegion (glyph_counts (arc_value self.now.fonts).fonts) key.now }
        requires free { HasWidenedOpen self.now.regions pass }
        ensures outline { (course : Course)
            × Adds equal_regions region_meaning self.now.regions pass result.0 (use_steps region_meaning self.now.regions.tag (unwidened key.now) course [])
            × OnOk result.1 (has_value course ≡ true) }
        ensures holds { HoldsAsMuch equal_regions region_meaning self.now.regions pass result.0 }
        ensures value { IfOk result.1 (λ a. arc_value a ≡ region_value (arc_value self.now.fonts).fonts key.now) }
    {
        let Ok(outline) = unwidened(alloc, key) else {
            return (pass, Err(OutOfMemory));
        };
        let (pass, had) = self.outline(rt, alloc, pass, &outline, hook);
        match had {
            Ok(lease) => {
                hook.at(HookPoint::BeforeMake(ValueKind::Outline));
                let made = border_from(alloc, lease.value(), key);
                (give_back(&self.regions, rt, pass, lease), made)
            }
            Err(refused) => (pass, Err(refused)),
        }
    }

    /// A widened region, through the cache.
    fn widened<R: Wait, H: TestHook>(
        &self,
        rt: &R,
        alloc: Global,
        pass: CachePass<RegionMade>,
        key: &RegionKey,
        hook: &H,
    ) -> (CachePass<RegionMade>, Mem<Lease<RegionMade>>)
        requires pass { IsCacheOf self.now.regions pass }
        requires key { IsValidRegion (glyph_counts (arc_value self.now.fonts).fonts) key.now }
        requires widened { is_widened key.now ≡ true }
        requires free { IsFree equal_regions region_meaning self.now.regions pass }
        ensures visit { (visit : RegionVisit) × IsRegionVisit key.now visit
            × Adds equal_regions region_meaning self.now.regions pass result.0 (region_steps self.now.regions.tag key.now visit)
            × IsHadBy region_meaning self.now.regions.tag key.now visit.course result.1 }
        ensures holds { HoldsTheLease equal_regions region_meaning self.now.regions pass result.0 result.1 }
        ensures home { IfOk result.1 (IsHomeLease region_meaning self.now.regions) }
    {
        let (pass, asked) = self.ask_region(rt, alloc, pass, key);
        match asked {
            Asked::Hit(pin) => (pass, Ok(Lease::Pinned(pin))),
            Asked::Make(duty) => {
                let (pass, made) = self.make_widened(rt, alloc, pass, key, hook);
                settle(&self.regions, rt, pass, duty, made)
            }
            Asked::OutOfMemory => (pass, Err(OutOfMemory)),
        }
    }

    /// A region, widened or not, through the cache.
    pub(crate) fn region<R: Wait, H: TestHook>(
        &self,
        rt: &R,
        alloc: Global,
        pass: CachePass<RegionMade>,
        key: &RegionKey,
        hook: &H,
    ) -> (CachePass<RegionMade>, Mem<Lease<RegionMade>>)
        requires pass { IsCacheOf self.now.regions pass }
        requires key { IsValidRegion (glyph_counts (arc_value self.now.fonts).fonts) key.now }
        requires free { IsFree equal_regions region_meaning self.now.regions pass }
        ensures visit { (visit : RegionVisit) × IsRegionVisit key.now visit
            × Adds equal_regions region_meaning self.now.regions pass result.0 (region_steps self.now.regions.tag key.now visit)
            × IsHadBy region_meaning self.now.regions.tag key.now visit.course result.1 }
        ensures holds { HoldsTheLease equal_regions region_meaning self.now.regions pass result.0 result.1 }
        ensures home { IfOk result.1 (IsHomeLease region_meaning self.now.regions) }
    {
        if is_widened(key) {
            self.widened(rt, alloc, pass, key, hook)
        } else {
            self.outline(rt, alloc, pass, key, hook)
        }
    }
}

//! The parts of every visit of a cache: the ask, what is done with what was made, and giving back.
ghost use Rattle.std.specs.Prelude.{◌≡◌, ◌≤◌, ◌∷◌, [], true, false, IfOk, IfSome};
ghost use Rattle.std.specs.Arc.{arc_value};
ghost use Rattle.evict_core.specs.Machine.{Fail, max_cost};
ghost use Rattle.flight_cache.specs.Shards.{HasLowerOpen, IsCacheOf, IsHome};
ghost use Rattle.cache_kinds.specs.Kinds.{composite_meaning, is_widened, mask_meaning, region_meaning};
ghost use Rattle.mask_keys.specs.Equality.{equal_composites, equal_masks, equal_regions};
ghost use Rattle.mask_caches.specs.Adding.{Adds, IsFree, is_open};
ghost use Rattle.mask_caches.specs.Visits.{HasWidenedOpen};
ghost use Rattle.mask_caches.specs.Courses.{IsFilledLease, IsForKey, IsNewClaim, IsOwnOf, IsSettled, IsSettledTicket};
ghost use Rattle.mask_caches.specs.Courses.{asked_steps, settled_steps, IsHomeAsked, IsHomeDuty, IsOfFill, IsUnaskedBy, filled_steps};
ghost use Rattle.mask_caches.specs.Leases.{IsHomeLease};

use crate::caches::Caches;
use crate::lease::Lease;
use ass_num::{Mem, OutOfMemory};
use cache_kinds::{CompositeMade, MaskMade, RegionMade};
use flight_cache::{Asked, Cache, CachePass, Made, Ticket};
use mask_keys::{CompositeKey, MaskKey, RegionKey};
use std::alloc::Global;
use std::sync::{Arc, Wait};

/// Asks for the key, and waits while its value is being made.
fn ask<M: Made, R: Wait>(
    cache: &Cache<M>,
    rt: &R,
    alloc: Global,
    pass: CachePass<M>,
    key: &M::Key,
) -> (CachePass<M>, Asked<M>)
    requires cell { IsCacheOf cache.now pass }
    requires order { HasLowerOpen M.Key.eq M.meaning cache.now pass key.now }
    ensures steps { Adds M.Key.eq M.meaning cache.now pass result.0 (asked_steps M.meaning cache.now.tag key.now result.1) }
    ensures asked { IsForKey M.meaning cache.now.tag key.now result.1 }
    ensures new { IsNewClaim M.meaning cache.now.tag M.Key.eq cache.now pass result.1 }
    ensures home { IsHomeAsked M.meaning cache.now result.1 }
    ensures short { IsUnaskedBy M.Key.eq M.meaning cache.now pass key.now result.0 result.1 }
{
    cache.ask(rt, alloc, pass, key)
}

impl Caches {
    /// Asks for a composed mask, and waits while it is being made. Who waits has no claim open, of whatever kind.
    pub(crate) fn ask_composite<R: Wait>(
        &self,
        rt: &R,
        alloc: Global,
        regions: &CachePass<RegionMade>,
        masks: &CachePass<MaskMade>,
        composites: CachePass<CompositeMade>,
        key: &CompositeKey,
    ) -> (CachePass<CompositeMade>, Asked<CompositeMade>)
        requires cell { IsCacheOf self.now.composites composites }
        requires regions_free { IsFree equal_regions region_meaning self.now.regions regions.now }
        requires masks_free { IsFree equal_masks mask_meaning self.now.masks masks.now }
        requires composites_free { IsFree equal_composites composite_meaning self.now.composites composites }
        ensures steps { Adds equal_composites composite_meaning self.now.composites composites result.0
            (asked_steps composite_meaning self.now.composites.tag key.now result.1) }
        ensures asked { IsForKey composite_meaning self.now.composites.tag key.now result.1 }
        ensures new { IsNewClaim composite_meaning self.now.composites.tag equal_composites self.now.composites composites result.1 }
        ensures home { IsHomeAsked composite_meaning self.now.composites result.1 }
        ensures short { IsUnaskedBy equal_composites composite_meaning self.now.composites composites key.now result.0 result.1 }
    {
        let _ = regions;
        let _ = masks;
        ask(&self.composites, rt, alloc, composites, key)
    }

    /// Asks for a mask, and waits while it is being made. Who waits has no claim open of a mask or of a region.
    pub(crate) fn ask_mask<R: Wait>(
        &self,
        rt: &R,
        alloc: Global,
        regions: &CachePass<RegionMade>,
        masks: CachePass<MaskMade>,
        key: &MaskKey,
    ) -> (CachePass<MaskMade>, Asked<MaskMade>)
        requires cell { IsCacheOf self.now.masks masks }
        requires regions_free { IsFree equal_regions region_meaning self.now.regions regions.now }
        requires masks_free { IsFree equal_masks mask_meaning self.now.masks masks }
        ensures steps { Adds equal_masks mask_meaning self.now.masks masks result.0 (asked_steps mask_meaning self.now.masks.tag key.now result.1) }
        ensures asked { IsForKey mask_meaning self.now.masks.tag key.now result.1 }
        ensures new { IsNewClaim mask_meaning self.now.masks.tag equal_masks self.now.masks masks result.1 }
        ensures home { IsHomeAsked mask_meaning self.now.masks result.1 }
    {
        let _ = regions;
        ask(&self.masks, rt, alloc, masks, key)
    }

    /// Asks for a region, and waits while it is being made. Who waits has no claim open of a region.
    pub(crate) fn ask_region<R: Wait>(
        &self,
        rt: &R,
        alloc: Global,
        pass: CachePass<RegionMade>,
        key: &RegionKey,
    ) -> (CachePass<RegionMade>, Asked<RegionMade>)
        requires cell { IsCacheOf self.now.regions pass }
        requires free { IsFree equal_regions region_meaning self.now.regions pass }
        ensures steps { Adds equal_regions region_meaning self.now.regions pass result.0 (asked_steps region_meaning self.now.regions.tag key.now result.1) }
        ensures asked { IsForKey region_meaning self.now.regions.tag key.now result.1 }
        ensures new { IsNewClaim region_meaning self.now.regions.tag equal_regions self.now.regions pass result.1 }
        ensures home { IsHomeAsked region_meaning self.now.regions result.1 }
    {
        ask(&self.regions, rt, alloc, pass, key)
    }

    /// Asks for the region of an outline that isn't widened, and waits while it is being made. Who waits may have claims of
    /// widened regions open: who waits for one of these makes no outline.
    pub(crate) fn ask_outline<R: Wait>(
        &self,
        rt: &R,
        alloc: Global,
        pass: CachePass<RegionMade>,
        key: &RegionKey,
    ) -> (CachePass<RegionMade>, Asked<RegionMade>)
        requires cell { IsCacheOf self.now.regions pass }
        requires outline { is_widened key.now ≡ false }
        requires free { HasWidenedOpen self.now.regions pass }
        ensures steps { Adds equal_regions region_meaning self.now.regions pass result.0 (asked_steps region_meaning self.now.regions.tag key.now result.1) }
        ensures asked { IsForKey region_meaning self.now.regions.tag key.now result.1 }
        ensures new { IsNewClaim region_meaning self.now.regions.tag equal_regions self.now.regions pass result.1 }
        ensures home { IsHomeAsked region_meaning self.now.regions result.1 }
    {
        ask(&self.regions, rt, alloc, pass, key)
    }
}

/// The value of a ticket's key is filled and pinned, or the caller's own where a hard limit has no room for it.
fn fill_with<M: Made, R: Wait>(
    cache: &Cache<M>,
    rt: &R,
    pass: CachePass<M>,
    ticket: Ticket<M>,
    kept: Arc<M::Value>,
    pinned: Arc<M::Value>,
) -> (CachePass<M>, Lease<M>)
    requires cell { IsCacheOf cache.now pass }
    requires own { IsHome M.meaning cache.now ticket.key ticket.cell }
    requires claimed { is_open M.Key.eq M.meaning cache.now pass ticket.key ≡ true }
    requires kept { arc_value kept ≡ M.meaning.made cache.now.tag ticket.key }
    requires pinned { arc_value pinned ≡ M.meaning.made cache.now.tag ticket.key }
    requires cost { M.meaning.cost (arc_value kept) ≤ max_cost }
    ensures steps { Adds M.Key.eq M.meaning cache.now pass result.0 (filled_steps M.meaning cache.now.tag ticket.key result.1) }
    ensures filled { IsOfFill M.meaning cache.now.tag ticket.key result.1 }
    ensures home { IsHomeLease M.meaning cache.now result.1 }
{
    let (pass, filled) = cache.fill(rt, pass, ticket, kept, pinned);
    match filled {
        Ok(pin) => (pass, Lease::Pinned(pin)),
        Err(value) => (pass, Lease::Own(value)),
    }
}

/// The value of a ticket's key is filled and pinned, or the caller's own where a hard limit has no room for it; the ticket fails
/// where it finds no second owner.
fn fill<M: Made, R: Wait>(
    cache: &Cache<M>,
    rt: &R,
    pass: CachePass<M>,
    ticket: Ticket<M>,
    kept: Arc<M::Value>,
) -> (CachePass<M>, Mem<Lease<M>>)
    requires cell { IsCacheOf cache.now pass }
    requires own { IsHome M.meaning cache.now ticket.key ticket.cell }
    requires claimed { is_open M.Key.eq M.meaning cache.now pass ticket.key ≡ true }
    requires value { arc_value kept ≡ M.meaning.made cache.now.tag ticket.key }
    requires cost { M.meaning.cost (arc_value kept) ≤ max_cost }
    ensures steps { Adds M.Key.eq M.meaning cache.now pass result.0 (settled_steps M.meaning cache.now.tag (Some ticket) result.1) }
    ensures settled { IsFilledLease M.meaning cache.now.tag ticket.key result.1 }
    ensures home { IfOk result.1 (IsHomeLease M.meaning cache.now) }
{
    match Arc::try_clone(&kept) {
        Ok(pinned) => {
            let (pass, lease) = fill_with(cache, rt, pass, ticket, kept, pinned);
            (pass, Ok(lease))
        }
        Err(_) => {
            let pass = cache.fail(rt, pass, ticket);
            (pass, Err(OutOfMemory))
        }
    }
}

/// The ticket fails, since its value wasn't made.
fn fail<M: Made, R: Wait>(
    cache: &Cache<M>,
    rt: &R,
    pass: CachePass<M>,
    ticket: Ticket<M>,
) -> CachePass<M>
    requires cell { IsCacheOf cache.now pass }
    requires own { IsHome M.meaning cache.now ticket.key ticket.cell }
    requires claimed { is_open M.Key.eq M.meaning cache.now pass ticket.key ≡ true }
    ensures { Adds M.Key.eq M.meaning cache.now pass result (Fail ticket.key ∷ []) }
{
    cache.fail(rt, pass, ticket)
}

/// What was made for a ticket is filled and pinned, or the caller's own where a hard limit has no room for it; the ticket fails
/// where nothing was made.
fn settle_ticket<M: Made, R: Wait>(
    cache: &Cache<M>,
    rt: &R,
    pass: CachePass<M>,
    ticket: Ticket<M>,
    made: Mem<Arc<M::Value>>,
) -> (CachePass<M>, Mem<Lease<M>>)
    requires cell { IsCacheOf cache.now pass }
    requires own { IsHome M.meaning cache.now ticket.key ticket.cell }
    requires claimed { is_open M.Key.eq M.meaning cache.now pass ticket.key ≡ true }
    requires value { IfOk made (λ a. arc_value a ≡ M.meaning.made cache.now.tag ticket.key) }
    requires cost { IfOk made (λ a. M.meaning.cost (arc_value a) ≤ max_cost) }
    ensures steps { Adds M.Key.eq M.meaning cache.now pass result.0 (settled_steps M.meaning cache.now.tag (Some ticket) result.1) }
    ensures settled { IsSettledTicket M.meaning cache.now.tag ticket.key made result.1 }
    ensures home { IfOk result.1 (IsHomeLease M.meaning cache.now) }
{
    match made {
        Ok(value) => fill(cache, rt, pass, ticket, value),
        Err(refused) => {
            let pass = fail(cache, rt, pass, ticket);
            (pass, Err(refused))
        }
    }
}

/// What was made apart is the caller's own.
fn own<M: Made>(made: Mem<Arc<M::Value>>) -> Mem<Lease<M>>
    ensures { IsOwnOf made result }
{
    match made {
        Ok(value) => Ok(Lease::Own(value)),
        Err(refused) => Err(refused),
    }
}

/// What was made is filled and pinned, where there is a ticket and a hard limit has room; else it is the caller's own. A ticket
/// fails where nothing was made.
pub(crate) fn settle<M: Made, R: Wait>(
    cache: &Cache<M>,
    rt: &R,
    pass: CachePass<M>,
    duty: Option<Ticket<M>>,
    made: Mem<Arc<M::Value>>,
) -> (CachePass<M>, Mem<Lease<M>>)
    requires cell { IsCacheOf cache.now pass }
    requires own { IsHomeDuty M.meaning cache.now duty }
    requires claimed { IfSome duty (λ t. is_open M.Key.eq M.meaning cache.now pass t.key ≡ true) }
    requires value { IfSome duty (λ t. IfOk made (λ a. arc_value a ≡ M.meaning.made cache.now.tag t.key)) }
    requires cost { IfOk made (λ a. M.meaning.cost (arc_value a) ≤ max_cost) }
    ensures steps { Adds M.Key.eq M.meaning cache.now pass result.0 (settled_steps M.meaning cache.now.tag duty result.1) }
    ensures settled { IsSettled M.meaning cache.now.tag duty made result.1 }
    ensures home { IfOk result.1 (IsHomeLease M.meaning cache.now) }
{
    match duty {
        Some(ticket) => settle_ticket(cache, rt, pass, ticket, made),
        None => (pass, own(made)),
    }
}

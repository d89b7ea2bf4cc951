//! Warming the caches.
ghost use Rattle.std.specs.Prelude.{◌≡◌, ℕ, ◌+◌, ◌<◌, ◌≤◌, ◌∷◌, [], true, false, length, drop, take, IfOk, OnErr, OnOk, All};
ghost use Rattle.std.specs.Arc.{arc_value};
ghost use Rattle.mask_keys.specs.Keys.{IsValidComposite};
ghost use Rattle.mask_keys.specs.Outlines.{glyph_counts};
ghost use Rattle.mask_caches.specs.Caches.{HoldsAsBefore, IsPassOf};
ghost use Rattle.mask_caches.specs.Courses.{has_value};
ghost use Rattle.mask_caches.specs.Visits.{CompositeVisit, IsCompositeVisit};
ghost use Rattle.mask_caches.specs.Aheads.{next_count, next_keys};
ghost use Rattle.mask_caches.specs.Keeping.{is_unkept, unkept_in, unkept_then};
ghost use Rattle.mask_caches.specs.Warming.{AddsWarming, AreWarmed};

use crate::ahead::Ahead;
use crate::{Caches, CachesPass};
use ass_num::{Mem, OutOfMemory};
use cache_kinds::CompositeMade;
use flight_cache::Budgets;
use mask_keys::CompositeKey;
use std::alloc::Global;
use std::sync::Wait;
use test_hook::TestHook;

/// How many keys were prefetched, and the place among them of the first whose composed mask can't be kept: it costs more than
/// its shard's budget, so it is evicted as soon as no pin holds it.
#[derive(Clone, Copy, Debug, PartialEq, Eq)]
pub struct Prefetched {
    pub count: usize,
    pub unkept: Option<usize>,
}

/// The first place that can't be kept, once one more was seen.
fn first_unkept(unkept: Option<usize>, place: usize, is_unkept: bool) -> Option<usize>
    ensures { result ≡ unkept_then unkept place is_unkept }
{
    match unkept {
        Some(first) => Some(first),
        None => { if is_unkept { Some(place) } else { None } }
    }
}

/// Asks for the composed mask of a key, and gives its lease back. Answers whether the mask can't be kept.
fn warm_key<R: Wait, H: TestHook>(
    rt: &R,
    alloc: Global,
    caches: &Caches,
    pass: CachesPass,
    key: &CompositeKey,
    budgets: &Budgets,
    hook: &H,
) -> (CachesPass, Mem<bool>)
    requires pass { IsPassOf caches.now pass }
    requires key { IsValidComposite (glyph_counts (arc_value caches.now.fonts).fonts) key.now }
    ensures pass { IsPassOf caches.now result.0 }
    ensures visit { (visit : CompositeVisit) × IsCompositeVisit key.now visit
        × AddsWarming caches.now pass result.0 (record { key = key.now; visit = visit } ∷ [])
        × OnOk result.1 (has_value visit.course ≡ true) × OnErr result.1 (has_value visit.course ≡ false) }
    ensures unkept { IfOk result.1 (λ unkept. unkept ≡ is_unkept caches.now.composites.tag budgets.now key.now) }
    ensures holds { HoldsAsBefore caches.now pass result.0 }
{
    let (pass, had) = caches.composite(rt, alloc, pass, key, hook);
    match had {
        Ok(lease) => {
            let may_keep = budgets.may_keep::<CompositeMade>(key, lease.value());
            let pass = caches.give_back(rt, pass, lease);
            (pass, Ok(!may_keep))
        }
        Err(refused) => (pass, Err(refused)),
    }
}

/// Warms keys in their order, until memory runs out. Answers how many it warmed, and which can't be kept.
fn warm_keys<R: Wait, H: TestHook>(
    rt: &R,
    alloc: Global,
    caches: &Caches,
    pass: CachesPass,
    keys: &[CompositeKey],
    budgets: &Budgets,
    hook: &H,
) -> (CachesPass, Prefetched)
    requires pass { IsPassOf caches.now pass }
    requires keys { All (IsValidComposite (glyph_counts (arc_value caches.now.fonts).fonts)) keys.now }
    ensures pass { IsPassOf caches.now result.0 }
    ensures warmed { AreWarmed caches.now pass keys.now result.0 result.1.count }
    ensures unkept { result.1.unkept ≡ unkept_in caches.now.composites.tag budgets.now (take result.1.count keys.now) }
    ensures holds { HoldsAsBefore caches.now pass result.0 }
    ensures within { result.1.count ≤ length keys.now }
{
    let mut pass = pass;
    let mut count = 0;
    let mut unkept = None;
    for key in keys {
        let (next, had) = warm_key(rt, alloc, caches, pass, key, budgets, hook);
        pass = next;
        match had {
            Ok(is_unkept) => {
                unkept = first_unkept(unkept, count, is_unkept);
                count += 1;
            }
            Err(_) => return (pass, Prefetched { count, unkept }),
        }
    }
    (pass, Prefetched { count, unkept })
}

/// Warms so many keys from a place on.
fn warm_from<R: Wait, H: TestHook>(
    rt: &R,
    alloc: Global,
    caches: &Caches,
    pass: CachesPass,
    keys: &[CompositeKey],
    place: usize,
    count: usize,
    budgets: &Budgets,
    hook: &H,
) -> (CachesPass, Prefetched)
    requires pass { IsPassOf caches.now pass }
    requires keys { All (IsValidComposite (glyph_counts (arc_value caches.now.fonts).fonts)) keys.now }
    requires there { place + count ≤ length keys.now }
    ensures pass { IsPassOf caches.now result.0 }
    ensures warmed { AreWarmed caches.now pass (take count (drop place keys.now)) result.0 result.1.count }
    ensures unkept { result.1.unkept ≡ unkept_in caches.now.composites.tag budgets.now (take result.1.count (take count (drop place keys.now))) }
    ensures holds { HoldsAsBefore caches.now pass result.0 }
    ensures within { result.1.count ≤ count }
{
    let (_, later) = keys.split_at(place);
    let (next, _) = later.split_at(count);
    warm_keys(rt, alloc, caches, pass, next, budgets, hook)
}

impl Ahead {
    /// Warms the next keys, at most so many: asks for each one's composed mask, which is made where it isn't there, and
    /// gives the lease back. Answers how many it warmed, which is all that it was to, and which of these is the first that
    /// can't be kept by these budgets. Where memory runs out the key that was refused is the next one.
    pub fn warm<R: Wait, H: TestHook>(
        &mut self,
        rt: &R,
        alloc: Global,
        caches: &Caches,
        pass: CachesPass,
        most: usize,
        budgets: &Budgets,
        hook: &H,
    ) -> (CachesPass, Mem<Prefetched>)
        requires pass { IsPassOf caches.now pass }
        requires keys { All (IsValidComposite (glyph_counts (arc_value caches.now.fonts).fonts)) self.old.keys }
        ensures pass { IsPassOf caches.now result.0 }
        ensures keys { self.new.keys ≡ self.old.keys }
        ensures count { IfOk result.1 (λ w. (w.count ≡ next_count most self.old) × (self.new.place ≡ self.old.place + w.count)) }
        ensures unkept { IfOk result.1 (λ w. w.unkept ≡ unkept_in caches.now.composites.tag budgets.now (next_keys most self.old)) }
        ensures refused { OnErr result.1 (self.new.place < self.old.place + next_count most self.old) }
        ensures warmed { (n : ℕ) × (self.new.place ≡ self.old.place + n) × AreWarmed caches.now pass (next_keys most self.old) result.0 n }
        ensures holds { HoldsAsBefore caches.now pass result.0 }
    {
        let count = most.min(self.left());
        let keys = self.keys.as_slice();
        let (pass, warmed) = warm_from(
            rt, alloc, caches, pass, keys, self.place, count, budgets, hook,
        );
        self.place += warmed.count;
        if warmed.count < count {
            return (pass, Err(OutOfMemory));
        }
        (pass, Ok(warmed))
    }
}

//! The entries of a cache of one thread.
ghost use Rattle.std.specs.Prelude.{◌≡◌, ◌≤◌, None, IfOk, OnOk, OnErr, IfSome, IfNone, option_map};
ghost use Rattle.std.specs.Arc.{arc_value};
ghost use Rattle.evict_core.specs.Machine.{Limits, max_budget, max_cost, max_entries, state_after, status_of};
ghost use Rattle.evict_core.specs.History.{opening};
ghost use Rattle.evict_core.specs.Asked.{ready_value};
ghost use Rattle.flight_cache.specs.Meaning.{entry_cost};
ghost use Rattle.local_caches.specs.Keeping.{IsAtRest, after_find, after_keep, with_fill};
ghost use Rattle.cache_kinds.specs.Limits.{entry_limit};

use ass_num::{Mem, OutOfMemory};
use cache_kinds::entry_limit;
use evict_core::{Ask, Entries, Freed};
use flight_cache::{Made, entry_cost};
use std::alloc::Global;
use std::marker::Model;
use std::snapshot::Snapshot;
use std::sync::Arc;

/// Who claims: nobody else could.
const OWN_NUMBER: u32 = 0;

/// Values of keys, for one thread. A value is shared and not lent, so it outlives its entry, and no pin outlives the call
/// that took it.
#[derive(Drop)]
pub struct LocalCache<M: Made> {
    tag: Snapshot<M::Tag>,
    entries: Entries<M::Key, M::Value>,
}

impl<M: Made> Model for LocalCache<M> {
    ghost use Rattle.local_caches.specs.Keeping.{LocalCacheView, IsAtRest};
    ghost use Rattle.local_caches.specs.Codes.{cache_code};
    ghost use Rattle.flight_cache.specs.Meaning.{entry_cost};

    ghost Value = { LocalCacheView M.Key M.Value M.Tag };

    ghost coded = { cache_code M.Key.code M.Value.code M.Tag.code };

    ghost view = { λ c. record { tag = c.tag.value; entries = c.entries } };

    ghost invariant = { λ c. IsAtRest M.Key.eq (M.meaning.made c.tag.value) (entry_cost M.meaning) c.entries };
}

impl<M: Made> LocalCache<M> {
    /// No entries, with a budget of at most 2^40 and the limit of entries that goes with it: one for each 1,024, from 16
    /// to 65,536.
    pub fn open(alloc: Global, tag: &M::Tag, budget: u64) -> Mem<LocalCache<M>>
        requires { budget ≤ max_budget }
        ensures tag { IfOk result (λ c. c.tag ≡ tag.now) }
        ensures entries { IfOk result (λ c. c.entries ≡ opening (entry_limit budget) budget) }
    {
        let entries = Entries::open(alloc, entry_limit(budget), budget)?;
        Ok(LocalCache {
            tag: Snapshot::of(tag),
            entries,
        })
    }

    /// The value of the key where it is here; its entry is the most recent then. `None` where it isn't, and nothing changes.
    pub fn find(&mut self, key: &M::Key) -> Mem<Option<Arc<M::Value>>>
        ensures here { IfOk result (λ o. option_map arc_value o ≡ ready_value (status_of M.Key.eq self.old.entries key.now)) }
        ensures absent { IfOk result (λ o. IfNone o (status_of M.Key.eq self.old.entries key.now ≡ None)) }
        ensures value { IfOk result (λ o. IfSome o (λ v. arc_value v ≡ M.meaning.made self.old.tag key.now)) }
        ensures entries { IfOk result (λ o. self.new.entries ≡ after_find M.Key.eq self.old.entries key.now o) }
        ensures tag { self.new.tag ≡ self.old.tag }
        ensures budget { self.new.entries.budget ≡ self.old.entries.budget }
        ensures err { OnErr result (self.new ≡ self.old) }
    {
        match self.entries.ask(key) {
            Ask::Hit(value) => {
                let mut freed = Freed::few();
                self.entries.unpin(key, &mut freed);
                drop(freed);
                Ok(Some(value))
            }
            Ask::Claimable => Ok(None),
            Ask::Flying(_) => Ok(None),
            Ask::Crowded => Ok(None),
            Ask::OutOfMemory => Err(OutOfMemory),
        }
    }

    /// Keeps the value of a key, and gives it back. Where the key is here already its entry stays, and is the most recent
    /// then. Other entries go as the limits want, and so does this one where the budget hasn't room for it.
    pub fn keep(&mut self, alloc: Global, key: &M::Key, value: Arc<M::Value>) -> Mem<Arc<M::Value>>
        requires value { arc_value value ≡ M.meaning.made self.old.tag key.now }
        requires cost { M.meaning.cost (arc_value value) ≤ max_cost }
        ensures value { IfOk result (λ v. arc_value v ≡ M.meaning.made self.old.tag key.now) }
        ensures entries { OnOk result (self.new.entries
            ≡ after_keep M.Key.eq self.old.entries key.now (entry_cost M.meaning key.now (arc_value value)) (arc_value value) (status_of M.Key.eq self.old.entries key.now)) }
        ensures tag { self.new.tag ≡ self.old.tag }
        ensures budget { self.new.entries.budget ≡ self.old.entries.budget }
        ensures err { OnErr result (self.new ≡ self.old) }
    {
        match self.find(key)? {
            Some(here) => Ok(here),
            None => self.put(alloc, key, value),
        }
    }

    /// A new budget, and the limit of entries that goes with it; then as few entries are evicted as they want.
    pub fn set_budget(&mut self, budget: u64)
        requires { budget ≤ max_budget }
        ensures entries { self.new.entries ≡ state_after M.Key.eq self.old.entries 0 (Limits (entry_limit budget) budget) }
        ensures tag { self.new.tag ≡ self.old.tag }
        ensures budget { self.new.entries.budget ≡ budget }
    {
        let mut freed = Freed::few();
        self.entries
            .set_limits(entry_limit(budget), budget, &mut freed);
        drop(freed);
    }

    /// The entries are at rest between calls.
    pub fn proof_at_rest(&self)
        ensures { IsAtRest M.Key.eq (M.meaning.made self.now.tag) (entry_cost M.meaning) self.now.entries }
    {
        let _ = &self.entries;
    }

    /// Keeps the value of a key that isn't here.
    fn put(&mut self, alloc: Global, key: &M::Key, value: Arc<M::Value>) -> Mem<Arc<M::Value>>
        requires absent { status_of M.Key.eq self.old.entries key.now ≡ None }
        requires value { arc_value value ≡ M.meaning.made self.old.tag key.now }
        requires cost { M.meaning.cost (arc_value value) ≤ max_cost }
        ensures value { IfOk result (λ v. arc_value v ≡ M.meaning.made self.old.tag key.now) }
        ensures entries { OnOk result (self.new.entries ≡ with_fill M.Key.eq self.old.entries key.now (entry_cost M.meaning key.now (arc_value value)) (arc_value value)) }
        ensures tag { self.new.tag ≡ self.old.tag }
        ensures budget { self.new.entries.budget ≡ self.old.entries.budget }
        ensures err { OnErr result (self.new ≡ self.old) }
    {
        let copy = M::copy(alloc, key)?;
        let kept = Arc::try_clone(&value)?;
        let cost = entry_cost::<M>(key, &kept);
        let mut freed = Freed::few();
        self.entries.claim(copy, OWN_NUMBER, &mut freed)?;
        self.entries.fill(key, kept, cost);
        self.entries.unpin(key, &mut freed);
        drop(freed);
        Ok(value)
    }
}

//! A list of keys with what is known of each, the most recently used first. Every call takes O(1) expected; `evict` also passes the
//! entries that it may not take.
ghost use Rattle.std.specs.Prelude.{◌≡◌, ℕ, ◌+◌, ◌<◌, ◌≤◌, true, false, nat_eq, length, [], ◌∷◌, None, option_map, IfOk, OnOk, OnErr, IfSome, IfNone};
ghost use Rattle.std.specs.Map.{lookup, remove_entry};
ghost use Rattle.std.specs.Arc.{arc_value};
ghost use Rattle.evict_core.specs.Recency.{to_front, change, some_passes, without_last};
ghost use Rattle.evict_core.specs.Machine.{Flying, Ready, max_pins, is_idle, has_idle, unpinned, pins_in, one_pin_more, one_pin_less};
ghost use Rattle.evict_core.specs.Looks.{IsLookAt, after_look};
ghost use Rattle.evict_core.specs.Sums.{IsIdleAt, IsBusyAt};
ghost use Rattle.evict_core.specs.Places.{stored_status, entries_in, is_idle_place, IsTied, IsOldestIdle};

use crate::freed::Freed;
use crate::look::Look;
use crate::stored::Stored;
use indexmap::IndexMap;
use lru::LruCache;
use std::alloc::{AllocError, Global};
use std::hash::Hash;
use std::marker::Model;
use std::sync::Arc;

/// What the list has at a number: where its key stands in the map, and what is known of it.
#[derive(Drop)]
pub struct Slot<V> {
    index: usize,
    stored: Stored<V>,
}

/// The keys are in a map, which gives each a number that is never given again. The list has the numbers in their order.
#[derive(Drop)]
pub struct Recency<K: Eq + Hash, V> {
    keys: IndexMap<K, u64>,
    order: LruCache<u64, Slot<V>>,
    next: u64,
}

impl<K: Eq + Hash, V> Model for Recency<K, V> {
    ghost use Rattle.std.specs.Prelude.{List};
    ghost use Rattle.evict_core.specs.Machine.{Status};
    ghost use Rattle.evict_core.specs.Codes.{status_code};
    ghost use Rattle.std.specs.Coded.{coded×, coded_list};

    ghost Value = { List (K × Status V) };

    ghost coded = { coded_list (coded× K.code (status_code V.code)) };

    ghost use Rattle.evict_core.specs.Places.{entries_in, IsTied};

    ghost view = { λ r. entries_in r.keys.entries r.order.entries };

    ghost invariant = { λ r. IsTied K.eq r.keys.entries r.order.entries r.order.cap r.next };
}

impl<K: Eq + Hash, V> Recency<K, V> {
    /// An empty list.
    pub fn new(alloc: Global) -> Result<Self, AllocError>
        ensures { IfOk result (λ r. r ≡ []) }
    {
        let order = LruCache::unbounded(alloc)?;
        Ok(Recency {
            keys: IndexMap::new(alloc),
            order,
            next: 0,
        })
    }

    /// How many entries there are.
    pub fn len(&self) -> usize
        ensures { result ≡ length self.now }
    {
        self.order.len()
    }

    /// What is known of the key.
    pub fn get(&self, key: &K) -> Option<&Stored<V>>
        ensures { option_map (λ s. stored_status s.now) result ≡ lookup (K.eq key.now) self.now }
    {
        let number = *self.keys.get(key)?;
        let place = self.order.peek(&number)?;
        Some(&place.stored)
    }

    /// What the key costs, where it may be evicted.
    pub fn idle_cost(&self, key: &K) -> Option<u64>
        ensures some { IfSome result (λ cost. IsIdleAt (lookup (K.eq key.now) self.now) cost) }
        ensures none { IfNone result (IsBusyAt (lookup (K.eq key.now) self.now)) }
    {
        match self.get(key) {
            Some(stored) => stored.idle_cost(),
            None => None,
        }
    }

    /// One pin more on the key, which becomes the most recent.
    pub fn add_pin(&mut self, key: &K)
        requires { pins_in (lookup (K.eq key.now) self.old) < max_pins }
        ensures { self.new ≡ to_front (K.eq key.now) one_pin_more self.old }
    {
        if let Some(number) = self.keys.get(key) {
            if let Some(place) = self.order.get_mut(number) {
                place.stored.add_pin();
            }
        }
    }

    /// Looks the key up once, for a pin. A value that has a pin left gets it, and the key becomes the most recent.
    pub fn take_pin(&mut self, key: &K) -> Look<V>
        ensures look { IsLookAt (lookup (K.eq key.now) self.old) result }
        ensures list { self.new ≡ after_look (K.eq key.now) result self.old }
    {
        let Some(number) = self.keys.get(key) else {
            return Look::Absent;
        };
        let Some(place) = self.order.peek(number) else {
            return Look::Absent;
        };
        match place.stored.look() {
            Look::Pinned(value, idle) => {
                let Some(place) = self.order.get_mut(number) else {
                    return Look::Pinned(value, idle);
                };
                place.stored.add_pin();
                Look::Pinned(value, idle)
            }
            Look::Absent => Look::Absent,
            Look::Making(maker) => Look::Making(maker),
            Look::Full => Look::Full,
            Look::OutOfMemory => Look::OutOfMemory,
        }
    }

    /// One pin less on the key, which stays where it is.
    pub fn drop_pin(&mut self, key: &K)
        ensures { self.new ≡ change (K.eq key.now) one_pin_less self.old }
    {
        if let Some(number) = self.keys.get(key) {
            if let Some(place) = self.order.peek_mut(number) {
                place.stored.drop_pin();
            }
        }
    }

    /// The key has its value, with one pin, and becomes the most recent.
    pub fn fill(&mut self, key: &K, cost: u64, value: Arc<V>)
    where
        V: Drop,
        ensures { self.new ≡ to_front (K.eq key.now) (λ _. Ready 1 cost (arc_value value)) self.old }
    {
        if let Some(number) = self.keys.get(key) {
            if let Some(place) = self.order.get_mut(number) {
                place.stored.fill(cost, value);
            }
        }
    }

    /// Puts a key in front, which is being made. Out of memory, it leaves the list as it is, and then the key is gone.
    pub fn insert(&mut self, key: K, maker: u32) -> Result<(), AllocError>
    where
        K: Drop,
        V: Drop,
        requires { lookup (K.eq key) self.old ≡ None }
        ensures ok { OnOk result (self.new ≡ (key, Flying maker) ∷ self.old) }
        ensures err { OnErr result (self.new ≡ self.old) }
    {
        let number = self.next;
        // No program comes so far: it would have put 2^64 keys.
        if number == u64::MAX {
            return Err(AllocError);
        }
        let index = self.keys.len();
        // `len` is called for its clause, which bounds the list, so that `put` pushes nothing out.
        let _places = self.order.len();
        let Ok(_) = self.keys.insert(key, number) else {
            return Err(AllocError);
        };
        let place = Slot {
            index,
            stored: Stored::Making(maker),
        };
        let Ok(_) = self.order.put(number, place) else {
            self.keys.truncate(index);
            return Err(AllocError);
        };
        self.next = number + 1;
        Ok(())
    }

    /// Takes the key away. It goes into `freed`.
    pub fn remove(&mut self, key: &K, freed: &mut Freed<K, V>)
    where
        K: Drop,
        V: Drop,
        ensures { self.new ≡ remove_entry (K.eq key.now) self.old }
    {
        if let Some(number) = self.keys.get(key).copied() {
            take_out(&mut self.keys, &mut self.order, number, freed);
        }
    }

    /// Evicts the least recent of the entries that may be evicted, and returns what it cost. It goes into `freed`.
    pub fn evict(&mut self, freed: &mut Freed<K, V>) -> u64
    where
        K: Drop,
        V: Drop,
        requires { has_idle self.old ≡ true }
        ensures entries { self.new ≡ without_last is_idle self.old }
        ensures cost { unpinned self.old ≡ result + unpinned self.new }
    {
        let Some((number, cost)) = oldest_idle(&self.order) else {
            return 0;
        };
        take_out(&mut self.keys, &mut self.order, number, freed);
        cost
    }
}

/// The number of the least recent place that may be evicted, and what it costs.
fn oldest_idle<V>(order: &LruCache<u64, Slot<V>>) -> Option<(u64, u64)>
    ensures found { IfSome result (λ r. IsOldestIdle order.now.entries r.0 r.1) }
    ensures none { IfNone result (some_passes is_idle_place order.now.entries ≡ false) }
{
    let mut rest = order.iter();
    while let Some((number, place)) = rest.next_back() {
        if let Some(cost) = place.stored.idle_cost() {
            return Some((*number, cost));
        }
    }
    None
}

/// Takes a number out of the list and its key out of the map, and tells the number whose key took its place in the map. What it
/// took goes into `freed`. None where the list hasn't the number.
fn take_out<K: Eq + Hash + Drop, V: Drop>(
    keys: &mut IndexMap<K, u64>,
    order: &mut LruCache<u64, Slot<V>>,
    number: u64,
    freed: &mut Freed<K, V>,
) -> Option<()>
    ensures shown { (next : ℕ) → IsTied K.eq keys.old.entries order.old.entries order.old.cap next
        → entries_in keys.new.entries order.new.entries ≡ entries_in keys.old.entries (remove_entry (nat_eq number) order.old.entries) }
    ensures tied { (next : ℕ) → IsTied K.eq keys.old.entries order.old.entries order.old.cap next
        → IsTied K.eq keys.new.entries order.new.entries order.new.cap next }
{
    let (_, place) = order.pop_entry(&number)?;
    let Slot { index, stored } = place;
    freed.keep(keys.swap_remove_index(index), stored);
    let Some((_, moved)) = keys.get_index(index) else {
        return Some(());
    };
    let Some(other) = order.peek_mut(moved) else {
        return Some(());
    };
    other.index = index;
    Some(())
}

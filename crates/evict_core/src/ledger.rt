//! The list of entries with its running sums.
ghost use Rattle.std.specs.Prelude.{◌≡◌, ◌+◌, ◌<◌, ◌≤◌, true, length, [], ◌∷◌, None, is_some, IsSome, IfOk, IfSome, OnOk, OnErr, option_map};
ghost use Rattle.std.specs.Map.{lookup, remove_entry};
ghost use Rattle.std.specs.Arc.{arc_value};
ghost use Rattle.evict_core.specs.Recency.{to_front, change, without_last};
ghost use Rattle.evict_core.specs.Machine.{Flying, Ready, max_pins, max_entries, max_cost, is_idle, has_idle, unpinned, pinned, pins_in, maker_in};
ghost use Rattle.evict_core.specs.Machine.{one_pin_more, one_pin_less};
ghost use Rattle.evict_core.specs.Looks.{IsLookAt, after_look};
ghost use Rattle.evict_core.specs.Places.{stored_status};
ghost use Rattle.evict_core.specs.Sums.{max_sum};

use crate::freed::Freed;
use crate::look::Look;
use crate::recency::Recency;
use crate::stored::Stored;
use std::alloc::{AllocError, Global};
use std::hash::Hash;
use std::marker::Model;
use std::sync::Arc;

/// The entries, what those that no pin holds cost, what the others cost, and how many may be evicted.
#[derive(Drop)]
pub struct Ledger<K: Eq + Hash, V> {
    entries: Recency<K, V>,
    unpinned: u64,
    pinned: u64,
    idle: u64,
}

impl<K: Eq + Hash, V> Model for Ledger<K, V> {
    ghost use Rattle.std.specs.Prelude.{List};
    ghost use Rattle.evict_core.specs.Machine.{Status};
    ghost use Rattle.evict_core.specs.Codes.{status_code};
    ghost use Rattle.std.specs.Coded.{coded×, coded_list};
    ghost use Rattle.evict_core.specs.Sums.{AreSums};

    ghost Value = { List (K × Status V) };

    ghost coded = { coded_list (coded× K.code (status_code V.code)) };

    ghost view = { λ l. l.entries };

    ghost invariant = { λ l. AreSums l.entries l.unpinned l.pinned l.idle };
}

impl<K: Eq + Hash, V> Ledger<K, V> {
    /// No entries.
    pub fn new(alloc: Global) -> Result<Self, AllocError>
        ensures { IfOk result (λ l. l ≡ []) }
    {
        let entries = Recency::new(alloc)?;
        Ok(Ledger {
            entries,
            unpinned: 0,
            pinned: 0,
            idle: 0,
        })
    }

    /// How many entries there are.
    pub fn len(&self) -> usize
        ensures { result ≡ length self.now }
    {
        self.entries.len()
    }

    /// What the entries cost that no pin holds.
    pub fn unpinned(&self) -> u64
        ensures { result ≡ unpinned self.now }
    {
        self.unpinned
    }

    /// What the entries cost that a pin holds.
    pub fn pinned(&self) -> u64
        ensures { result ≡ pinned self.now }
    {
        self.pinned
    }

    /// What all entries cost.
    pub fn cost(&self) -> u64
        ensures cost { result ≡ unpinned self.now + pinned self.now }
        ensures most { result ≤ max_sum }
    {
        self.unpinned + self.pinned
    }

    /// Whether an entry may be evicted.
    pub fn has_idle(&self) -> bool
        ensures { result ≡ has_idle self.now }
    {
        self.idle > 0
    }

    /// What is known of the key.
    pub fn get(&self, key: &K) -> Option<&Stored<V>>
        ensures { option_map (λ s. stored_status s.now) result ≡ lookup (K.eq key.now) self.now }
    {
        self.entries.get(key)
    }

    /// One pin more on the key, which becomes the most recent.
    pub fn add_pin(&mut self, key: &K)
        requires { pins_in (lookup (K.eq key.now) self.old) < max_pins }
        ensures { self.new ≡ to_front (K.eq key.now) one_pin_more self.old }
    {
        match self.entries.idle_cost(key) {
            Some(cost) => {
                self.unpinned -= cost;
                self.pinned += cost;
                self.idle -= 1;
                self.entries.add_pin(key);
            }
            None => self.entries.add_pin(key),
        }
    }

    /// Looks the key up once, for a pin. A value that has a pin left gets it, and the key becomes the most recent.
    pub fn take_pin(&mut self, key: &K) -> Look<V>
        ensures look { IsLookAt (lookup (K.eq key.now) self.old) result }
        ensures list { self.new ≡ after_look (K.eq key.now) result self.old }
    {
        let look = self.entries.take_pin(key);
        if let Some(cost) = look.idle_cost() {
            self.unpinned -= cost;
            self.pinned += cost;
            self.idle -= 1;
        }
        look
    }

    /// One pin less on the key, which stays where it is.
    pub fn drop_pin(&mut self, key: &K)
        requires { 1 ≤ pins_in (lookup (K.eq key.now) self.old) }
        ensures { self.new ≡ change (K.eq key.now) one_pin_less self.old }
    {
        self.entries.drop_pin(key);
        if let Some(cost) = self.entries.idle_cost(key) {
            self.unpinned += cost;
            self.pinned -= cost;
            self.idle += 1;
        }
    }

    /// The key has its value, with one pin, and becomes the most recent.
    pub fn fill(&mut self, key: &K, cost: u64, value: Arc<V>)
    where
        V: Drop,
        requires flying { IsSome (maker_in (lookup (K.eq key.now) self.old)) }
        requires cost { cost ≤ max_cost }
        ensures { self.new ≡ to_front (K.eq key.now) (λ _. Ready 1 cost (arc_value value)) self.old }
    {
        self.pinned += cost;
        self.entries.fill(key, cost, value);
    }

    /// Puts a key in front, which is being made. Out of memory, it leaves the list as it is, and then the key is gone.
    pub fn insert(&mut self, key: K, maker: u32) -> Result<(), AllocError>
    where
        K: Drop,
        V: Drop,
        requires absent { lookup (K.eq key) self.old ≡ None }
        requires room { length self.old < max_entries + 1 }
        ensures ok { OnOk result (self.new ≡ (key, Flying maker) ∷ self.old) }
        ensures err { OnErr result (self.new ≡ self.old) }
    {
        self.entries.insert(key, maker)
    }

    /// Takes a key away that is being made. It goes into `freed`.
    pub fn remove(&mut self, key: &K, freed: &mut Freed<K, V>)
    where
        K: Drop,
        V: Drop,
        requires { IsSome (maker_in (lookup (K.eq key.now) self.old)) }
        ensures { self.new ≡ remove_entry (K.eq key.now) self.old }
    {
        self.entries.remove(key, freed);
    }

    /// Evicts the least recent of the entries that may be evicted. It goes into `freed`.
    pub fn evict(&mut self, freed: &mut Freed<K, V>)
    where
        K: Drop,
        V: Drop,
        requires { has_idle self.old ≡ true }
        ensures { self.new ≡ without_last is_idle self.old }
    {
        let cost = self.entries.evict(freed);
        self.unpinned -= cost;
        self.idle -= 1;
    }
}

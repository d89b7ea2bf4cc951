//! The entries of a cache.
ghost use Rattle.std.specs.Prelude.{◌≡◌, ℕ, ◌+◌, ◌<◌, ◌≤◌, true, false, Some, None, length, IfOk, OnOk, OnErr, IsSome, option_map};
ghost use Rattle.std.specs.Arc.{arc_value};
ghost use Rattle.evict_core.specs.Machine.{Hit, Claim, Crowded, Ask as ask_step, Fill, Fail, Unpin, Limits, Hard, Flying, max_entries, max_budget, max_cost};
ghost use Rattle.evict_core.specs.Machine.{IsHardLimit, holds_all, has_space, has_room, can_fill};
ghost use Rattle.evict_core.specs.Machine.{one_pin_less, has_idle, status_of, pins_in, maker_in, is_within, evict, trim, ask_answer, state_after, hit};
ghost use Rattle.evict_core.specs.History.{opening};
ghost use Rattle.evict_core.specs.Recency.{change};
ghost use Rattle.evict_core.specs.Asked.{IsAskAnswer, ready_pins, ready_value, totals_of};

use crate::ask::Ask;
use crate::counts::{Counts, Totals, raise};
use crate::freed::Freed;
use crate::hard_limit::{HardLimit, is_held};
use crate::ledger::Ledger;
use crate::look::Look;
use crate::stored::Stored;
use ass_num::Mem;
use std::alloc::Global;
use std::hash::Hash;
use std::marker::Model;
use std::sync::Arc;

/// A list of keys, the most recently used first, with a limit of entries, a budget for the cost of those that no pin holds, and a
/// hard limit of all together, where one is set. Each call is one step of the cache machine. All but the evictions take O(1) expected.
#[derive(Drop)]
pub struct Entries<K: Eq + Hash, V> {
    list: Ledger<K, V>,
    limit: u32,
    budget: u64,
    hard: Option<HardLimit>,
    counts: Counts,
    makings: u32,
}

impl<K: Eq + Hash, V> Model for Entries<K, V> {
    ghost use Rattle.std.specs.Prelude.{◌≡◌, ◌≤◌, length};
    ghost use Rattle.evict_core.specs.Machine.{State, IsHardLimit, flying, max_entries};
    ghost use Rattle.evict_core.specs.Codes.{state_code};

    ghost Value = { State K V };

    ghost coded = { state_code K.code V.code };

    ghost view = { λ e. record { entries = e.list; limit = e.limit; budget = e.budget; hard = e.hard; counts = e.counts } };

    ghost invariant = { λ e. (length e.list ≤ max_entries) × (e.limit ≤ max_entries) × (e.makings ≡ flying e.list) × IsHardLimit e.hard };
}

impl<K: Eq + Hash, V> Entries<K, V> {
    /// No entries, with a limit from 1 to 65,536, a budget of at most 2^40 and no hard limit.
    pub fn open(alloc: Global, entries: u32, budget: u64) -> Mem<Entries<K, V>>
        requires least { 1 ≤ entries }
        requires most { entries ≤ max_entries }
        requires budget { budget ≤ max_budget }
        ensures { IfOk result (λ e. e ≡ opening entries budget) }
    {
        let list = Ledger::new(alloc)?;
        Ok(Entries {
            list,
            limit: entries,
            budget,
            hard: None,
            counts: Counts {
                hits: 0,
                claims: 0,
                fills: 0,
                fails: 0,
                crowded: 0,
                evictions: 0,
            },
            makings: 0,
        })
    }

    /// Asks for the key. A hit is the most recent entry from then on, and has one pin more. A key that may be claimed,
    /// one that is being made and out of memory change nothing. Only a hit takes memory.
    pub fn ask(&mut self, key: &K) -> Ask<V>
        ensures { IsAskAnswer K.eq self.old key.now result self.new }
    {
        match self.list.take_pin(key) {
            Look::Pinned(value, _) => {
                self.counts.hits = raise(self.counts.hits);
                Ask::Hit(value)
            }
            Look::Making(maker) => Ask::Flying(maker),
            Look::Full => {
                self.refuse();
                Ask::Crowded
            }
            Look::OutOfMemory => Ask::OutOfMemory,
            Look::Absent => self.ask_absent(key),
        }
    }

    /// Takes the leave to make the value of a key, which the number then does. Out of memory changes nothing here, but
    /// the key is gone. What is evicted for it goes into `freed`.
    pub fn claim(&mut self, key: K, number: u32, freed: &mut Freed<K, V>) -> Mem<()>
    where
        K: Drop,
        V: Drop,
        requires { ask_answer K.eq self.old key ≡ Some Claim }
        ensures ok { OnOk result (self.new ≡ state_after K.eq self.old number (ask_step key Claim)) }
        ensures err { OnErr result (self.new ≡ self.old) }
    {
        if self.list.len() < self.limit as usize {
            return self.claim_free(key, number);
        }
        self.claim_full(key, number, freed)
    }

    /// The number that makes the key.
    pub fn maker_of(&self, key: &K) -> Option<u32>
        ensures { result ≡ maker_in (status_of K.eq self.now key.now) }
    {
        match self.list.get(key) {
            Some(Stored::Making(maker)) => Some(*maker),
            _ => None,
        }
    }

    /// Whether the hard limit, where one is set, has room for a key that is being made to be filled at this cost.
    pub fn can_fill(&self, cost: u64) -> bool
        requires { cost ≤ max_cost }
        ensures { result ≡ can_fill self.now cost }
    {
        is_held(
            self.hard,
            self.list.cost() + cost,
            self.makings.saturating_sub(1),
        )
    }

    /// The key that is being made has its value, with one pin, and is the most recent. The cost is at most 2^32. It doesn't ask
    /// for room within a hard limit.
    pub fn fill(&mut self, key: &K, value: Arc<V>, cost: u64)
    where
        V: Drop,
        requires flying { IsSome (maker_in (status_of K.eq self.old key.now)) }
        requires cost { cost ≤ max_cost }
        ensures { (m : ℕ) → self.new ≡ state_after K.eq self.old m (Fill key.now cost (arc_value value)) }
    {
        self.list.fill(key, cost, value);
        self.counts.fills = raise(self.counts.fills);
        self.makings -= 1;
    }

    /// The key that is being made is taken away. It goes into `freed`.
    pub fn fail(&mut self, key: &K, freed: &mut Freed<K, V>)
    where
        K: Drop,
        V: Drop,
        requires { IsSome (maker_in (status_of K.eq self.old key.now)) }
        ensures { (m : ℕ) → self.new ≡ state_after K.eq self.old m (Fail key.now) }
    {
        self.list.remove(key, freed);
        self.counts.fails = raise(self.counts.fails);
        self.makings -= 1;
    }

    /// One pin of the key is given back, and then as few entries are evicted as the limits want. These go into `freed`.
    pub fn unpin(&mut self, key: &K, freed: &mut Freed<K, V>)
    where
        K: Drop,
        V: Drop,
        requires { 1 ≤ pins_in (status_of K.eq self.old key.now) }
        ensures { (m : ℕ) → self.new ≡ state_after K.eq self.old m (Unpin key.now) }
    {
        self.give_back(key);
        self.trim(freed);
    }

    /// New limits, the entries from 1 to 65,536 and the budget at most 2^40, and then as few entries are evicted as they want.
    /// These go into `freed`.
    pub fn set_limits(&mut self, entries: u32, budget: u64, freed: &mut Freed<K, V>)
    where
        K: Drop,
        V: Drop,
        requires least { 1 ≤ entries }
        requires most { entries ≤ max_entries }
        requires budget { budget ≤ max_budget }
        ensures { (m : ℕ) → self.new ≡ state_after K.eq self.old m (Limits entries budget) }
    {
        self.limit = entries;
        self.budget = budget;
        self.trim(freed);
    }

    /// A hard limit of what the entries cost together, each that is being made at what the limit has for one, or none any more.
    /// From then on a key is crowded where one more making would pass it. It evicts nothing. False where the entries pass it as
    /// they are: then nothing changes.
    pub fn set_hard_limit(&mut self, hard: Option<HardLimit>) -> bool
        requires { IsHardLimit hard }
        ensures set { result ≡ true → (m : ℕ) → self.new ≡ state_after K.eq self.old m (Hard hard) }
        ensures refused { result ≡ false → self.new ≡ self.old }
        ensures holds { result ≡ holds_all hard self.old.entries }
    {
        if !self.holds(hard) {
            return false;
        }
        self.hard = hard;
        true
    }

    /// The pins of a key whose value is made.
    pub fn pins_of(&self, key: &K) -> Option<u32>
        ensures { result ≡ ready_pins (status_of K.eq self.now key.now) }
    {
        match self.list.get(key) {
            Some(Stored::Made(pins, _, _)) => Some(*pins),
            _ => None,
        }
    }

    /// The value of a key whose value is made.
    pub fn value_of(&self, key: &K) -> Mem<Option<Arc<V>>>
        ensures { IfOk result (λ o. option_map arc_value o ≡ ready_value (status_of K.eq self.now key.now)) }
    {
        match self.list.get(key) {
            Some(Stored::Made(_, _, value)) => Ok(Some(Arc::try_clone(value)?)),
            _ => Ok(None),
        }
    }

    /// The hit of an ask, without the value. It takes no memory.
    pub fn pin(&mut self, key: &K)
        requires { ask_answer K.eq self.old key.now ≡ Some Hit }
        ensures { (m : ℕ) → self.new ≡ state_after K.eq self.old m (ask_step key.now Hit) }
    {
        self.list.add_pin(key);
        self.counts.hits = raise(self.counts.hits);
    }

    /// The counts and sums.
    pub fn totals(&self) -> Totals
        ensures { result ≡ totals_of self.now }
    {
        Totals {
            entries: self.list.len() as u32,
            unpinned: self.list.unpinned(),
            pinned: self.list.pinned(),
            budget: self.budget,
            counts: self.counts,
        }
    }

    /// An ask of a key that isn't there.
    fn ask_absent(&mut self, key: &K) -> Ask<V>
        requires { status_of K.eq self.old key.now ≡ None }
        ensures { IsAskAnswer K.eq self.old key.now result self.new }
    {
        if self.has_room() {
            return Ask::Claimable;
        }
        self.refuse();
        Ask::Crowded
    }

    fn has_room(&self) -> bool
        ensures { result ≡ has_room self.now }
    {
        (self.list.len() < self.limit as usize || self.list.has_idle()) && self.has_space()
    }

    /// Whether the limit holds all entries as they are.
    fn holds(&self, hard: Option<HardLimit>) -> bool
        requires { IsHardLimit hard }
        ensures { result ≡ holds_all hard self.now.entries }
    {
        is_held(hard, self.list.cost(), self.makings)
    }

    fn has_space(&self) -> bool
        ensures { result ≡ has_space self.now }
    {
        is_held(self.hard, self.list.cost(), self.makings + 1)
    }

    fn claim_free(&mut self, key: K, number: u32) -> Mem<()>
    where
        K: Drop,
        V: Drop,
        requires absent { status_of K.eq self.old key ≡ None }
        requires room { length self.old.entries < self.old.limit }
        ensures ok { OnOk result (self.new ≡ state_after K.eq self.old number (ask_step key Claim)) }
        ensures err { OnErr result (self.new ≡ self.old) }
    {
        self.list.insert(key, number)?;
        self.counts.claims = raise(self.counts.claims);
        self.makings += 1;
        Ok(())
    }

    /// The memory is taken before anything is evicted: the new entry, which is being made, isn't what goes.
    fn claim_full(&mut self, key: K, number: u32, freed: &mut Freed<K, V>) -> Mem<()>
    where
        K: Drop,
        V: Drop,
        requires absent { status_of K.eq self.old key ≡ None }
        requires full { self.old.limit ≤ length self.old.entries }
        requires idle { has_idle self.old.entries ≡ true }
        ensures ok { OnOk result (self.new ≡ state_after K.eq self.old number (ask_step key Claim)) }
        ensures err { OnErr result (self.new ≡ self.old) }
    {
        self.list.insert(key, number)?;
        self.list.evict(freed);
        self.counts.evictions = raise(self.counts.evictions);
        self.counts.claims = raise(self.counts.claims);
        self.makings += 1;
        Ok(())
    }

    fn refuse(&mut self)
        ensures { (k : K) (m : ℕ) → self.new ≡ state_after K.eq self.old m (ask_step k Crowded) }
    {
        self.counts.crowded = raise(self.counts.crowded);
    }

    fn give_back(&mut self, key: &K)
        requires { 1 ≤ pins_in (status_of K.eq self.old key.now) }
        ensures { self.new ≡ record self.old { entries = change (K.eq key.now) one_pin_less self.old.entries } }
    {
        self.list.drop_pin(key);
    }

    fn trim(&mut self, freed: &mut Freed<K, V>)
    where
        K: Drop,
        V: Drop,
        ensures { self.new ≡ trim self.old }
    {
        while !self.is_within() {
            self.evict(freed);
        }
    }

    fn is_within(&self) -> bool
        ensures { result ≡ is_within self.now }
    {
        !self.list.has_idle()
            || self.list.unpinned() <= self.budget && self.list.len() <= self.limit as usize
    }

    fn evict(&mut self, freed: &mut Freed<K, V>)
    where
        K: Drop,
        V: Drop,
        requires { has_idle self.old.entries ≡ true }
        ensures { self.new ≡ evict self.old }
    {
        self.list.evict(freed);
        self.counts.evictions = raise(self.counts.evictions);
    }
}

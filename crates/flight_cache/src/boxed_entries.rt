//! The entries of a shard in a place of their own.
//!
//! A turn takes the value behind it out of its slot and puts it back, so a pointer lies there in place of the entries.
ghost use Rattle.std.specs.Prelude.{◌≡◌, ℕ, ◌≤◌, true, false, Some, IfOk, OnOk, OnErr, IsSome, option_map};
ghost use Rattle.std.specs.Arc.{arc_value};
ghost use Rattle.evict_core.specs.Machine.{Hit, Claim, Ask as ask_step, Fill, Fail, Unpin, Limits, Hard, max_entries, max_budget, max_cost, status_of, pins_in};
ghost use Rattle.evict_core.specs.Machine.{IsHardLimit, can_fill, holds_all, maker_in, ask_answer, state_after};
ghost use Rattle.evict_core.specs.History.{opening};
ghost use Rattle.evict_core.specs.Asked.{IsAskAnswer, ready_pins, ready_value, totals_of};

use ass_num::Mem;
use evict_core::{Ask, Entries, Freed, HardLimit, Totals};
use std::alloc::Global;
use std::hash::Hash;
use std::marker::Model;
use std::sync::Arc;

/// The entries. Each call is the one of `Entries`, with its contract.
#[derive(Drop)]
pub struct BoxedEntries<K: Eq + Hash, V> {
    inner: Box<Entries<K, V>>,
}

impl<K: Eq + Hash, V> Model for BoxedEntries<K, V> {
    ghost use Rattle.evict_core.specs.Machine.{State};
    ghost use Rattle.evict_core.specs.Codes.{state_code};

    ghost Value = { State K V };

    ghost coded = { state_code K.code V.code };

    ghost view = { λ s. s.inner.value };
}

impl<K: Eq + Hash, V> BoxedEntries<K, V> {
    /// No entries, with a limit from 1 to 65,536 and a budget of at most 2^40.
    pub fn open(alloc: Global, entries: u32, budget: u64) -> Mem<BoxedEntries<K, V>>
    where
        K: Drop,
        V: Drop,
        requires least { 1 ≤ entries }
        requires most { entries ≤ max_entries }
        requires budget { budget ≤ max_budget }
        ensures { IfOk result (λ s. s ≡ opening entries budget) }
    {
        let entries = Entries::open(alloc, entries, budget)?;
        Ok(BoxedEntries {
            inner: Box::new(alloc, entries)?,
        })
    }

    /// Asks for the key. A hit is the most recent entry from then on, and has one pin more. A key that may be claimed,
    /// one that is being made and out of memory change nothing.
    pub fn ask(&mut self, key: &K) -> Ask<V>
        ensures { IsAskAnswer K.eq self.old key.now result self.new }
    {
        self.inner.ask(key)
    }

    /// Takes the leave to make the value of a key, which the number then does. Out of memory changes nothing here, but
    /// the key is gone. What is evicted for it goes into `freed`.
    pub fn claim(&mut self, key: K, number: u32, freed: &mut Freed<K, V>) -> Mem<()>
    where
        K: Drop,
        V: Drop,
        requires { ask_answer K.eq self.old key ≡ Some Claim }
        ensures ok { OnOk result (self.new ≡ state_after K.eq self.old number (ask_step key Claim)) }
        ensures err { OnErr result (self.new ≡ self.old) }
    {
        self.inner.claim(key, number, freed)
    }

    /// Whether the hard limit, where one is set, has room for a key that is being made to be filled at this cost.
    pub fn can_fill(&self, cost: u64) -> bool
        requires { cost ≤ max_cost }
        ensures { result ≡ can_fill self.now cost }
    {
        self.inner.can_fill(cost)
    }

    /// The key that is being made has its value, with one pin, and is the most recent. The cost is at most 2^32. It doesn't ask
    /// for room within a hard limit.
    pub fn fill(&mut self, key: &K, value: Arc<V>, cost: u64)
    where
        V: Drop,
        requires flying { IsSome (maker_in (status_of K.eq self.old key.now)) }
        requires cost { cost ≤ max_cost }
        ensures { (m : ℕ) → self.new ≡ state_after K.eq self.old m (Fill key.now cost (arc_value value)) }
    {
        self.inner.fill(key, value, cost);
    }

    /// The key that is being made is taken away. It goes into `freed`.
    pub fn fail(&mut self, key: &K, freed: &mut Freed<K, V>)
    where
        K: Drop,
        V: Drop,
        requires { IsSome (maker_in (status_of K.eq self.old key.now)) }
        ensures { (m : ℕ) → self.new ≡ state_after K.eq self.old m (Fail key.now) }
    {
        self.inner.fail(key, freed);
    }

    /// One pin of the key is given back, and then as few entries are evicted as the limits want. These go into `freed`.
    pub fn unpin(&mut self, key: &K, freed: &mut Freed<K, V>)
    where
        K: Drop,
        V: Drop,
        requires { 1 ≤ pins_in (status_of K.eq self.old key.now) }
        ensures { (m : ℕ) → self.new ≡ state_after K.eq self.old m (Unpin key.now) }
    {
        self.inner.unpin(key, freed);
    }

    /// New limits, the entries from 1 to 65,536 and the budget at most 2^40, and then as few entries are evicted as they
    /// want. These go into `freed`.
    pub fn set_limits(&mut self, entries: u32, budget: u64, freed: &mut Freed<K, V>)
    where
        K: Drop,
        V: Drop,
        requires least { 1 ≤ entries }
        requires most { entries ≤ max_entries }
        requires budget { budget ≤ max_budget }
        ensures { (m : ℕ) → self.new ≡ state_after K.eq self.old m (Limits entries budget) }
    {
        self.inner.set_limits(entries, budget, freed);
    }

    /// A hard limit of what the entries cost together, or none any more. False where the entries pass it as they are: then
    /// nothing changes.
    pub fn set_hard_limit(&mut self, hard: Option<HardLimit>) -> bool
        requires { IsHardLimit hard }
        ensures set { result ≡ true → (m : ℕ) → self.new ≡ state_after K.eq self.old m (Hard hard) }
        ensures refused { result ≡ false → self.new ≡ self.old }
        ensures holds { result ≡ holds_all hard self.old.entries }
    {
        self.inner.set_hard_limit(hard)
    }

    /// The number that makes the key.
    pub fn maker_of(&self, key: &K) -> Option<u32>
        ensures { result ≡ maker_in (status_of K.eq self.now key.now) }
    {
        self.inner.maker_of(key)
    }

    /// The pins of a key whose value is made.
    pub fn pins_of(&self, key: &K) -> Option<u32>
        ensures { result ≡ ready_pins (status_of K.eq self.now key.now) }
    {
        self.inner.pins_of(key)
    }

    /// The value of a key whose value is made.
    pub fn value_of(&self, key: &K) -> Mem<Option<Arc<V>>>
        ensures { IfOk result (λ o. option_map arc_value o ≡ ready_value (status_of K.eq self.now key.now)) }
    {
        self.inner.value_of(key)
    }

    /// The hit of an ask, without the value. It takes no memory.
    pub fn pin(&mut self, key: &K)
        requires { ask_answer K.eq self.old key.now ≡ Some Hit }
        ensures { (m : ℕ) → self.new ≡ state_after K.eq self.old m (ask_step key.now Hit) }
    {
        self.inner.pin(key);
    }

    /// The counts and sums.
    pub fn totals(&self) -> Totals
        ensures { result ≡ totals_of self.now }
    {
        self.inner.totals()
    }
}

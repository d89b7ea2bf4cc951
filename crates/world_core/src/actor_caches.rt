//! Shards, and what actors hold of them.
ghost use Rattle.std.specs.Prelude.{◌≡◌, ◌<◌, ◌≤◌, Some, length, slice_get, IfOk, IfSome, OnOk, OnErr, option_map};
ghost use Rattle.std.specs.Arc.{arc_value};
ghost use Rattle.evict_core.specs.Machine.{max_entries, max_budget, max_cost, status_of};
ghost use Rattle.evict_core.specs.Asked.{ready_value};
ghost use Rattle.world_core.specs.Caches.{no_shards, shard_in, with_shard, asked, filled, failed, unpinned_at, with_limits};
ghost use Rattle.world_core.specs.Answers.{IsActorAnswer};
ghost use Rattle.world_core.specs.CacheLaws.{HaveHistories};
ghost use Rattle.world_core.specs.declared.holding.Holding.{Holding};

use crate::answer::ActorAnswer;
use crate::holding::Holding;
use ass_num::{Mem, OutOfMemory};
use evict_core::{Ask, Entries, Freed};
use flight_cache::{Made, entry_cost};
use std::alloc::Global;
use std::marker::Model;
use std::snapshot::Snapshot;
use std::sync::Arc;

/// Shards of entries, and the tickets and pins of all actors, the oldest first. An actor that has claimed a key has a ticket
/// for it, which a fill or a fail spends.
#[derive(Drop)]
pub struct ActorCaches<M: Made> {
    tag: Snapshot<M::Tag>,
    shards: Vec<Entries<M::Key, M::Value>>,
    tickets: Vec<Holding<M::Key>>,
    pins: Vec<Holding<M::Key>>,
}

impl<M: Made> Model for ActorCaches<M> {
    ghost use Rattle.world_core.specs.Caches.{ActorCachesView};
    ghost use Rattle.world_core.specs.Codes.{caches_code};
    ghost use Rattle.world_core.specs.CacheLaws.{HaveHistories};

    ghost Value = { ActorCachesView M.Key M.Value M.Tag };

    ghost coded = { caches_code M.Key.code M.Value.code M.Tag.code };

    ghost view = { λ c. record { tag = c.tag.value; shards = c.shards.items; tickets = c.tickets.items; pins = c.pins.items } };

    ghost invariant = { λ c. HaveHistories M.Key.eq M.meaning
        (record { tag = c.tag.value; shards = c.shards.items; tickets = c.tickets.items; pins = c.pins.items }) };
}

impl<M: Made> ActorCaches<M> {
    /// No shards. All values are made from the tag besides their keys.
    pub fn new(alloc: Global, tag: &M::Tag) -> ActorCaches<M>
        ensures { result ≡ no_shards tag.now }
    {
        ActorCaches {
            tag: Snapshot::of(tag),
            shards: Vec::new(alloc),
            tickets: Vec::new(alloc),
            pins: Vec::new(alloc),
        }
    }

    /// One shard more, with a limit of entries from 1 to 65,536 and a budget of at most 2^40. Out of memory changes nothing.
    pub fn add_shard(&mut self, alloc: Global, entries: u32, budget: u64) -> Mem<()>
        requires least { 1 ≤ entries }
        requires most { entries ≤ max_entries }
        requires budget { budget ≤ max_budget }
        ensures ok { OnOk result (self.new ≡ with_shard entries budget self.old) }
        ensures err { OnErr result (self.new ≡ self.old) }
    {
        let shard = Entries::open(alloc, entries, budget)?;
        self.shards.push(shard)?;
        Ok(())
    }

    /// How many shards there are.
    pub fn len(&self) -> usize
        ensures { result ≡ length self.now.shards }
    {
        self.shards.len()
    }

    /// The tickets of all actors, the oldest first.
    pub fn tickets(&self) -> &[Holding<M::Key>]
        ensures { result.now ≡ self.now.tickets }
    {
        self.tickets.as_slice()
    }

    /// The pins of all actors, the oldest first.
    pub fn pins(&self) -> &[Holding<M::Key>]
        ensures { result.now ≡ self.now.pins }
    {
        self.pins.as_slice()
    }

    /// The actor asks for a key of a shard. Out of memory changes nothing.
    pub fn ask(&mut self, alloc: Global, actor: u32, shard: usize, key: &M::Key) -> Mem<ActorAnswer>
        requires { shard < length self.old.shards }
        ensures answer { IfOk result (λ a. IsActorAnswer M.Key.eq (record { actor = actor; shard = shard; key = key.now }) self.old a) }
        ensures state { OnOk result (self.new ≡ asked M.Key.eq (record { actor = actor; shard = shard; key = key.now }) self.old) }
        ensures err { OnErr result (self.new ≡ self.old) }
    {
        let key = M::copy(alloc, key)?;
        let holding = Holding { actor, shard, key };
        self.pins.reserve(1)?;
        match self.shards[shard].ask(&holding.key) {
            Ask::Hit(_) => {
                self.pins.push_reserved(holding);
                Ok(ActorAnswer::Hit)
            }
            Ask::Claimable => self.claim(alloc, holding),
            Ask::Flying(maker) => Ok(ActorAnswer::Flying(maker)),
            Ask::Crowded => Ok(ActorAnswer::Crowded),
            Ask::OutOfMemory => Err(OutOfMemory),
        }
    }

    /// The claim of a key that may be claimed.
    fn claim(&mut self, alloc: Global, holding: Holding<M::Key>) -> Mem<ActorAnswer>
        requires shard { holding.shard < length self.old.shards }
        requires claims { IsActorAnswer M.Key.eq holding self.old ActorAnswer.Claim }
        ensures answer { IfOk result (λ a. IsActorAnswer M.Key.eq holding self.old a) }
        ensures state { OnOk result (self.new ≡ asked M.Key.eq holding self.old) }
        ensures err { OnErr result (self.new ≡ self.old) }
    {
        let key = M::copy(alloc, &holding.key)?;
        self.tickets.reserve(1)?;
        let mut freed = Freed::few();
        let claimed = self.shards[holding.shard].claim(key, holding.actor, &mut freed);
        drop(freed);
        claimed?;
        self.tickets.push_reserved(holding);
        Ok(ActorAnswer::Claim)
    }

    /// Spends the ticket at this place for the value of its key. Its actor has a pin then. Out of memory changes nothing.
    pub fn fill(&mut self, place: usize, value: Arc<M::Value>) -> Mem<()>
        requires place { place < length self.old.tickets }
        requires value { (h : Holding M.Key) → slice_get self.old.tickets place ≡ Some h → arc_value value ≡ M.meaning.made self.old.tag h.key }
        requires cost { M.meaning.cost (arc_value value) ≤ max_cost }
        ensures ok { OnOk result ((h : Holding M.Key) → slice_get self.old.tickets place ≡ Some h → self.new ≡ filled M.Key.eq M.meaning place h self.old) }
        ensures err { OnErr result (self.new ≡ self.old) }
    {
        self.pins.reserve(1)?;
        let holding = self.tickets.remove(place);
        let cost = entry_cost::<M>(&holding.key, &value);
        self.shards[holding.shard].fill(&holding.key, value, cost);
        self.pins.push_reserved(holding);
        Ok(())
    }

    /// Spends the ticket at this place for nothing: its key is taken away. It takes no memory.
    pub fn fail(&mut self, place: usize)
        requires { place < length self.old.tickets }
        ensures { (h : Holding M.Key) → slice_get self.old.tickets place ≡ Some h → self.new ≡ failed M.Key.eq place h self.old }
    {
        let holding = self.tickets.remove(place);
        let mut freed = Freed::few();
        self.shards[holding.shard].fail(&holding.key, &mut freed);
        drop(freed);
    }

    /// Gives the pin at this place back, and then as few entries are evicted as the shard's limits want. It takes no memory.
    pub fn unpin(&mut self, place: usize)
        requires { place < length self.old.pins }
        ensures { (h : Holding M.Key) → slice_get self.old.pins place ≡ Some h → self.new ≡ unpinned_at M.Key.eq place h self.old }
    {
        let holding = self.pins.remove(place);
        let mut freed = Freed::few();
        self.shards[holding.shard].unpin(&holding.key, &mut freed);
        drop(freed);
    }

    /// New limits of a shard, the entries from 1 to 65,536 and the budget at most 2^40, and then as few entries are evicted as
    /// they want. It takes no memory.
    pub fn set_limits(&mut self, shard: usize, entries: u32, budget: u64)
        requires shard { shard < length self.old.shards }
        requires least { 1 ≤ entries }
        requires most { entries ≤ max_entries }
        requires budget { budget ≤ max_budget }
        ensures { self.new ≡ with_limits M.Key.eq shard entries budget self.old }
    {
        let mut freed = Freed::few();
        self.shards[shard].set_limits(entries, budget, &mut freed);
        drop(freed);
    }

    /// The value of a key of a shard, where it is made. It is made from the tag and the key.
    pub fn value_of(&self, shard: usize, key: &M::Key) -> Mem<Option<Arc<M::Value>>>
        requires { shard < length self.now.shards }
        ensures here { IfOk result (λ o. option_map arc_value o ≡ ready_value (status_of M.Key.eq (shard_in self.now shard) key.now)) }
        ensures made { IfOk result (λ o. IfSome o (λ v. arc_value v ≡ M.meaning.made self.now.tag key.now)) }
    {
        self.shards[shard].value_of(key)
    }

    /// What holds after all steps that were made: the caches stand for legal histories of their shards.
    pub fn proof_histories(&self)
        ensures { HaveHistories M.Key.eq M.meaning self.now }
    {
        let _ = &self.shards;
    }
}

//! One shard of a cache.
ghost use Rattle.std.specs.Prelude.{◌≡◌, ◌+◌, ◌<◌, ◌≤◌, ◌∷◌, [], true, false, IfOk, IfErr, IfSome, OnOk};
ghost use Rattle.std.specs.Arc.{arc_value};
ghost use Rattle.turn_cell.specs.History.{IsPrefix, IsBelow, with_entry};
ghost use Rattle.turn_cell.specs.Passes.{IsOf, IsTurnOf, IsTurnAfterTries, Extends, first_pass, split_pass, new_pass, joined_pass};
ghost use Rattle.evict_core.specs.Machine.{Fill, Fail, Spill, Unpin, Limits, IsHardLimit, can_fill, max_entries, max_budget, max_cost};
ghost use Rattle.evict_core.specs.History.{has_open, pins_left};
ghost use Rattle.evict_core.specs.Asked.{totals_of};
ghost use Rattle.flight_cache.specs.Meaning.{entry_cost};
ghost use Rattle.flight_cache.specs.Histories.{value_under, is_in, left_by, IsLegalUnder, Stands};
ghost use Rattle.flight_cache.specs.Calls.{GivesSteps, own_steps};
ghost use Rattle.flight_cache.specs.Answers.{IsAsked, IsAskedAtTurn, IsHardSet, IsHomeAsk};

use crate::bell::Bell;
use crate::boxed_entries::BoxedEntries;
use crate::holds::Trying;
use crate::kept::{Entry, Kept, Opening};
use crate::made::{Made, entry_cost};
use crate::pins::{Asked, Pin, Ticket};
use ass_num::{Mem, OutOfMemory};
use crossbeam_utils::Backoff;
use evict_core::{Ask, Freed, HardLimit, Totals};
use std::alloc::Global;
use std::marker::Model;
use std::snapshot::Snapshot;
use std::sync::{Arc, Wait};
use turn_cell::{Pass, Turn, TurnCell};

/// The right to take the turn of a shard. All that it has seen is legal.
pub struct ShardPass<M: Made> {
    pass: Pass<Kept<M>>,
}

impl<M: Made> Model for ShardPass<M> {
    ghost use Rattle.flight_cache.specs.Calls.{ShardPassView, HasLegal};

    ghost Value = { ShardPassView M.Key M.Tag };

    ghost view = { λ p. p.pass };

    ghost invariant = { λ p. HasLegal M.Key.eq M.meaning p.pass.tag p.pass.seen };
}

/// So many words lie between what two shards change: two lines of a processor's cache.
const GAP: usize = 16;

/// The entries of a shard's keys, behind a turn.
///
/// The gap is memory that nobody reads or writes. It is taken before the shard's other memory, so that no line of a
/// processor's cache has what two shards change: threads on different shards would take such a line from one another.
pub struct Shard<M: Made> {
    cell: TurnCell<Kept<M>>,
    pub(crate) number: u32,
    gap: Box<[u64; GAP]>,
    bell: Bell,
}

impl<M: Made> Model for Shard<M> {
    ghost use Rattle.std.specs.Prelude.{◌≡◌};
    ghost use Rattle.flight_cache.specs.Calls.{ShardView};

    ghost Value = { ShardView M.Tag };

    ghost view = { λ s. s.cell };

    ghost invariant = { λ s. s.cell.tag.shard ≡ s.number };
}

impl<M: Made> Shard<M> {
    /// No entries, and the first pass.
    pub fn open(
        alloc: Global,
        tag: &M::Tag,
        number: u32,
        entries: u32,
        budget: u64,
    ) -> Mem<(Shard<M>, ShardPass<M>)>
        requires least { 1 ≤ entries }
        requires most { entries ≤ max_entries }
        requires budget { budget ≤ max_budget }
        ensures tag { IfOk result (λ r. r.0.tag.tag.value ≡ tag.now) }
        ensures number { IfOk result (λ r. r.0.tag.shard ≡ number) }
        ensures limits { IfOk result (λ r. (r.0.tag.entries ≡ entries) × (r.0.tag.budget ≡ budget)) }
        ensures pass { IfOk result (λ r. r.1 ≡ first_pass r.0) }
    {
        let gap = Box::new(alloc, [0; GAP])?;
        let kept = Kept {
            entries: BoxedEntries::open(alloc, entries, budget)?,
        };
        let opening = Opening {
            tag: Snapshot::of(tag),
            shard: number,
            entries,
            budget,
        };
        match TurnCell::open(alloc, opening, kept) {
            Ok((cell, pass)) => Ok((
                Shard {
                    cell,
                    number,
                    gap,
                    bell: Bell::new(),
                },
                ShardPass { pass },
            )),
            Err(_) => Err(OutOfMemory),
        }
    }

    /// Asks for the key, and waits while its value is being made: for some tries by short pauses, then asleep until a
    /// making ends. Memory may run out before, and at a turn that shows a hit or a claim; a key that is being made, or has
    /// no room, is never answered so. Where a turn shows a claim, it is given back, and the ask is made again with a copy of
    /// the key for the entries.
    pub fn ask<R: Wait>(
        &self,
        rt: &R,
        alloc: Global,
        pass: ShardPass<M>,
        key: &M::Key,
    ) -> (ShardPass<M>, Asked<M>)
        requires cell { IsOf self.now pass }
        requires shard { is_in M.meaning self.now.tag key.now ≡ true }
        ensures asked { IsAsked M.Key.eq M.meaning self.now pass key.now result.0 result.1 }
        ensures home { IsHomeAsk self.now result.1 }
    {
        let Ok(copy) = M::copy(alloc, key) else {
            return (pass, Asked::OutOfMemory);
        };
        let backoff = Backoff::new();
        let mut waiting = pass;
        let mut own = copy;
        let mut spare: Option<M::Key> = None;
        for _ in rt.forever() {
            let count = self.count_if(rt, backoff.is_completed());
            let (pass, answer) = self.ask_once(rt, alloc, waiting, own, spare);
            match answer {
                Ok(asked) => return (pass, asked),
                Err((key, copy)) => {
                    waiting = pass;
                    own = key;
                    spare = copy;
                }
            }
            if spare.is_none() {
                self.pause(rt, &waiting, &backoff, count);
            }
        }
        unreachable!()
    }

    /// How often a making has ended, if that is asked for.
    fn count_if<R: Wait>(&self, rt: &R, is_asked: bool) -> Option<u64> {
        if is_asked {
            Some(self.bell.count(rt))
        } else {
            None
        }
    }

    /// Waits a moment; or, where the makings were counted before the ask, until another one ends. Who waits shows its pass,
    /// so it has no turn.
    fn pause<R: Wait>(
        &self,
        rt: &R,
        waiting: &ShardPass<M>,
        backoff: &Backoff,
        count: Option<u64>,
    ) {
        match count {
            Some(count) => self.bell.sleep(rt, waiting, count),
            None => backoff.snooze(),
        }
    }

    /// One ask. The key comes back where its value is being made; and, with a copy of it, where it may be claimed and there
    /// was no copy of it.
    fn ask_once<R: Wait>(
        &self,
        rt: &R,
        alloc: Global,
        pass: ShardPass<M>,
        key: M::Key,
        copy: Option<M::Key>,
    ) -> (ShardPass<M>, Result<Asked<M>, (M::Key, Option<M::Key>)>)
        requires cell { IsOf self.now pass }
        requires shard { is_in M.meaning self.now.tag key ≡ true }
        requires copy { IfSome copy (λ c. c ≡ key) }
        ensures asked { IfOk result.1 (IsAskedAtTurn M.Key.eq M.meaning self.now pass key result.0) }
        ensures home { IfOk result.1 (IsHomeAsk self.now) }
        ensures again { IfErr result.1 (λ k. (k.0 ≡ key) × IfSome k.1 (λ c. c ≡ k.0) × GivesSteps M.Key.eq M.meaning self.now pass result.0 []) }
    {
        let before = Snapshot::of(&pass);
        let turn = self.take(rt, pass);
        self.answer(alloc, before, turn, key, copy)
    }

    /// What the turn answers. It comes home in here, where nothing can wait: there is no handle to wait with. A copy that isn't
    /// taken is freed behind it.
    fn answer(
        &self,
        alloc: Global,
        before: Snapshot<ShardPass<M>>,
        mut turn: Turn<Kept<M>>,
        key: M::Key,
        copy: Option<M::Key>,
    ) -> (ShardPass<M>, Result<Asked<M>, (M::Key, Option<M::Key>)>)
        requires cell { IsOf self.now before.value }
        requires turn { IsTurnAfterTries (Stands M.Key.eq M.meaning) self.now.tag before.value turn }
        requires legal { IsLegalUnder M.Key.eq M.meaning self.now.tag before.value.seen }
        requires shard { is_in M.meaning self.now.tag key ≡ true }
        requires copy { IfSome copy (λ c. c ≡ key) }
        ensures asked { IfOk result.1 (IsAskedAtTurn M.Key.eq M.meaning self.now before.value key result.0) }
        ensures home { IfOk result.1 (IsHomeAsk self.now) }
        ensures again { IfErr result.1 (λ k. (k.0 ≡ key) × IfSome k.1 (λ c. c ≡ k.0) × GivesSteps M.Key.eq M.meaning self.now before.value result.0 []) }
    {
        let shard = self.number;
        match turn.value_mut().entries.ask(&key) {
            Ask::Hit(value) => {
                let pass = self.give(turn, Some(Entry::Hit(Snapshot::of(&key))));
                let pin = Pin {
                    key,
                    shard,
                    value,
                    home: before,
                };
                (pass, Ok(Asked::Hit(pin)))
            }
            Ask::Claimable => {
                let Some(own) = copy else {
                    let pass = self.give(turn, None);
                    let Ok(copy) = M::copy(alloc, &key) else {
                        return (pass, Ok(Asked::OutOfMemory));
                    };
                    return (pass, Err((key, Some(copy))));
                };
                let number = turn.number();
                let mut freed = Freed::few();
                let claimed = turn.value_mut().entries.claim(own, number, &mut freed);
                if claimed.is_err() {
                    let pass = self.give(turn, None);
                    drop(freed);
                    return (pass, Ok(Asked::OutOfMemory));
                }
                let pass = self.give(turn, Some(Entry::Claim(Snapshot::of(&key))));
                drop(freed);
                let ticket = Ticket {
                    key,
                    shard,
                    home: before,
                };
                (pass, Ok(Asked::Make(Some(ticket))))
            }
            Ask::Crowded => {
                let pass = self.give(turn, Some(Entry::Crowded(Snapshot::of(&key))));
                (pass, Ok(Asked::Make(None)))
            }
            Ask::Flying(_) => {
                let pass = self.give(turn, None);
                (pass, Err((key, None)))
            }
            Ask::OutOfMemory => {
                let pass = self.give(turn, None);
                (pass, Ok(Asked::OutOfMemory))
            }
        }
    }

    /// The value of the ticket's key is made: one `Arc` of it is kept, and the other goes into a pin. Where a hard limit has no
    /// room for it, it is spilled: it isn't kept, and the other `Arc` comes back.
    pub fn fill<R: Wait>(
        &self,
        rt: &R,
        pass: ShardPass<M>,
        ticket: Ticket<M>,
        kept: Arc<M::Value>,
        pinned: Arc<M::Value>,
    ) -> (ShardPass<M>, Result<Pin<M>, Arc<M::Value>>)
        requires cell { IsOf self.now pass }
        requires own { ticket.cell ≡ self.now.id }
        requires shard { is_in M.meaning self.now.tag ticket.key ≡ true }
        requires open { has_open M.Key.eq (own_steps M.meaning self.now.tag pass) ticket.key ≡ true }
        requires kept { arc_value kept ≡ value_under M.meaning self.now.tag ticket.key }
        requires pinned { arc_value pinned ≡ value_under M.meaning self.now.tag ticket.key }
        requires cost { M.meaning.cost (arc_value kept) ≤ max_cost }
        ensures pass { IfOk result.1 (λ pin. GivesSteps M.Key.eq M.meaning self.now pass result.0
            (Fill ticket.key (entry_cost M.meaning ticket.key (arc_value kept)) (arc_value kept) ∷ [])) }
        ensures pin { IfOk result.1 (λ pin. (pin.key ≡ ticket.key) × (pin.value ≡ arc_value pinned) × (pin.cell ≡ ticket.cell)) }
        ensures spilled { IfErr result.1 (λ value. GivesSteps M.Key.eq M.meaning self.now pass result.0
            (Spill ticket.key (entry_cost M.meaning ticket.key (arc_value kept)) ∷ [])) }
        ensures value { IfErr result.1 (λ value. arc_value value ≡ arc_value pinned) }
    {
        let Ticket { key, shard, home } = ticket;
        let cost = entry_cost::<M>(&key, &kept);
        let before = Snapshot::of(&pass);
        let turn = self.take(rt, pass);
        if turn.value().entries.can_fill(cost) {
            let pass = self.fill_at(before, turn, &key, kept, cost);
            self.bell.ring(rt);
            let pin = Pin {
                key,
                shard,
                value: pinned,
                home,
            };
            return (pass, Ok(pin));
        }
        let pass = self.spill_at(before, turn, &key, cost);
        self.bell.ring(rt);
        (pass, Err(pinned))
    }

    /// The value of the ticket's key isn't made.
    pub fn fail<R: Wait>(&self, rt: &R, pass: ShardPass<M>, ticket: Ticket<M>) -> ShardPass<M>
        requires cell { IsOf self.now pass }
        requires own { ticket.cell ≡ self.now.id }
        requires shard { is_in M.meaning self.now.tag ticket.key ≡ true }
        requires open { has_open M.Key.eq (own_steps M.meaning self.now.tag pass) ticket.key ≡ true }
        ensures { GivesSteps M.Key.eq M.meaning self.now pass result (Fail ticket.key ∷ []) }
    {
        let Ticket {
            key,
            shard: _,
            home: _,
        } = ticket;
        let mut freed = Freed::few();
        let mut turn = self.take(rt, pass);
        turn.value_mut().entries.fail(&key, &mut freed);
        let pass = self.give(turn, Some(Entry::Fail(Snapshot::of(&key))));
        self.bell.ring(rt);
        drop(freed);
        pass
    }

    /// Fills a key at this cost, for which there is room, and gives the turn back.
    fn fill_at(
        &self,
        before: Snapshot<ShardPass<M>>,
        mut turn: Turn<Kept<M>>,
        key: &M::Key,
        kept: Arc<M::Value>,
        cost: u64,
    ) -> ShardPass<M>
        requires cell { IsOf self.now before.value }
        requires turn { IsTurnAfterTries (Stands M.Key.eq M.meaning) self.now.tag before.value turn }
        requires legal { IsLegalUnder M.Key.eq M.meaning self.now.tag before.value.seen }
        requires shard { is_in M.meaning self.now.tag key.now ≡ true }
        requires open { has_open M.Key.eq (own_steps M.meaning self.now.tag before.value) key.now ≡ true }
        requires kept { arc_value kept ≡ value_under M.meaning self.now.tag key.now }
        requires cost { cost ≡ entry_cost M.meaning key.now (arc_value kept) }
        requires most { cost ≤ max_cost }
        requires room { can_fill turn.value.entries cost ≡ true }
        ensures { GivesSteps M.Key.eq M.meaning self.now before.value result
            (Fill key.now (entry_cost M.meaning key.now (arc_value kept)) (arc_value kept) ∷ []) }
    {
        turn.value_mut().entries.fill(key, kept, cost);
        self.give(turn, Some(Entry::Fill(Snapshot::of(key))))
    }

    /// Spills a key's value at this cost, for which there is no room, and gives the turn back. The entry is freed once others may
    /// have it.
    fn spill_at(
        &self,
        before: Snapshot<ShardPass<M>>,
        mut turn: Turn<Kept<M>>,
        key: &M::Key,
        cost: u64,
    ) -> ShardPass<M>
        requires cell { IsOf self.now before.value }
        requires turn { IsTurnAfterTries (Stands M.Key.eq M.meaning) self.now.tag before.value turn }
        requires legal { IsLegalUnder M.Key.eq M.meaning self.now.tag before.value.seen }
        requires shard { is_in M.meaning self.now.tag key.now ≡ true }
        requires open { has_open M.Key.eq (own_steps M.meaning self.now.tag before.value) key.now ≡ true }
        requires cost { cost ≡ entry_cost M.meaning key.now (value_under M.meaning self.now.tag key.now) }
        requires full { can_fill turn.value.entries cost ≡ false }
        ensures { GivesSteps M.Key.eq M.meaning self.now before.value result (Spill key.now cost ∷ []) }
    {
        let _ = cost;
        let mut freed = Freed::few();
        turn.value_mut().entries.fail(key, &mut freed);
        let pass = self.give(turn, Some(Entry::Spill(Snapshot::of(key))));
        drop(freed);
        pass
    }

    /// Gives a pin back. What is evicted is freed once others may have the turn.
    pub fn unpin<R: Wait>(&self, rt: &R, pass: ShardPass<M>, pin: Pin<M>) -> ShardPass<M>
        requires cell { IsOf self.now pass }
        requires own { pin.cell ≡ self.now.id }
        requires shard { is_in M.meaning self.now.tag pin.key ≡ true }
        requires held { 1 ≤ pins_left M.Key.eq (own_steps M.meaning self.now.tag pass) pin.key }
        ensures { GivesSteps M.Key.eq M.meaning self.now pass result (Unpin pin.key ∷ []) }
    {
        let Pin {
            key,
            shard: _,
            value: _,
            home: _,
        } = pin;
        let mut freed = Freed::few();
        let mut turn = self.take(rt, pass);
        turn.value_mut().entries.unpin(&key, &mut freed);
        let pass = self.give(turn, Some(Entry::Unpin(Snapshot::of(&key))));
        drop(freed);
        pass
    }

    /// New limits. What is evicted is freed once others may have the turn, as far as there is memory to keep it so long.
    pub fn set_limits<R: Wait>(
        &self,
        rt: &R,
        alloc: Global,
        pass: ShardPass<M>,
        entries: u32,
        budget: u64,
    ) -> ShardPass<M>
        requires cell { IsOf self.now pass }
        requires least { 1 ≤ entries }
        requires most { entries ≤ max_entries }
        requires budget { budget ≤ max_budget }
        ensures { GivesSteps M.Key.eq M.meaning self.now pass result (Limits entries budget ∷ []) }
    {
        let mut freed = Freed::many(alloc);
        let mut turn = self.take(rt, pass);
        turn.value_mut()
            .entries
            .set_limits(entries, budget, &mut freed);
        let pass = self.give(turn, Some(Entry::Limits(entries, budget)));
        drop(freed);
        pass
    }

    /// A hard limit, or none any more: false where the entries pass it as they are, and then nothing is done.
    pub fn set_hard_limit<R: Wait>(
        &self,
        rt: &R,
        pass: ShardPass<M>,
        hard: Option<HardLimit>,
    ) -> (ShardPass<M>, bool)
        requires cell { IsOf self.now pass }
        requires hard { IsHardLimit hard }
        ensures { IsHardSet M.Key.eq M.meaning self.now pass hard result.0 result.1 }
    {
        let mut turn = self.take(rt, pass);
        if turn.value_mut().entries.set_hard_limit(hard) {
            let pass = self.give(turn, Some(Entry::Hard(hard)));
            return (pass, true);
        }
        (self.give(turn, None), false)
    }

    /// The counts and sums, as the history that the pass has seen leaves them.
    pub fn totals<R: Wait>(&self, rt: &R, pass: ShardPass<M>) -> (ShardPass<M>, Totals)
        requires { IsOf self.now pass }
        ensures pass { GivesSteps M.Key.eq M.meaning self.now pass result.0 [] }
        ensures totals { result.1 ≡ totals_of (left_by M.Key.eq M.meaning self.now.tag result.0.seen) }
        ensures budget { result.1.unpinned ≤ result.1.budget }
    {
        let turn = self.take(rt, pass);
        let totals = turn.value().entries.totals();
        (self.give(turn, None), totals)
    }

    /// A new pass. The first one comes back alone where no number is left.
    pub fn split(&self, pass: ShardPass<M>) -> Result<(ShardPass<M>, ShardPass<M>), ShardPass<M>>
        requires cell { IsOf self.now pass }
        requires first { pass.number ≡ 0 }
        ensures passes { IfOk result (λ r. (r.0 ≡ split_pass pass) × (r.1 ≡ new_pass pass)) }
        ensures room { OnOk result (pass.next < u32.MAX) }
        ensures refused { IfErr result (λ p. (pass.next ≡ u32.MAX) × (p ≡ pass)) }
        ensures empty { IfOk result (λ r. own_steps M.meaning self.now.tag r.1 ≡ []) }
        ensures below { IfOk result (λ r. IsBelow r.1.number r.1.seen × IsBelow r.0.next r.0.seen) }
    {
        let ShardPass { pass } = pass;
        match self.cell.split(pass) {
            Ok((first, new)) => Ok((ShardPass { pass: first }, ShardPass { pass: new })),
            Err(pass) => Err(ShardPass { pass }),
        }
    }

    /// A new pass, where a number is left.
    pub(crate) fn split_with_room(&self, pass: ShardPass<M>) -> (ShardPass<M>, ShardPass<M>)
        requires cell { IsOf self.now pass }
        requires first { pass.number ≡ 0 }
        requires room { pass.next < u32.MAX }
        ensures passes { (result.0 ≡ split_pass pass) × (result.1 ≡ new_pass pass) }
        ensures empty { own_steps M.meaning self.now.tag result.1 ≡ [] }
        ensures below { IsBelow result.1.number result.1.seen × IsBelow result.0.next result.0.seen }
    {
        match self.split(pass) {
            Ok(two) => two,
            Err(_back) => unreachable!(),
        }
    }

    /// Spends the other pass.
    pub fn join(&self, pass: ShardPass<M>, other: ShardPass<M>) -> ShardPass<M>
        requires cells { IsOf self.now pass × IsOf self.now other }
        requires first { pass.number ≡ 0 }
        ensures pass { result ≡ joined_pass pass other }
        ensures begins { IsPrefix pass.seen result.seen × IsPrefix other.seen result.seen }
        ensures own { own_steps M.meaning self.now.tag result ≡ own_steps M.meaning self.now.tag pass }
        ensures itself { Extends result result.seen }
    {
        let ShardPass { pass } = pass;
        let ShardPass { pass: other } = other;
        ShardPass {
            pass: self.cell.join(pass, other),
        }
    }

    /// Spends the last pass.
    pub fn close(self, pass: ShardPass<M>)
        requires cell { IsOf self pass }
        requires first { pass.number ≡ 0 }
    {
        let Shard {
            cell,
            number: _,
            gap: _,
            bell: _,
        } = self;
        let ShardPass { pass } = pass;
        cell.close(pass);
    }

    /// What the pass has seen is legal.
    pub fn proof_legal(&self, pass: &ShardPass<M>)
        requires { IsOf self.now pass.now }
        ensures { IsLegalUnder M.Key.eq M.meaning self.now.tag pass.now.seen }
    {
        let _ = &pass.pass;
    }

    /// The turn of the shard, if it is home. It doesn't wait, and whoever shows what a try is shown has no handle to wait with.
    pub(crate) fn try_take(
        &self,
        _trying: &Trying,
        pass: ShardPass<M>,
    ) -> Result<Turn<Kept<M>>, ShardPass<M>>
        requires { IsOf self.now pass }
        ensures turn { IfOk result (IsTurnOf (Stands M.Key.eq M.meaning) self.now.tag pass) }
        ensures legal { OnOk result (IsLegalUnder M.Key.eq M.meaning self.now.tag pass.seen) }
        ensures out { IfErr result (λ p. p ≡ record pass { lost = pass.lost + 1 }) }
    {
        let ShardPass { pass } = pass;
        match self.cell.try_take(pass) {
            Ok(turn) => Ok(turn),
            Err(pass) => Err(ShardPass { pass }),
        }
    }

    /// The turn of the shard. Only this waits for one, and each method here that has it gives it back before it returns.
    fn take<R: Wait>(&self, rt: &R, pass: ShardPass<M>) -> Turn<Kept<M>>
        requires { IsOf self.now pass }
        ensures turn { IsTurnAfterTries (Stands M.Key.eq M.meaning) self.now.tag pass result }
        ensures legal { IsLegalUnder M.Key.eq M.meaning self.now.tag pass.seen }
    {
        let ShardPass { pass } = pass;
        self.cell.take(rt, pass)
    }

    /// The turn comes home, with this entry.
    pub(crate) fn give(&self, turn: Turn<Kept<M>>, entry: Option<Entry<M::Key>>) -> ShardPass<M>
        requires cell { IsOf self.now turn.pass }
        requires value { Stands M.Key.eq M.meaning self.now.tag turn.value (with_entry turn.list turn.pass.number entry) }
        ensures pass { result ≡ record turn.pass { seen = with_entry turn.list turn.pass.number entry } }
        ensures legal { IsLegalUnder M.Key.eq M.meaning self.now.tag result.seen }
    {
        ShardPass {
            pass: self.cell.give(turn, entry),
        }
    }
}

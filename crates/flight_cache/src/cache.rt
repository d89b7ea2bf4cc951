//! A cache of four shards.
ghost use Rattle.std.specs.Prelude.{◌≡◌, ◌≤◌, ◌<◌, ◌∷◌, [], true, IfOk, IfErr, OnOk};
ghost use Rattle.std.specs.Arc.{arc_value};
ghost use Rattle.turn_cell.specs.Passes.{first_pass, split_pass, new_pass, joined_pass};
ghost use Rattle.evict_core.specs.Machine.{Fill, Fail, Spill, Unpin, Limits, IsHardLimit, max_entries, max_budget, max_cost};
ghost use Rattle.evict_core.specs.History.{has_open, pins_left};
ghost use Rattle.evict_core.specs.Asked.{totals_of};
ghost use Rattle.flight_cache.specs.Meaning.{shard_count, shard_of, entry_cost};
ghost use Rattle.flight_cache.specs.Histories.{left_by};
ghost use Rattle.flight_cache.specs.Calls.{GivesSteps, own_steps};
ghost use Rattle.flight_cache.specs.Answers.{IsAsked, IsHomeAsk, HasKeyValue};
ghost use Rattle.flight_cache.specs.Shards.{IsCacheOf, IsHome, IsShardOf, AreShardsOf, EachGives, EachHasGivenBack, EachIsLegal, EachBegins, EachGaveAsMuch};
ghost use Rattle.flight_cache.specs.Shards.{EachIsBelow, EachExtends, HasLowerOpen, HasNothing, HasLimits};
ghost use Rattle.flight_cache.specs.Shards.{min_cache_entries, count_sum, total_sum, sum_of_totals, each};
ghost use Rattle.flight_cache.specs.Shards.{both, at, with_at, part, hard_part, IsHardSetInEach};

use crate::made::{Made, shard_number};
use crate::pass::CachePass;
use crate::pins::{Asked, Pin, Ticket};
use crate::shard::{Shard, ShardPass};
use ass_num::{Mem, OutOfMemory};
use evict_core::{Counts, HardLimit, Totals};
use std::alloc::Global;
use std::marker::Model;
use std::sync::{Arc, Wait};

/// Values of keys, which threads ask for by `&`. Each key is in one of four shards.
pub struct Cache<M: Made> {
    pub(crate) first: Shard<M>,
    pub(crate) second: Shard<M>,
    pub(crate) third: Shard<M>,
    pub(crate) fourth: Shard<M>,
}

impl<M: Made> Model for Cache<M> {
    ghost use Rattle.flight_cache.specs.Shards.{CacheView, AreShardsOf};

    ghost Value = { CacheView M.Tag };

    ghost view = { λ c. record { shards = record { first = c.first; second = c.second; third = c.third; fourth = c.fourth }; tag = c.first.tag.tag.value } };

    ghost invariant = { λ c. AreShardsOf c.first.tag.tag.value (record { first = c.first; second = c.second; third = c.third; fourth = c.fourth }) };
}

/// The sums of two shards' counts.
fn count_sum(one: Counts, other: Counts) -> Counts
    ensures { result ≡ count_sum one other }
{
    Counts {
        hits: one.hits.saturating_add(other.hits),
        claims: one.claims.saturating_add(other.claims),
        fills: one.fills.saturating_add(other.fills),
        fails: one.fails.saturating_add(other.fails),
        crowded: one.crowded.saturating_add(other.crowded),
        evictions: one.evictions.saturating_add(other.evictions),
    }
}

/// The sums of two shards' totals.
fn sum(one: Totals, other: Totals) -> Totals
    ensures { result ≡ total_sum one other }
{
    Totals {
        entries: one.entries.saturating_add(other.entries),
        unpinned: one.unpinned.saturating_add(other.unpinned),
        pinned: one.pinned.saturating_add(other.pinned),
        budget: one.budget.saturating_add(other.budget),
        counts: count_sum(one.counts, other.counts),
    }
}

/// The shard of this number, with its part of both limits.
fn open_part<M: Made>(
    alloc: Global,
    tag: &M::Tag,
    number: u32,
    entries: u32,
    budget: u64,
) -> Mem<(Shard<M>, ShardPass<M>)>
    requires number { number < shard_count }
    requires least { min_cache_entries ≤ entries }
    requires most { entries ≤ max_entries }
    requires budget { budget ≤ max_budget }
    ensures shard { IfOk result (λ r. IsShardOf tag.now r.0 number) }
    ensures limits { IfOk result (λ r. (r.0.tag.entries ≡ part entries number) × (r.0.tag.budget ≡ part budget number)) }
    ensures pass { IfOk result (λ r. r.1 ≡ first_pass r.0) }
{
    let entries = (entries + number) / 4;
    let budget = (budget + u64::from(number)) / 4;
    Shard::open(alloc, tag, number, entries, budget)
}

/// The part of this shard in a hard limit.
fn hard_part(hard: Option<HardLimit>, number: u32) -> Option<HardLimit>
    requires number { number < shard_count }
    requires hard { IsHardLimit hard }
    ensures part { result ≡ hard_part hard number }
    ensures hard { IsHardLimit result }
{
    match hard {
        None => None,
        Some(HardLimit { cost, making }) => Some(HardLimit {
            cost: (cost + u64::from(number)) / 4,
            making,
        }),
    }
}

impl<M: Made> Cache<M> {
    /// No entries, and the first pass. Each shard gets its part of both limits.
    pub fn open(
        alloc: Global,
        tag: M::Tag,
        entries: u32,
        budget: u64,
    ) -> Mem<(Cache<M>, CachePass<M>)>
        requires least { min_cache_entries ≤ entries }
        requires most { entries ≤ max_entries }
        requires budget { budget ≤ max_budget }
        ensures tag { IfOk result (λ r. r.0.tag ≡ tag) }
        ensures shards { IfOk result (λ r. AreShardsOf tag r.0.shards) }
        ensures limits { IfOk result (λ r. HasLimits r.0.shards entries budget) }
        ensures pass { IfOk result (λ r. r.1 ≡ each first_pass r.0.shards) }
    {
        let (first, first_pass) = open_part(alloc, &tag, 0, entries, budget)?;
        let Ok((second, second_pass)) = open_part(alloc, &tag, 1, entries, budget) else {
            first.close(first_pass);
            return Err(OutOfMemory);
        };
        let Ok((third, third_pass)) = open_part(alloc, &tag, 2, entries, budget) else {
            first.close(first_pass);
            second.close(second_pass);
            return Err(OutOfMemory);
        };
        let Ok((fourth, fourth_pass)) = open_part(alloc, &tag, 3, entries, budget) else {
            first.close(first_pass);
            second.close(second_pass);
            third.close(third_pass);
            return Err(OutOfMemory);
        };
        Ok((
            Cache {
                first,
                second,
                third,
                fourth,
            },
            CachePass {
                first: first_pass,
                second: second_pass,
                third: third_pass,
                fourth: fourth_pass,
            },
        ))
    }

    /// The counts and sums of all shards, each held at the last value of its type.
    pub fn totals<R: Wait>(&self, rt: &R, pass: CachePass<M>) -> (CachePass<M>, Totals)
        requires { IsCacheOf self.now pass }
        ensures pass { EachGives M.Key.eq M.meaning self.now.shards pass result.0 (λ n. []) }
        ensures totals { result.1 ≡ sum_of_totals (both (λ shard after. totals_of (left_by M.Key.eq M.meaning shard.tag after.seen)) self.now.shards result.0) }
        ensures budget { result.1.unpinned ≤ result.1.budget }
    {
        let CachePass {
            first,
            second,
            third,
            fourth,
        } = pass;
        let (first, first_totals) = self.first.totals(rt, first);
        let (second, second_totals) = self.second.totals(rt, second);
        let (third, third_totals) = self.third.totals(rt, third);
        let (fourth, fourth_totals) = self.fourth.totals(rt, fourth);
        let totals = sum(
            sum(sum(first_totals, second_totals), third_totals),
            fourth_totals,
        );
        (
            CachePass {
                first,
                second,
                third,
                fourth,
            },
            totals,
        )
    }

    /// Asks for the key, and waits while its value is being made. Whoever has claims of this cache open asks only for
    /// keys of higher ranks, so that no two wait for one another.
    pub fn ask<R: Wait>(
        &self,
        rt: &R,
        alloc: Global,
        pass: CachePass<M>,
        key: &M::Key,
    ) -> (CachePass<M>, Asked<M>)
        requires cell { IsCacheOf self.now pass }
        requires order { HasLowerOpen M.Key.eq M.meaning self.now pass key.now }
        ensures asked { let n = shard_of (M.meaning.numbers key.now) in
            IsAsked M.Key.eq M.meaning (at self.now.shards n) (at pass n) key.now (at result.0 n) result.1 }
        ensures value { HasKeyValue M.meaning self.now.tag key.now result.1 }
        ensures home { let n = shard_of (M.meaning.numbers key.now) in IsHomeAsk (at self.now.shards n) result.1 }
        ensures others { let n = shard_of (M.meaning.numbers key.now) in result.0 ≡ with_at pass n (at result.0 n) }
    {
        let number = shard_number::<M>(key);
        let (own, others) = pass.apart(number);
        let (own, asked) = self.shard(number).ask(rt, alloc, own, key);
        (others.together(own), asked)
    }

    /// The value of the ticket's key is made: one `Arc` of it is kept, and the other goes into a pin. Where a hard limit has no
    /// room for it, it is spilled: it isn't kept, and the other `Arc` comes back. That is never where no hard limit was set.
    pub fn fill<R: Wait>(
        &self,
        rt: &R,
        pass: CachePass<M>,
        ticket: Ticket<M>,
        kept: Arc<M::Value>,
        pinned: Arc<M::Value>,
    ) -> (CachePass<M>, Result<Pin<M>, Arc<M::Value>>)
        requires cell { IsCacheOf self.now pass }
        requires own { IsHome M.meaning self.now ticket.key ticket.cell }
        requires open { let n = shard_of (M.meaning.numbers ticket.key) in has_open M.Key.eq (own_steps M.meaning (at self.now.shards n).tag (at pass n))
            ticket.key ≡ true }
        requires kept { arc_value kept ≡ M.meaning.made self.now.tag ticket.key }
        requires pinned { arc_value pinned ≡ M.meaning.made self.now.tag ticket.key }
        requires cost { M.meaning.cost (arc_value kept) ≤ max_cost }
        ensures fill { IfOk result.1 (λ pin. let n = shard_of (M.meaning.numbers ticket.key) in
            GivesSteps M.Key.eq M.meaning (at self.now.shards n) (at pass n) (at result.0 n)
            (Fill ticket.key (entry_cost M.meaning ticket.key (arc_value kept)) (arc_value kept) ∷ [])) }
        ensures others { let n = shard_of (M.meaning.numbers ticket.key) in result.0 ≡ with_at pass n (at result.0 n) }
        ensures pin { IfOk result.1 (λ pin. (pin.key ≡ ticket.key) × (pin.value ≡ arc_value pinned) × (pin.cell ≡ ticket.cell)) }
        ensures spilled { IfErr result.1 (λ value. let n = shard_of (M.meaning.numbers ticket.key) in
            GivesSteps M.Key.eq M.meaning (at self.now.shards n) (at pass n) (at result.0 n)
            (Spill ticket.key (entry_cost M.meaning ticket.key (arc_value kept)) ∷ [])) }
        ensures value { IfErr result.1 (λ value. arc_value value ≡ arc_value pinned) }
    {
        let number = ticket.shard();
        let (own, others) = pass.apart(number);
        let (own, filled) = self.shard(number).fill(rt, own, ticket, kept, pinned);
        (others.together(own), filled)
    }

    /// The value of the ticket's key isn't made.
    pub fn fail<R: Wait>(&self, rt: &R, pass: CachePass<M>, ticket: Ticket<M>) -> CachePass<M>
        requires cell { IsCacheOf self.now pass }
        requires own { IsHome M.meaning self.now ticket.key ticket.cell }
        requires open { let n = shard_of (M.meaning.numbers ticket.key) in has_open M.Key.eq (own_steps M.meaning (at self.now.shards n).tag (at pass n))
            ticket.key ≡ true }
        ensures fail { let n = shard_of (M.meaning.numbers ticket.key) in
            GivesSteps M.Key.eq M.meaning (at self.now.shards n) (at pass n) (at result n) (Fail ticket.key ∷ []) }
        ensures others { let n = shard_of (M.meaning.numbers ticket.key) in result ≡ with_at pass n (at result n) }
    {
        let number = ticket.shard();
        let (own, others) = pass.apart(number);
        let own = self.shard(number).fail(rt, own, ticket);
        others.together(own)
    }

    /// Gives a pin back.
    pub fn unpin<R: Wait>(&self, rt: &R, pass: CachePass<M>, pin: Pin<M>) -> CachePass<M>
        requires cell { IsCacheOf self.now pass }
        requires own { IsHome M.meaning self.now pin.key pin.cell }
        requires held { let n = shard_of (M.meaning.numbers pin.key) in 1 ≤ pins_left M.Key.eq (own_steps M.meaning (at self.now.shards n).tag (at pass n))
            pin.key }
        ensures unpin { let n = shard_of (M.meaning.numbers pin.key) in
            GivesSteps M.Key.eq M.meaning (at self.now.shards n) (at pass n) (at result n) (Unpin pin.key ∷ []) }
        ensures others { let n = shard_of (M.meaning.numbers pin.key) in result ≡ with_at pass n (at result n) }
    {
        let number = pin.shard();
        let (own, others) = pass.apart(number);
        let own = self.shard(number).unpin(rt, own, pin);
        others.together(own)
    }

    /// New limits: each shard gets its part of both. It needs no memory; what it takes keeps evicted values until others may
    /// have the turn.
    pub fn set_limits<R: Wait>(
        &self,
        rt: &R,
        alloc: Global,
        pass: CachePass<M>,
        entries: u32,
        budget: u64,
    ) -> CachePass<M>
        requires cell { IsCacheOf self.now pass }
        requires least { min_cache_entries ≤ entries }
        requires most { entries ≤ max_entries }
        requires budget { budget ≤ max_budget }
        ensures { EachGives M.Key.eq M.meaning self.now.shards pass result (λ n. Limits (part entries n) (part budget n) ∷ []) }
    {
        let CachePass {
            first,
            second,
            third,
            fourth,
        } = pass;
        CachePass {
            first: self
                .first
                .set_limits(rt, alloc, first, entries / 4, budget / 4),
            second: self
                .second
                .set_limits(rt, alloc, second, (entries + 1) / 4, (budget + 1) / 4),
            third: self
                .third
                .set_limits(rt, alloc, third, (entries + 2) / 4, (budget + 2) / 4),
            fourth: self
                .fourth
                .set_limits(rt, alloc, fourth, (entries + 3) / 4, (budget + 3) / 4),
        }
    }

    /// A hard limit of what all entries of this cache cost together, or none any more: each shard gets its part of the cost, and
    /// counts each that is being made as the limit says. A shard whose entries pass its part as they are keeps the limit that it
    /// had; then it is false. It takes no memory and evicts nothing.
    pub fn set_hard_limit<R: Wait>(
        &self,
        rt: &R,
        pass: CachePass<M>,
        hard: Option<HardLimit>,
    ) -> (CachePass<M>, bool)
        requires cell { IsCacheOf self.now pass }
        requires hard { IsHardLimit hard }
        ensures { IsHardSetInEach M.Key.eq M.meaning self.now.shards pass hard result.0 result.1 }
    {
        let CachePass {
            first,
            second,
            third,
            fourth,
        } = pass;
        let (first, first_set) = self.first.set_hard_limit(rt, first, hard_part(hard, 0));
        let (second, second_set) = self.second.set_hard_limit(rt, second, hard_part(hard, 1));
        let (third, third_set) = self.third.set_hard_limit(rt, third, hard_part(hard, 2));
        let (fourth, fourth_set) = self.fourth.set_hard_limit(rt, fourth, hard_part(hard, 3));
        let pass = CachePass {
            first,
            second,
            third,
            fourth,
        };
        (pass, first_set && second_set && third_set && fourth_set)
    }

    /// A new pass. The first one comes back alone where no number is left.
    pub fn split(&self, pass: CachePass<M>) -> Result<(CachePass<M>, CachePass<M>), CachePass<M>>
        requires cell { IsCacheOf self.now pass }
        requires first { pass.first.number ≡ 0 }
        ensures passes { IfOk result (λ r. (r.0 ≡ each split_pass pass) × (r.1 ≡ each new_pass pass)) }
        ensures room { OnOk result (pass.first.next < u32.MAX) }
        ensures refused { IfErr result (λ p. (pass.first.next ≡ u32.MAX) × (p ≡ pass)) }
        ensures empty { IfOk result (λ r. HasNothing M.meaning self.now.shards r.1) }
        ensures below { IfOk result (λ r. EachIsBelow (λ p. p.number) r.1 × EachIsBelow (λ p. p.next) r.0) }
    {
        let CachePass {
            first,
            second,
            third,
            fourth,
        } = pass;
        let (first, new_first) = match self.first.split(first) {
            Ok(two) => two,
            Err(first) => {
                return Err(CachePass {
                    first,
                    second,
                    third,
                    fourth,
                });
            }
        };
        let (second, new_second) = self.second.split_with_room(second);
        let (third, new_third) = self.third.split_with_room(third);
        let (fourth, new_fourth) = self.fourth.split_with_room(fourth);
        Ok((
            CachePass {
                first,
                second,
                third,
                fourth,
            },
            CachePass {
                first: new_first,
                second: new_second,
                third: new_third,
                fourth: new_fourth,
            },
        ))
    }

    /// Spends the other pass, which holds no pin and has no claim open.
    pub fn join(&self, pass: CachePass<M>, other: CachePass<M>) -> CachePass<M>
        requires cells { IsCacheOf self.now pass × IsCacheOf self.now other }
        requires first { pass.first.number ≡ 0 }
        requires given { EachHasGivenBack M.Key.eq M.meaning self.now.shards other }
        ensures pass { result ≡ both joined_pass pass other }
        ensures begins { EachBegins pass result }
        ensures begins_other { EachBegins other result }
        ensures own { EachGaveAsMuch M.meaning self.now.shards pass result }
        ensures itself { EachExtends result }
    {
        let CachePass {
            first,
            second,
            third,
            fourth,
        } = pass;
        let CachePass {
            first: other_first,
            second: other_second,
            third: other_third,
            fourth: other_fourth,
        } = other;
        CachePass {
            first: self.first.join(first, other_first),
            second: self.second.join(second, other_second),
            third: self.third.join(third, other_third),
            fourth: self.fourth.join(fourth, other_fourth),
        }
    }

    /// Spends the last pass.
    pub fn close(self, pass: CachePass<M>)
        requires cell { IsCacheOf self pass }
        requires first { pass.first.number ≡ 0 }
    {
        let Cache {
            first,
            second,
            third,
            fourth,
        } = self;
        let CachePass {
            first: first_pass,
            second: second_pass,
            third: third_pass,
            fourth: fourth_pass,
        } = pass;
        first.close(first_pass);
        second.close(second_pass);
        third.close(third_pass);
        fourth.close(fourth_pass);
    }

    /// What the pass has seen of each shard is legal.
    pub fn proof_legal(&self, pass: &CachePass<M>)
        requires { IsCacheOf self.now pass.now }
        ensures { EachIsLegal M.Key.eq M.meaning self.now.shards pass.now }
    {
        self.first.proof_legal(&pass.first);
        self.second.proof_legal(&pass.second);
        self.third.proof_legal(&pass.third);
        self.fourth.proof_legal(&pass.fourth);
    }

    /// The shards have their numbers, and the cache's tag.
    pub fn proof_numbered(&self)
        ensures { AreShardsOf self.now.tag self.now.shards }
    {
        let _ = &self.first;
    }

    /// The shard of this number.
    fn shard(&self, number: u32) -> &Shard<M>
        requires { number < shard_count }
        ensures shard { result.now ≡ at self.now.shards number }
        ensures number { IsShardOf self.now.tag result.now number }
    {
        match number {
            0 => &self.first,
            1 => &self.second,
            2 => &self.third,
            _ => &self.fourth,
        }
    }
}

//! What actors do with the caches.
ghost use Rattle.std.specs.Prelude.{◌≡◌, ◌+◌, ◌≤◌, ◌<◌, IfOk, OnErr, OnOk};
ghost use Rattle.std.specs.Arc.{arc_value};
ghost use Rattle.evict_core.specs.Machine.{max_budget, max_entries};
ghost use Rattle.flight_cache.specs.Meaning.{shard_count};
ghost use Rattle.mask_keys.specs.Outlines.{IsFontSet, glyph_counts};
ghost use Rattle.world_core.specs.Caches.{asked, failed, filled, unpinned_at, with_limits};
ghost use Rattle.world_core.specs.Holdings as holdings;
ghost use Rattle.world_core.specs.Keys as keys;
ghost use Rattle.world_core.specs.Keys.{IsValidWorldKey, equal_world_keys, world_meaning};
ghost use Rattle.world_core.specs.Replies as replies;
ghost use Rattle.world_core.specs.States.{opening_world, with_kind, with_part};
ghost use Rattle.world_core.specs.Steps as rule;
ghost use Rattle.world_core.specs.Tellings.{AreWorldCaches};

use crate::steps::Reply;
use crate::{
    ActorAnswer, ActorCaches, WorldKey, WorldMade, first_shard, holding_place, made_value,
    world_shard,
};
use ass_num::Mem;
use bdf_font::FontSet;
use cache_kinds::entry_limit;
use std::alloc::Global;
use std::sync::Arc;
use test_hook::ValueKind;

/// The twelve shards without entries. Each kind has four, with their parts of the budget and of the entries that go with it.
pub(crate) fn open_caches(
    alloc: Global,
    fonts: &Arc<FontSet>,
    budget: u64,
) -> Mem<ActorCaches<WorldMade>>
    requires { budget ≤ max_budget }
    ensures { IfOk result (λ caches. caches ≡ (opening_world fonts.now budget).caches) }
{
    let mut caches = ActorCaches::new(alloc, fonts);
    add_kind(alloc, &mut caches, budget)?;
    add_kind(alloc, &mut caches, budget)?;
    add_kind(alloc, &mut caches, budget)?;
    Ok(caches)
}

/// The four shards of a kind.
fn add_kind(alloc: Global, caches: &mut ActorCaches<WorldMade>, budget: u64) -> Mem<()>
    requires { budget ≤ max_budget }
    ensures { OnOk result (caches.new ≡ with_kind budget caches.old) }
{
    add_part(alloc, caches, budget, 0)?;
    add_part(alloc, caches, budget, 1)?;
    add_part(alloc, caches, budget, 2)?;
    add_part(alloc, caches, budget, 3)
}

/// One of the shards of a kind.
fn add_part(alloc: Global, caches: &mut ActorCaches<WorldMade>, budget: u64, i: u32) -> Mem<()>
    requires budget { budget ≤ max_budget }
    requires place { i < shard_count }
    ensures { OnOk result (caches.new ≡ with_part budget i caches.old) }
{
    let entries = (entry_limit(budget) + i) / 4;
    caches.add_shard(alloc, entries, (budget + u64::from(i)) / 4)
}

/// The reply of what the caches answered.
fn reply_of(answer: ActorAnswer) -> Reply
    ensures { result ≡ replies.reply_of answer }
{
    match answer {
        ActorAnswer::Hit => Reply::Hit,
        ActorAnswer::Claim => Reply::Claim,
        ActorAnswer::Flying(maker) => Reply::Flying(maker),
        ActorAnswer::Crowded => Reply::Crowded,
    }
}

/// An actor asks for a key in its own shard.
pub(crate) fn ask(
    alloc: Global,
    caches: &mut ActorCaches<WorldMade>,
    fonts: &Arc<FontSet>,
    actor: u32,
    key: &WorldKey,
) -> Mem<Reply>
    requires caches { AreWorldCaches fonts.now caches.old }
    requires key { IsValidWorldKey (glyph_counts (arc_value fonts.now).fonts) key.now }
    ensures reply { IfOk result (λ r. replies.IsAskReply caches.old actor key.now r) }
    ensures state { OnOk result (caches.new ≡ asked equal_world_keys (rule.held_key actor key.now) caches.old) }
    ensures caches { AreWorldCaches fonts.now caches.new }
    ensures err { OnErr result (caches.new ≡ caches.old) }
{
    let answer = caches.ask(alloc, actor, world_shard(key), key)?;
    Ok(reply_of(answer))
}

/// An actor spends its i-th ticket for the value of its key.
pub(crate) fn fill(
    alloc: Global,
    caches: &mut ActorCaches<WorldMade>,
    fonts: &Arc<FontSet>,
    actor: u32,
    i: usize,
) -> Mem<Reply>
    requires fonts { IsFontSet (arc_value fonts.now).fonts }
    requires caches { AreWorldCaches fonts.now caches.old }
    ensures reply { IfOk result (λ r. r ≡ replies.done_where (holdings.holding_place actor i caches.old.tickets)) }
    ensures state { OnOk result (caches.new ≡ rule.at_place caches.old.tickets (filled equal_world_keys world_meaning)
        (holdings.holding_place actor i caches.old.tickets) caches.old) }
    ensures caches { AreWorldCaches fonts.now caches.new }
    ensures err { OnErr result (caches.new ≡ caches.old) }
{
    let tickets = caches.tickets();
    let Some(place) = holding_place(tickets, actor, i) else {
        return Ok(Reply::Idle);
    };
    let value = made_value(alloc, fonts, &tickets[place].key)?;
    caches.fill(place, Arc::new(alloc, value)?)?;
    Ok(Reply::Done)
}

/// An actor spends its i-th ticket for nothing.
pub(crate) fn fail(
    caches: &mut ActorCaches<WorldMade>,
    fonts: &Arc<FontSet>,
    actor: u32,
    i: usize,
) -> Reply
    requires { AreWorldCaches fonts.now caches.old }
    ensures reply { result ≡ replies.done_where (holdings.holding_place actor i caches.old.tickets) }
    ensures state { caches.new ≡ rule.at_place caches.old.tickets (failed equal_world_keys) (holdings.holding_place actor i caches.old.tickets) caches.old }
    ensures caches { AreWorldCaches fonts.now caches.new }
{
    let Some(place) = holding_place(caches.tickets(), actor, i) else {
        return Reply::Idle;
    };
    caches.fail(place);
    Reply::Done
}

/// An actor gives back its i-th pin.
pub(crate) fn unpin(
    caches: &mut ActorCaches<WorldMade>,
    fonts: &Arc<FontSet>,
    actor: u32,
    i: usize,
) -> Reply
    requires { AreWorldCaches fonts.now caches.old }
    ensures reply { result ≡ replies.done_where (holdings.holding_place actor i caches.old.pins) }
    ensures state { caches.new ≡ rule.at_place caches.old.pins (unpinned_at equal_world_keys) (holdings.holding_place actor i caches.old.pins) caches.old }
    ensures caches { AreWorldCaches fonts.now caches.new }
{
    let Some(place) = holding_place(caches.pins(), actor, i) else {
        return Reply::Idle;
    };
    caches.unpin(place);
    Reply::Done
}

/// A shard of a kind gets new limits.
pub(crate) fn set_limits(
    caches: &mut ActorCaches<WorldMade>,
    fonts: &Arc<FontSet>,
    kind: ValueKind,
    shard: u32,
    entries: u32,
    budget: u64,
)
    requires caches { AreWorldCaches fonts.now caches.old }
    requires shard { shard < shard_count }
    requires least { 1 ≤ entries }
    requires most { entries ≤ max_entries }
    requires budget { budget ≤ max_budget }
    ensures state { caches.new ≡ with_limits equal_world_keys (keys.first_shard kind + shard) entries budget caches.old }
    ensures caches { AreWorldCaches fonts.now caches.new }
{
    caches.set_limits(first_shard(kind) + shard as usize, entries, budget);
}

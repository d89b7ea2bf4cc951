//! The laws of shards and of what calls make of a pass. The functions do nothing: their contracts are the laws.
ghost use Rattle.flight_cache.specs.Laws.{ShardsStayInBudget, ShardsStayInLimit, HistoryInBudget};
ghost use Rattle.flight_cache.specs.Laws.{HistoryInLimit, IdleInBudget, ShardsClaimOnce, ShardsFillOnce};
ghost use Rattle.flight_cache.specs.Laws.{ShardsStayInHardLimit, HistoryInHardLimit, HardIsUnset, HardIsSet, NoneIsSpilled, SpillsHaveNoRoom};
ghost use Rattle.flight_cache.specs.Laws.{ReadyAreMade, FliesWhereOpen, ShardPinsAreHeld, ShardsKeepHeld, HitHolds, FillHolds, UnpinGives, PinAllHolds};
ghost use Rattle.flight_cache.specs.Laws.{ClaimOpens, AskIsAnswered, PlacesAreInShard, PinnedAllHolds, NothingIsGivenBack, GivenBackAgain, OneGivesBack};
ghost use Rattle.flight_cache.specs.Laws.{GivesFollow, GivesOwnSteps, EachIsLater, GivesItself, NothingHolds, RefusedForOneCause, LimitsAreOpened};
ghost use Rattle.flight_cache.specs.Laws.{LimitsAreSet, PartsAddUp, CallIsLater, LaterIsLater, StaysOfCache, FirstIsWhole, StaysWhole, JoinedIsWhole};
ghost use Rattle.flight_cache.specs.Laws.{WholeButNone, SplitIsWholeBut, JoinIsWholeBut, LaterIsWholeBut, WholeKnowsAll};

use crate::made::Made;

/// The single-fill law of every history that a shard can have: a key is claimed again only after its fail or its
/// eviction, and filled again only after its eviction.
pub fn single_fill<M: Made>()
    ensures claims { ShardsClaimOnce M.Key.eq M.meaning }
    ensures fills { ShardsFillOnce M.Key.eq M.meaning }
{}

/// The value law: each ready value is that of its key.
pub fn values<M: Made>()
    ensures { ReadyAreMade M.Key.eq M.meaning }
{}

/// The budget law: the entries that no pin holds cost at most the shard's budget, whenever the turn is home and after
/// every history; so an entry that costs more alone isn't kept once no pin holds it.
pub fn budget<M: Made>()
    ensures home { ShardsStayInBudget M M.Key.eq M.meaning }
    ensures history { HistoryInBudget M.Key.eq M.meaning }
    ensures alone { IdleInBudget M.Key.eq M.meaning }
{}

/// The limit law: a list that is longer than the shard's limit has no entry to evict.
pub fn limit<M: Made>()
    ensures home { ShardsStayInLimit M M.Key.eq M.meaning }
    ensures history { HistoryInLimit M.Key.eq M.meaning }
{}

/// The hard law: where a hard limit is set, pinned, unpinned and unmade values cost at most the shard's part of it together, what
/// is being made at what the limit has for one, whenever the turn is home and after every history. There is none where no step
/// set one, else the last that was set. A value is spilled only where it has no room, so never where none was set.
pub fn hard<M: Made>()
    ensures home { ShardsStayInHardLimit M M.Key.eq M.meaning }
    ensures history { HistoryInHardLimit M.Key.eq M.meaning }
    ensures unset { HardIsUnset M.Key.eq M.meaning }
    ensures set { HardIsSet M.Key.eq M.meaning }
    ensures spills { SpillsHaveNoRoom M.Key.eq M.meaning }
    ensures none { NoneIsSpilled M.Key.eq M.meaning }
{}

/// The pin law: who makes a key has its claim open, the pins of a key are those that all numbers hold, and what is held
/// isn't evicted.
pub fn pins<M: Made>()
    ensures making { FliesWhereOpen M.Key.eq M.meaning }
    ensures counted { ShardPinsAreHeld M.Key.eq M.meaning }
    ensures kept { ShardsKeepHeld M.Key.eq M.meaning }
{}

/// What a call makes of the pins and of the open claims of its pass.
pub fn calls<M: Made>()
    ensures answer { AskIsAnswered M.Key.eq M.meaning }
    ensures hit { HitHolds M.Key.eq M.meaning }
    ensures claim { ClaimOpens M.Key.eq M.meaning }
    ensures fill { FillHolds M.Key.eq M.meaning }
    ensures unpin { UnpinGives M.Key.eq M.meaning }
    ensures pin_all { PinAllHolds M.Key.eq M.meaning }
    ensures places { PlacesAreInShard M.Key.eq M.meaning }
    ensures pinned { PinnedAllHolds M.Key.eq M.meaning }
    ensures nothing { NothingHolds M.Key.eq M.meaning }
{}

/// A refusal of `try_pin_all` is for one cause: no two of the refusals that aren't for lack of memory hold of the same
/// call.
pub fn refusals<M: Made>()
    ensures { RefusedForOneCause M.Key.eq M.meaning }
{}

/// The limits of what a shard's history leaves are those of its last entry that sets some, or else those that the shard
/// was opened with; and the parts of a limit, one for each shard, add up to it.
pub fn limits<M: Made>()
    ensures opened { LimitsAreOpened M.Key.eq M.meaning }
    ensures set { LimitsAreSet M.Key.eq M.meaning }
    ensures parts { PartsAddUp }
{}

/// A pass that gave nothing has nothing to give back, and has nothing again after steps that give back what they take.
pub fn given_back<M: Made>()
    ensures nothing { NothingIsGivenBack M.Key.eq M.meaning }
    ensures again { GivenBackAgain M.Key.eq M.meaning }
    ensures one { OneGivesBack M.Key.eq M.meaning }
{}

/// Calls in a row: their steps add up, and what they leave is a later pass, which stays one of its cache.
pub fn calls_in_a_row<M: Made>()
    ensures gives { GivesFollow M.Key.eq M.meaning }
    ensures own { GivesOwnSteps M.Key.eq M.meaning }
    ensures each { EachIsLater M.Key.eq M.meaning }
    ensures one { CallIsLater M.Key M.Tag }
    ensures two { LaterIsLater M.Key M.Tag }
    ensures cache { StaysOfCache M.Key M.Tag }
{}

/// The first pass is whole, and is so again once a pass that was split off it is joined, where no other is out
/// meanwhile. A whole pass knows that every entry which it has seen was given by itself or by a joined one. What it has
/// seen extends it after a join and after a turn.
pub fn whole_passes<M: Made>()
    ensures first { FirstIsWhole M.Key M.Tag }
    ensures later { StaysWhole M.Key M.Tag }
    ensures joined { JoinedIsWhole M.Key M.Tag }
    ensures itself { GivesItself M.Key.eq M.meaning }
    ensures family { WholeKnowsAll M.Key M.Tag }
{}

/// Several passes may be out at once. A split has one number more that isn't joined, a join one less, and calls that
/// do neither as many. The pass is whole where none is left.
pub fn passes_apart<M: Made>()
    ensures none { WholeButNone M.Key M.Tag }
    ensures split { SplitIsWholeBut M.Key M.Tag }
    ensures join { JoinIsWholeBut M.Key M.Tag }
    ensures later { LaterIsWholeBut M.Key M.Tag }
{}

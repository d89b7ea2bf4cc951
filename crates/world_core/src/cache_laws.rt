//! The laws of caches that actors share. The functions do nothing: their contracts are the laws.
ghost use Rattle.world_core.specs.CacheHistories.{OpenedStand, AskedStand, FilledStand, FailedStand, UnpinnedStand, LimitedStand, TicketsAreOfMaking};
ghost use Rattle.world_core.specs.CacheHistories.{MakersHaveTickets, PinsAreActors, EachInBudget, EachInLimit, ReadyValuesAreMade};

use flight_cache::Made;

/// Which histories the shards stand for: none when they are opened, and after each step those with one entry more, which
/// is the step by its actor.
pub fn histories<M: Made>()
    ensures opened { OpenedStand M.Key.eq M.meaning }
    ensures asked { AskedStand M.Key.eq M.meaning }
    ensures filled { FilledStand M.Key.eq M.meaning }
    ensures failed { FailedStand M.Key.eq M.meaning }
    ensures unpinned { UnpinnedStand M.Key.eq M.meaning }
    ensures limited { LimitedStand M.Key.eq M.meaning }
{}

/// What actors hold: a key that is being made has one ticket, its maker's, and the pins of a ready key are those that
/// actors have.
pub fn held<M: Made>()
    ensures tickets { TicketsAreOfMaking M.Key.eq M.meaning }
    ensures makers { MakersHaveTickets M.Key.eq M.meaning }
    ensures pins { PinsAreActors M.Key.eq M.meaning }
{}

/// Each shard is within its budget and its limit, and each ready value is that of its key.
pub fn kept<M: Made>()
    ensures budget { EachInBudget M.Key.eq M.meaning }
    ensures limit { EachInLimit M.Key.eq M.meaning }
    ensures values { ReadyValuesAreMade M.Key.eq M.meaning }
{}

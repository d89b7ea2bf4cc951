//! What a call that pins several keys holds of each shard.
ghost use Rattle.std.specs.Prelude.{◌≡◌, [], ℕ, ◌≤◌, ◌<◌, ◌+◌, true, map, take, length, option_map, IfOk, IfErr, IfSome, IfNone};
ghost use Rattle.std.specs.Arc.{arc_value};
ghost use Rattle.turn_cell.specs.Passes.{IsOf};
ghost use Rattle.evict_core.specs.Machine.{HitsEach, hit_all};
ghost use Rattle.evict_core.specs.History.{times_named};
ghost use Rattle.flight_cache.specs.Meaning.{shard_count};
ghost use Rattle.flight_cache.specs.Shards.{IsCacheOf, at};
ghost use Rattle.flight_cache.specs.Pinning.{IsTurnOut, keys_in, shards_of};
ghost use Rattle.flight_cache.specs.Holds.{IsHeld, IsHoldOf, IsLost, IsOneLost, CanPin, IsPassPinned, AreHeld, AreHoldsOf, CanPinAll, ArePassesPinned};
ghost use Rattle.flight_cache.specs.Holds.{IsRefusalOf, pass_back, passes_back, pins_at, maker_at, unready, held_value, four_of};

use crate::cache::Cache;
use crate::kept::{Entry, Kept};
use crate::made::Made;
use crate::pass::CachePass;
use crate::pinning::PinRefusal;
use crate::shard::{Shard, ShardPass};
use ass_num::{Mem, OutOfMemory};
use std::snapshot::Snapshot;
use std::sync::Arc;
use turn_cell::Turn;

/// What a try for a turn is shown. It is made in here alone, where nothing has a handle to wait with.
#[derive(Drop)]
pub(crate) struct Trying {
    _here: (),
}

/// The turn of a shard, or its pass where no key is in it.
pub(crate) enum Hold<M: Made> {
    Turn(Turn<Kept<M>>),
    Pass(ShardPass<M>),
}

/// What is held of each shard.
pub(crate) struct Holds<M: Made> {
    first: Hold<M>,
    second: Hold<M>,
    third: Hold<M>,
    fourth: Hold<M>,
}

impl<M: Made> Hold<M> {
    /// The pins of a key whose value is ready.
    fn pins_of(&self, key: &M::Key) -> Option<u32>
        ensures { result ≡ pins_at M.Key.eq self.now key.now }
    {
        match self {
            Hold::Turn(turn) => turn.value().entries.pins_of(key),
            Hold::Pass(_) => None,
        }
    }

    /// Why a key without pins can't be pinned: somebody makes it, or nobody does.
    fn unready(&self, place: usize, key: &M::Key) -> PinRefusal
        ensures { result ≡ unready place (maker_at M.Key.eq self.now key.now) }
    {
        match self {
            Hold::Turn(turn) => match turn.value().entries.maker_of(key) {
                Some(_) => PinRefusal::Making(place),
                None => PinRefusal::NotReady(place),
            },
            Hold::Pass(_) => PinRefusal::NotReady(place),
        }
    }

    /// The value of a key whose value is ready.
    fn value_of(&self, key: &M::Key) -> Mem<Option<Arc<M::Value>>>
        ensures { IfOk result (λ o. option_map arc_value o ≡ held_value M.Key.eq self.now key.now) }
    {
        match self {
            Hold::Turn(turn) => turn.value().entries.value_of(key),
            Hold::Pass(_) => Ok(None),
        }
    }
}

impl<M: Made> Shard<M> {
    /// Tries once for the turn where it is wanted.
    fn try_hold(&self, pass: ShardPass<M>, shards: &Vec<u32>) -> Result<Hold<M>, ShardPass<M>>
        requires { IsOf self.now pass }
        ensures held { IfOk result (IsHoldOf M.Key.eq M.meaning shards.now.items self.now pass) }
        ensures out { IfErr result (IsLost shards.now.items self.now pass) }
    {
        if !shards.contains(&self.number) {
            return Ok(Hold::Pass(pass));
        }
        match self.try_take(&Trying { _here: () }, pass) {
            Ok(turn) => Ok(Hold::Turn(turn)),
            Err(pass) => Err(pass),
        }
    }

    /// Gives back what is held, without an entry.
    fn let_go(&self, hold: Hold<M>) -> ShardPass<M>
        requires { IsHeld M.Key.eq M.meaning self.now hold }
        ensures { result ≡ pass_back hold }
    {
        match hold {
            Hold::Turn(turn) => self.give(turn, None),
            Hold::Pass(pass) => pass,
        }
    }

    /// A pin more of each key that is in the shard, for each of its places.
    fn pin_keys(&self, turn: &mut Turn<Kept<M>>, keys: &Vec<M::Key>, shards: &Vec<u32>)
        requires shards { shards.now.items ≡ shards_of M.meaning keys.now.items }
        requires ready { HitsEach M.Key.eq turn.old.value.entries (keys_in M.meaning self.now keys.now.items) }
        ensures { turn.new ≡ record turn.old {
          value = record
              { entries = hit_all M.Key.eq turn.old.value.entries (keys_in M.meaning self.now keys.now.items) };
        } }
    {
        for i in 0..keys.len() {
            if shards[i] == self.number {
                turn.value_mut().entries.pin(&keys[i]);
            }
        }
    }

    /// Pins the keys of this shard, and gives its turn back with that entry.
    fn pin_all(&self, hold: Hold<M>, keys: &Vec<M::Key>, shards: &Vec<u32>) -> ShardPass<M>
        requires held { IsHeld M.Key.eq M.meaning self.now hold }
        requires shards { shards.now.items ≡ shards_of M.meaning keys.now.items }
        requires ready { CanPin M.Key.eq M.meaning self.now keys.now.items hold }
        ensures { IsPassPinned M.Key.eq M.meaning self.now keys.now.items hold result }
    {
        match hold {
            Hold::Turn(turn) => {
                let mut turn = turn;
                self.pin_keys(&mut turn, keys, shards);
                self.give(turn, Some(Entry::PinAll(Snapshot::of(keys))))
            }
            Hold::Pass(pass) => pass,
        }
    }
}

/// How many of the first keys are this one.
fn places<K: Eq>(keys: &Vec<K>, count: usize, key: &K) -> usize
    requires { count ≤ length keys.now.items }
    ensures { result ≡ times_named K.eq key.now (take count keys.now.items) }
{
    let mut places = 0;
    for i in 0..count {
        if *key == keys[i] {
            places += 1;
        }
    }
    places
}

/// The turns of two shards where they are wanted, one after the other. Where the second is out, the first is given back.
fn hold_both<M: Made>(
    shard: &Shard<M>,
    next: &Shard<M>,
    pass: ShardPass<M>,
    next_pass: ShardPass<M>,
    shards: &Vec<u32>,
) -> Result<(Hold<M>, Hold<M>), (ShardPass<M>, ShardPass<M>)>
    requires { IsOf shard.now pass × IsOf next.now next_pass }
    ensures held { IfOk result (λ r. IsHoldOf M.Key.eq M.meaning shards.now.items shard.now pass r.0
        × IsHoldOf M.Key.eq M.meaning shards.now.items next.now next_pass r.1) }
    ensures out { IfErr result (λ r. IsOneLost M.Key.eq M.meaning shards.now.items shard.now next.now pass next_pass r.0 r.1) }
{
    match shard.try_hold(pass, shards) {
        Ok(hold) => match next.try_hold(next_pass, shards) {
            Ok(next_hold) => Ok((hold, next_hold)),
            Err(next_pass) => Err((shard.let_go(hold), next_pass)),
        },
        Err(pass) => Err((pass, next_pass)),
    }
}

impl<M: Made> Holds<M> {
    /// What is held of a shard.
    fn of(&self, shard: u32) -> &Hold<M>
        requires { shard < shard_count }
        ensures { result.now ≡ at (four_of self.now) shard }
    {
        match shard {
            0 => &self.first,
            1 => &self.second,
            2 => &self.third,
            _ => &self.fourth,
        }
    }
}

impl<M: Made> Cache<M> {
    /// The first key that can't be pinned. The places before it that name it count as pins.
    pub(crate) fn refusal(
        &self,
        holds: &Holds<M>,
        keys: &Vec<M::Key>,
        shards: &Vec<u32>,
    ) -> Option<PinRefusal>
        requires { shards.now.items ≡ shards_of M.meaning keys.now.items }
        ensures none { IfNone result (CanPinAll M.Key.eq M.meaning self.now keys.now.items holds.now) }
        ensures some { IfSome result (IsRefusalOf M.Key.eq M.meaning self.now keys.now.items holds.now) }
    {
        self.proof_numbered();
        for i in 0..keys.len() {
            let key = &keys[i];
            let hold = holds.of(shards[i]);
            let Some(pins) = hold.pins_of(key) else {
                return Some(hold.unready(i, key));
            };
            let room = (u32::MAX - pins) as usize;
            if room <= i && room <= places(keys, i, key) {
                return Some(PinRefusal::PinsFull(i));
            }
        }
        None
    }

    /// The value of each key, in a list that has none yet.
    pub(crate) fn values(
        &self,
        spare: Vec<Arc<M::Value>>,
        holds: &Holds<M>,
        keys: &Vec<M::Key>,
        shards: &Vec<u32>,
    ) -> Mem<Vec<Arc<M::Value>>>
        requires spare { spare.items ≡ [] }
        requires held { AreHeld M.Key.eq M.meaning self.now holds.now }
        requires shards { shards.now.items ≡ shards_of M.meaning keys.now.items }
        ensures { IfOk result (λ values. map arc_value values.items ≡ map (M.meaning.made self.now.tag) keys.now.items) }
    {
        let mut values = spare;
        self.proof_numbered();
        for i in 0..keys.len() {
            let Some(value) = holds.of(shards[i]).value_of(&keys[i])? else {
                return Err(OutOfMemory);
            };
            values.push(value)?;
        }
        Ok(values)
    }

    /// The turns of the shards that are named, in ascending order. Where one is out, those before it are given back.
    pub(crate) fn try_hold(
        &self,
        pass: CachePass<M>,
        shards: &Vec<u32>,
    ) -> Result<Holds<M>, CachePass<M>>
        requires { IsCacheOf self.now pass }
        ensures held { IfOk result (AreHoldsOf M.Key.eq M.meaning shards.now.items self.now pass) }
        ensures out { IfErr result (λ after. (n : ℕ) × IsTurnOut M.Key.eq M.meaning self.now pass shards.now.items after n) }
    {
        let CachePass {
            first,
            second,
            third,
            fourth,
        } = pass;
        match hold_both(&self.first, &self.second, first, second, shards) {
            Ok((first, second)) => {
                match hold_both(&self.third, &self.fourth, third, fourth, shards) {
                    Ok((third, fourth)) => Ok(Holds {
                        first,
                        second,
                        third,
                        fourth,
                    }),
                    Err((third, fourth)) => Err(CachePass {
                        first: self.first.let_go(first),
                        second: self.second.let_go(second),
                        third,
                        fourth,
                    }),
                }
            }
            Err((first, second)) => Err(CachePass {
                first,
                second,
                third,
                fourth,
            }),
        }
    }

    /// Gives back what is held, without an entry.
    pub(crate) fn let_go(&self, holds: Holds<M>) -> CachePass<M>
        requires { AreHeld M.Key.eq M.meaning self.now holds }
        ensures { result ≡ passes_back holds }
    {
        let Holds {
            first,
            second,
            third,
            fourth,
        } = holds;
        CachePass {
            first: self.first.let_go(first),
            second: self.second.let_go(second),
            third: self.third.let_go(third),
            fourth: self.fourth.let_go(fourth),
        }
    }

    /// Pins the keys, each in its shard.
    pub(crate) fn pin_all(
        &self,
        holds: Holds<M>,
        keys: &Vec<M::Key>,
        shards: &Vec<u32>,
    ) -> CachePass<M>
        requires held { AreHeld M.Key.eq M.meaning self.now holds }
        requires shards { shards.now.items ≡ shards_of M.meaning keys.now.items }
        requires ready { CanPinAll M.Key.eq M.meaning self.now keys.now.items holds }
        ensures { ArePassesPinned M.Key.eq M.meaning self.now keys.now.items holds result }
    {
        let Holds {
            first,
            second,
            third,
            fourth,
        } = holds;
        CachePass {
            first: self.first.pin_all(first, keys, shards),
            second: self.second.pin_all(second, keys, shards),
            third: self.third.pin_all(third, keys, shards),
            fourth: self.fourth.pin_all(fourth, keys, shards),
        }
    }
}

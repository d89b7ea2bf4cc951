//! Pins of several keys at once, without waiting.
ghost use Rattle.std.specs.Prelude.{◌≡◌, ◌≤◌, [], length, map, IfOk, IfErr, vec_capacity, vec_len};
ghost use Rattle.std.specs.Arc.{arc_value};
ghost use Rattle.flight_cache.specs.Shards.{IsCacheOf, at};
ghost use Rattle.flight_cache.specs.Pinning.{GivesNothing, IsPinnedAll, IsRefused, shards_of};

use crate::cache::Cache;
use crate::made::{Made, shard_number};
use crate::pass::CachePass;
use crate::pins::Pin;
use crate::shard::ShardPass;
use ass_num::{Mem, OutOfMemory};
use std::alloc::Global;
use std::snapshot::Snapshot;
use std::sync::Arc;

/// Why keys weren't pinned: a shard's turn is out; the key at a place isn't there, so that its value is still to be made; it is
/// being made; it has all its pins; or memory ran out.
#[derive(Clone, Copy, Debug, PartialEq, Eq)]
pub enum PinRefusal {
    TurnOut,
    NotReady(usize),
    Making(usize),
    PinsFull(usize),
    OutOfMemory,
}

impl<M: Made> Cache<M> {
    /// Pins all these keys, or none. It tries once for the turn of each shard that has one of them, and waits for
    /// nobody. A refusal gives all turns back without an entry. Its lists are made before it tries for a turn.
    pub fn try_pin_all(
        &self,
        alloc: Global,
        pass: CachePass<M>,
        keys: Vec<M::Key>,
    ) -> (CachePass<M>, Result<Vec<Pin<M>>, PinRefusal>)
        requires { IsCacheOf self.now pass }
        ensures pinned { IfOk result.1 (λ pins. IsPinnedAll M.Key.eq M.meaning self.now pass keys.items result.0 pins.items) }
        ensures refused { IfErr result.1 (IsRefused M.Key.eq M.meaning self.now pass keys.items result.0) }
        ensures nothing { IfErr result.1 (λ refusal. GivesNothing pass result.0) }
    {
        let Ok(shards) = shard_numbers::<M>(alloc, &keys) else {
            return (pass, Err(PinRefusal::OutOfMemory));
        };
        let Ok(spare) = Vec::with_capacity(alloc, keys.len()) else {
            return (pass, Err(PinRefusal::OutOfMemory));
        };
        let Ok(room) = room_for::<M>(alloc, keys.len()) else {
            return (pass, Err(PinRefusal::OutOfMemory));
        };
        self.pin_with(pass, keys, &shards, spare, room)
    }

    /// The same, where there is room for the values and the pins: no list is made while turns are held.
    fn pin_with(
        &self,
        pass: CachePass<M>,
        keys: Vec<M::Key>,
        shards: &Vec<u32>,
        spare: Vec<Arc<M::Value>>,
        room: Vec<Pin<M>>,
    ) -> (CachePass<M>, Result<Vec<Pin<M>>, PinRefusal>)
        requires cell { IsCacheOf self.now pass }
        requires shards { shards.now.items ≡ shards_of M.meaning keys.items }
        requires spare { spare.items ≡ [] }
        requires empty { room.items ≡ [] }
        requires len { vec_len room ≡ 0 }
        requires room { length keys.items ≤ vec_capacity room }
        ensures pinned { IfOk result.1 (λ pins. IsPinnedAll M.Key.eq M.meaning self.now pass keys.items result.0 pins.items) }
        ensures refused { IfErr result.1 (IsRefused M.Key.eq M.meaning self.now pass keys.items result.0) }
        ensures nothing { IfErr result.1 (λ refusal. GivesNothing pass result.0) }
    {
        self.proof_numbered();
        let holds = match self.try_hold(pass, shards) {
            Ok(holds) => holds,
            Err(pass) => {
                room.destroy_empty();
                return (pass, Err(PinRefusal::TurnOut));
            }
        };
        if let Some(refusal) = self.refusal(&holds, &keys, shards) {
            room.destroy_empty();
            return (self.let_go(holds), Err(refusal));
        }
        let Ok(values) = self.values(spare, &holds, &keys, shards) else {
            room.destroy_empty();
            return (self.let_go(holds), Err(PinRefusal::OutOfMemory));
        };
        let pass = self.pin_all(holds, &keys, shards);
        let pins = pins_with::<M>(&pass, keys, shards, values, room);
        (pass, Ok(pins))
    }
}

/// The shard of each key.
fn shard_numbers<M: Made>(alloc: Global, keys: &Vec<M::Key>) -> Mem<Vec<u32>>
    ensures { IfOk result (λ shards. shards.items ≡ shards_of M.meaning keys.now.items) }
{
    let mut shards = Vec::new(alloc);
    for key in keys {
        shards.push(shard_number::<M>(key))?;
    }
    Ok(shards)
}

/// No pins, with room for so many.
fn room_for<M: Made>(alloc: Global, count: usize) -> Mem<Vec<Pin<M>>>
    ensures empty { IfOk result (λ room. room.items ≡ []) }
    ensures len { IfOk result (λ room. vec_len room ≡ 0) }
    ensures room { IfOk result (λ room. count ≤ vec_capacity room) }
{
    let mut room = Vec::new(alloc);
    if room.reserve(count).is_err() {
        room.destroy_empty();
        return Err(OutOfMemory);
    }
    Ok(room)
}

/// The pass of this shard, as contracts see it.
fn home_of<M: Made>(pass: &CachePass<M>, shard: u32) -> Snapshot<ShardPass<M>>
    ensures { result.value ≡ at pass.now shard }
{
    match shard {
        0 => Snapshot::of(&pass.first),
        1 => Snapshot::of(&pass.second),
        2 => Snapshot::of(&pass.third),
        _ => Snapshot::of(&pass.fourth),
    }
}

/// A pin of each key with its value, in the order of the keys, by the pass that holds it. There is room for them.
fn pins_with<M: Made>(
    pass: &CachePass<M>,
    keys: Vec<M::Key>,
    shards: &Vec<u32>,
    values: Vec<Arc<M::Value>>,
    room: Vec<Pin<M>>,
) -> Vec<Pin<M>>
    requires shards { shards.now.items ≡ shards_of M.meaning keys.items }
    requires values { length values.items ≡ length keys.items }
    requires empty { room.items ≡ [] }
    requires len { vec_len room ≡ 0 }
    requires room { length keys.items ≤ vec_capacity room }
    ensures keys { map (λ p. p.key) result.items ≡ keys.items }
    ensures values { map (λ p. p.value) result.items ≡ map arc_value values.items }
    ensures cells { map (λ p. p.cell) result.items ≡ map (λ n. (at pass.now n).cell) shards.now.items }
{
    let mut keys = keys;
    let mut values = values;
    let mut pins = room;
    while let Some(key) = keys.pop() {
        let Some(value) = values.pop() else {
            unreachable!()
        };
        let shard = shards[keys.len()];
        let home = home_of(pass, shard);
        pins.push_reserved(Pin {
            key,
            shard,
            value,
            home,
        });
    }
    pins.reverse();
    pins
}

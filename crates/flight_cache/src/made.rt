//! What a cache keeps.
ghost use Rattle.std.specs.Prelude.{◌≡◌, ◌≤◌, ◌<◌, ◌*◌, true, IfOk};
ghost use Rattle.evict_core.specs.Machine.{max_cost};
ghost use Rattle.flight_cache.specs.Meaning.{Meaning, entry_cost, mixed, mixed_all, no_numbers, number_cost, shard_at, shard_of, shard_count};

use ass_num::Mem;
use std::alloc::Global;
use std::hash::Hash;
use std::marker::Model;

/// A sum stays below this.
const SUM_BOUND: u64 = 4_294_967_296;

/// What the sum is multiplied by before a number is added.
const SUM_FACTOR: u64 = 31;

/// The shard is told by the sum's bits from this one on.
const SHARD_UNIT: u32 = 65536;

const SHARD_COUNT: u32 = 4;

/// What a key takes for each of its numbers.
const NUMBER_COST: u64 = 20;

/// The greatest cost of an entry.
const MAX_COST: u64 = 4_294_967_296;

/// The sum of a key's numbers, which tells its shard, and how many they are, held at 4,294,967,295.
#[derive(Drop)]
pub struct ShardSum {
    sum: u32,
    count: u32,
}

impl Model for ShardSum {
    ghost use Rattle.flight_cache.specs.Meaning.{SumView};

    ghost Value = { SumView };

    ghost view = { λ s. record { sum = s.sum; count = s.count } };
}

impl ShardSum {
    /// The sum of no numbers.
    pub fn new() -> ShardSum
        ensures { result ≡ no_numbers }
    {
        ShardSum { sum: 0, count: 0 }
    }

    /// One number more.
    pub fn add(&mut self, number: u32)
        ensures { self.new ≡ mixed self.old number }
    {
        let sum = u64::from(self.sum) * SUM_FACTOR + u64::from(number);
        self.sum = (sum % SUM_BOUND) as u32;
        self.count = self.count.saturating_add(1);
    }

    /// What a key of these numbers takes.
    fn key_cost(&self) -> u64
        ensures { result ≡ number_cost * self.now.count }
    {
        NUMBER_COST * u64::from(self.count)
    }

    /// The shard that the sum tells, from 0 to 3.
    pub fn shard(self) -> u32
        ensures shard { result ≡ shard_at self }
        ensures below { result < shard_count }
    {
        self.sum / SHARD_UNIT % SHARD_COUNT
    }
}

/// Values that are made of keys. The tag is what all values of a cache are made from besides.
pub trait Made {
    type Key: Eq + Hash + Drop;

    type Value: Drop;

    type Tag: Drop;

    /// The value of each key, what a value costs, the numbers that tell a key's shard, and the key's rank.
    ghost meaning: { Meaning Self.Key Self.Value Self.Tag };

    /// What a value costs, which is at most 2^32.
    fn cost(value: &Self::Value) -> u64
        requires { meaning.cost value.now ≤ max_cost }
        ensures { result ≡ meaning.cost value.now };

    /// The same key again.
    fn copy(alloc: Global, key: &Self::Key) -> Mem<Self::Key>
        ensures { IfOk result (λ k. k ≡ key.now) };

    /// Adds the key's numbers to a sum, one after another.
    fn numbers(key: &Self::Key, sum: &mut ShardSum)
        ensures { sum.new ≡ mixed_all sum.old (meaning.numbers key.now) };

    /// Keys that are equal are identical.
    ghost same_key: { (a b : Self.Key) → Self.Key.eq a b ≡ true → a ≡ b };
}

/// The shard of a key.
pub(crate) fn shard_number<M: Made>(key: &M::Key) -> u32
    ensures shard { result ≡ shard_of (M.meaning.numbers key.now) }
    ensures below { result < shard_count }
{
    let mut sum = ShardSum::new();
    M::numbers(key, &mut sum);
    sum.shard()
}

/// What an entry costs: its value, and 20 for each number of its key; at most 2^32.
pub fn entry_cost<M: Made>(key: &M::Key, value: &M::Value) -> u64
    requires { M.meaning.cost value.now ≤ max_cost }
    ensures { result ≡ entry_cost M.meaning key.now value.now }
{
    let mut sum = ShardSum::new();
    M::numbers(key, &mut sum);
    (M::cost(value) + sum.key_cost()).min(MAX_COST)
}

//! Passes that are lent to threads.
ghost use Rattle.std.specs.Prelude.{◌≡◌, ◌+◌, ◌<◌, IsSomeAnd};
ghost use Rattle.flight_cache.specs.Shards.{IsCacheOf};
ghost use Rattle.cache_bench.specs.Doubled.{IsFreePass};

use crate::orders::Keys;
use crate::visits::{Doubled, visit_keys};
use flight_cache::{Cache, CachePass, laws};
use std::alloc::Global;
use std::sync::Wait;
use std::thread::{Threads, join_mut};

/// A pass that is lent to a thread, and how many of the thread's visits found a value.
pub struct Worker {
    pub pass: Option<CachePass<Doubled>>,
    pub found: u32,
}

/// Two threads' passes.
pub struct Pair {
    pub left: Worker,
    pub right: Worker,
}

/// Four threads' passes.
pub struct Four {
    pub left: Pair,
    pub right: Pair,
}

/// A new pass for a thread.
pub fn lend(cache: &Cache<Doubled>, pass: CachePass<Doubled>) -> (CachePass<Doubled>, Worker)
    requires cell { IsCacheOf cache.now pass }
    requires number { pass.first.number ≡ 0 }
    requires room { pass.first.next < u32.MAX }
    ensures cell { IsCacheOf cache.now result.0 }
    ensures number { result.0.first.number ≡ 0 }
    ensures next { result.0.first.next ≡ pass.first.next + 1 }
    ensures lent { IsSomeAnd result.1.pass (IsFreePass cache.now) }
{
    laws::given_back::<Doubled>();
    match cache.split(pass) {
        Ok((pass, new)) => {
            let worker = Worker {
                pass: Some(new),
                found: 0,
            };
            (pass, worker)
        }
        Err(_pass) => unreachable!(),
    }
}

/// Takes a thread's pass in again, and tells how many of its visits found a value.
pub fn rejoin(
    cache: &Cache<Doubled>,
    pass: CachePass<Doubled>,
    worker: Worker,
) -> (CachePass<Doubled>, u32)
    requires cell { IsCacheOf cache.now pass }
    requires number { pass.first.number ≡ 0 }
    requires lent { IsSomeAnd worker.pass (IsFreePass cache.now) }
    ensures cell { IsCacheOf cache.now result.0 }
    ensures number { result.0.first.number ≡ 0 }
{
    let Worker { pass: other, found } = worker;
    let Some(other) = other else { unreachable!() };
    (cache.join(pass, other), found)
}

/// Rounds of visits of these keys, by one thread.
pub fn work<R: Wait>(
    rt: &R,
    alloc: Global,
    cache: &Cache<Doubled>,
    worker: &mut Worker,
    keys: &Vec<u32>,
    rounds: u32,
)
    requires { IsSomeAnd worker.old.pass (IsFreePass cache.now) }
    ensures { IsSomeAnd worker.new.pass (IsFreePass cache.now) }
{
    let Some(pass) = worker.pass.take() else {
        unreachable!()
    };
    let (pass, found) = visit_keys(rt, alloc, cache, pass, keys, rounds);
    worker.found = found;
    let before = worker.pass.replace(pass);
    let None = before else { unreachable!() };
}

/// The same, by two threads at once.
fn work_by_two<R: Wait + Threads + Sync>(
    rt: &R,
    alloc: Global,
    cache: &Cache<Doubled>,
    pair: &mut Pair,
    left_keys: &Vec<u32>,
    right_keys: &Vec<u32>,
    rounds: u32,
)
    requires left { IsSomeAnd pair.old.left.pass (IsFreePass cache.now) }
    requires right { IsSomeAnd pair.old.right.pass (IsFreePass cache.now) }
    ensures left { IsSomeAnd pair.new.left.pass (IsFreePass cache.now) }
    ensures right { IsSomeAnd pair.new.right.pass (IsFreePass cache.now) }
{
    let Pair { left, right } = pair;
    join_mut(
        rt,
        &mut || work(rt, alloc, cache, left, left_keys, rounds),
        &mut || work(rt, alloc, cache, right, right_keys, rounds),
    );
}

/// The same, by four threads at once.
pub fn work_by_four<R: Wait + Threads + Sync>(
    rt: &R,
    alloc: Global,
    cache: &Cache<Doubled>,
    four: &mut Four,
    keys: &Keys,
    rounds: u32,
)
    requires first { IsSomeAnd four.old.left.left.pass (IsFreePass cache.now) }
    requires second { IsSomeAnd four.old.left.right.pass (IsFreePass cache.now) }
    requires third { IsSomeAnd four.old.right.left.pass (IsFreePass cache.now) }
    requires fourth { IsSomeAnd four.old.right.right.pass (IsFreePass cache.now) }
    ensures first { IsSomeAnd four.new.left.left.pass (IsFreePass cache.now) }
    ensures second { IsSomeAnd four.new.left.right.pass (IsFreePass cache.now) }
    ensures third { IsSomeAnd four.new.right.left.pass (IsFreePass cache.now) }
    ensures fourth { IsSomeAnd four.new.right.right.pass (IsFreePass cache.now) }
{
    let Four { left, right } = four;
    join_mut(
        rt,
        &mut ||
            requires one { IsSomeAnd left.now.left.pass (IsFreePass cache.now) }
            requires other { IsSomeAnd left.now.right.pass (IsFreePass cache.now) }
        { work_by_two(rt, alloc, cache, left, &keys.first, &keys.second, rounds) },
        &mut ||
            requires one { IsSomeAnd right.now.left.pass (IsFreePass cache.now) }
            requires other { IsSomeAnd right.now.right.pass (IsFreePass cache.now) }
        { work_by_two(rt, alloc, cache, right, &keys.third, &keys.fourth, rounds) },
    );
}

/// New passes for four threads.
pub fn lend_four(cache: &Cache<Doubled>, pass: CachePass<Doubled>) -> (CachePass<Doubled>, Four)
    requires cell { IsCacheOf cache.now pass }
    requires number { pass.first.number ≡ 0 }
    requires room { pass.first.next + 3 < u32.MAX }
    ensures cell { IsCacheOf cache.now result.0 }
    ensures number { result.0.first.number ≡ 0 }
    ensures next { result.0.first.next ≡ pass.first.next + 4 }
    ensures first { IsSomeAnd result.1.left.left.pass (IsFreePass cache.now) }
    ensures second { IsSomeAnd result.1.left.right.pass (IsFreePass cache.now) }
    ensures third { IsSomeAnd result.1.right.left.pass (IsFreePass cache.now) }
    ensures fourth { IsSomeAnd result.1.right.right.pass (IsFreePass cache.now) }
{
    let (pass, first) = lend(cache, pass);
    let (pass, second) = lend(cache, pass);
    let (pass, third) = lend(cache, pass);
    let (pass, fourth) = lend(cache, pass);
    let four = Four {
        left: Pair {
            left: first,
            right: second,
        },
        right: Pair {
            left: third,
            right: fourth,
        },
    };
    (pass, four)
}

/// Takes four threads' passes in again, and tells how many of their visits found a value.
pub fn rejoin_four(
    cache: &Cache<Doubled>,
    pass: CachePass<Doubled>,
    four: Four,
) -> (CachePass<Doubled>, u32)
    requires cell { IsCacheOf cache.now pass }
    requires number { pass.first.number ≡ 0 }
    requires first { IsSomeAnd four.left.left.pass (IsFreePass cache.now) }
    requires second { IsSomeAnd four.left.right.pass (IsFreePass cache.now) }
    requires third { IsSomeAnd four.right.left.pass (IsFreePass cache.now) }
    requires fourth { IsSomeAnd four.right.right.pass (IsFreePass cache.now) }
    ensures cell { IsCacheOf cache.now result.0 }
    ensures number { result.0.first.number ≡ 0 }
{
    let Four { left, right } = four;
    let Pair {
        left: first,
        right: second,
    } = left;
    let Pair {
        left: third,
        right: fourth,
    } = right;
    let (pass, a) = rejoin(cache, pass, first);
    let (pass, b) = rejoin(cache, pass, second);
    let (pass, c) = rejoin(cache, pass, third);
    let (pass, d) = rejoin(cache, pass, fourth);
    let found = a.saturating_add(b).saturating_add(c).saturating_add(d);
    (pass, found)
}

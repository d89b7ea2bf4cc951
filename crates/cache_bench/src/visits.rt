//! Visits of a shared cache: a key is asked for, its value made where nobody has, and the pin given back.
ghost use Rattle.std.specs.Prelude.{◌≡◌, ◌*◌, ◌==◌, IfOk};
ghost use Rattle.std.specs.Arc.{arc_value};
ghost use Rattle.flight_cache.specs.Shards.{GivesBack};
ghost use Rattle.cache_bench.specs.Doubled.{IsFreePass, doubled};

use ass_num::Mem;
use flight_cache::{Asked, Cache, CachePass, Made, ShardSum};
use std::alloc::Global;
use std::sync::{Arc, Wait};

/// Each key's value is twice the key, and costs 1.
pub struct Doubled;

impl Made for Doubled {
    ghost use Rattle.cache_bench.specs.Doubled.{doubled};
    ghost use Rattle.std.proofs.lemmas.Bool.{eqb-true};

    type Key = u32;

    type Value = u64;

    type Tag = ();

    ghost meaning = { doubled };

    fn cost(_value: &u64) -> u64 {
        1
    }

    fn copy(_alloc: Global, key: &u32) -> Mem<u32> {
        Ok(*key)
    }

    fn numbers(key: &u32, sum: &mut ShardSum) {
        sum.add(*key);
    }

    ghost same_key = { eqb-true };
}

/// The value of a key, twice.
fn make(alloc: Global, key: u32) -> Mem<(Arc<u64>, Arc<u64>)>
    ensures { IfOk result (λ r. (arc_value r.0 ≡ 2 * key) × (arc_value r.1 ≡ 2 * key)) }
{
    let kept = Arc::new(alloc, 2 * u64::from(key))?;
    let pinned = Arc::try_clone(&kept)?;
    Ok((kept, pinned))
}

/// Asks for the key, makes its value where nobody has, and gives the pin back. Tells whether there was a value.
fn visit<R: Wait>(
    rt: &R,
    alloc: Global,
    cache: &Cache<Doubled>,
    pass: CachePass<Doubled>,
    key: u32,
) -> (CachePass<Doubled>, bool)
    requires { IsFreePass cache.now pass }
    ensures { GivesBack (◌==◌) doubled cache.now pass result.0 }
{
    let (pass, asked) = cache.ask(rt, alloc, pass, &key);
    match asked {
        Asked::Hit(pin) => {
            let pass = cache.unpin(rt, pass, pin);
            (pass, true)
        }
        Asked::Make(duty) => match duty {
            Some(ticket) => {
                let Ok((kept, pinned)) = make(alloc, key) else {
                    let pass = cache.fail(rt, pass, ticket);
                    return (pass, false);
                };
                let (pass, filled) = cache.fill(rt, pass, ticket, kept, pinned);
                match filled {
                    Ok(pin) => {
                        let pass = cache.unpin(rt, pass, pin);
                        (pass, true)
                    }
                    Err(_unkept) => (pass, true),
                }
            }
            None => (pass, false),
        },
        Asked::OutOfMemory => (pass, false),
    }
}

/// Visits of the keys in their order, in so many rounds. Tells how many found a value.
pub fn visit_keys<R: Wait>(
    rt: &R,
    alloc: Global,
    cache: &Cache<Doubled>,
    pass: CachePass<Doubled>,
    keys: &Vec<u32>,
    rounds: u32,
) -> (CachePass<Doubled>, u32)
    requires { IsFreePass cache.now pass }
    ensures { GivesBack (◌==◌) doubled cache.now pass result.0 }
{
    let mut waiting = pass;
    let mut found = 0u32;
    for _ in 0..rounds {
        let (pass, more) = visit_round(rt, alloc, cache, waiting, keys);
        waiting = pass;
        found = found.saturating_add(more);
    }
    (waiting, found)
}

/// Visits of the keys in their order. Tells how many found a value.
fn visit_round<R: Wait>(
    rt: &R,
    alloc: Global,
    cache: &Cache<Doubled>,
    pass: CachePass<Doubled>,
    keys: &Vec<u32>,
) -> (CachePass<Doubled>, u32)
    requires { IsFreePass cache.now pass }
    ensures { GivesBack (◌==◌) doubled cache.now pass result.0 }
{
    let mut waiting = pass;
    let mut found = 0u32;
    for key in keys {
        let (pass, has_value) = visit(rt, alloc, cache, waiting, *key);
        waiting = pass;
        if has_value {
            found = found.saturating_add(1);
        }
    }
    (waiting, found)
}

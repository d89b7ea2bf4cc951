//! The pass of a cache: a pass of each of its shards.
ghost use Rattle.std.specs.Prelude.{◌≡◌};
ghost use Rattle.flight_cache.specs.Calls.{ShardPassView};
ghost use Rattle.flight_cache.specs.Shards.{AreAlike, at, with_at};
ghost use Rattle.flight_cache.specs.Others.{together};

use crate::made::Made;
use crate::shard::ShardPass;
use std::marker::Model;

/// The right to use a cache: a pass of each shard.
pub struct CachePass<M: Made> {
    pub(crate) first: ShardPass<M>,
    pub(crate) second: ShardPass<M>,
    pub(crate) third: ShardPass<M>,
    pub(crate) fourth: ShardPass<M>,
}

impl<M: Made> Model for CachePass<M> {
    ghost use Rattle.flight_cache.specs.Shards.{CachePassView, AreAlike};

    ghost Value = { CachePassView M.Key M.Tag };

    ghost view = { λ p. record { first = p.first; second = p.second; third = p.third; fourth = p.fourth } };

    ghost invariant = { λ p. AreAlike (record { first = p.first; second = p.second; third = p.third; fourth = p.fourth }) };
}

/// What is left of a cache's pass while one shard's pass is out.
pub(crate) struct Others<M: Made> {
    out: u32,
    one: ShardPass<M>,
    two: ShardPass<M>,
    three: ShardPass<M>,
}

impl<M: Made> CachePass<M> {
    /// The passes of the four shards have one number, and drew as many numbers.
    pub fn proof_alike(&self)
        ensures { AreAlike self.now }
    {
        let _ = &self.first;
    }

    /// The pass of one shard, and the others.
    pub(crate) fn apart(self, number: u32) -> (ShardPass<M>, Others<M>)
        ensures own { result.0 ≡ at self number }
        ensures others { (own : ShardPassView M.Key M.Tag) → together result.1 own ≡ with_at self number own }
        ensures alike { AreAlike self }
    {
        let CachePass {
            first,
            second,
            third,
            fourth,
        } = self;
        let (own, one, two, three) = match number {
            0 => (first, second, third, fourth),
            1 => (second, first, third, fourth),
            2 => (third, first, second, fourth),
            _ => (fourth, first, second, third),
        };
        (
            own,
            Others {
                out: number,
                one,
                two,
                three,
            },
        )
    }
}

impl<M: Made> Others<M> {
    /// The cache's pass again.
    pub(crate) fn together(self, own: ShardPass<M>) -> CachePass<M>
        requires { AreAlike (together self own) }
        ensures { result ≡ together self own }
    {
        let Others {
            out,
            one,
            two,
            three,
        } = self;
        let (first, second, third, fourth) = match out {
            0 => (own, one, two, three),
            1 => (one, own, two, three),
            2 => (one, two, own, three),
            _ => (one, two, three, own),
        };
        CachePass {
            first,
            second,
            third,
            fourth,
        }
    }
}

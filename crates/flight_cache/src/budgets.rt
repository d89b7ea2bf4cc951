//! What the shards of a cache may keep.
ghost use Rattle.std.specs.Prelude.{◌≡◌, ◌<◌, ◌≤◌, []};
ghost use Rattle.evict_core.specs.Machine.{max_cost};
ghost use Rattle.flight_cache.specs.Budgets.{may_be_kept, shown_budgets};
ghost use Rattle.flight_cache.specs.Meaning.{shard_count};
ghost use Rattle.flight_cache.specs.Shards.{EachGives, IsCacheOf, at};

use crate::cache::Cache;
use crate::made::{Made, entry_cost, shard_number};
use crate::pass::CachePass;
use std::marker::Model;
use std::sync::Wait;

/// What the entries of each shard may cost that no pin holds.
#[derive(Drop)]
pub struct Budgets {
    first: u64,
    second: u64,
    third: u64,
    fourth: u64,
}

impl Model for Budgets {
    ghost use Rattle.std.specs.Prelude.{ℕ};
    ghost use Rattle.flight_cache.specs.Shards.{Shards};

    ghost Value = { Shards ℕ };

    ghost view = { λ b. record { first = b.first; second = b.second; third = b.third; fourth = b.fourth } };
}

impl Budgets {
    /// The budget of a shard.
    fn of_shard(&self, shard: u32) -> u64
        requires { shard < shard_count }
        ensures { result ≡ at self.now shard }
    {
        match shard {
            0 => self.first,
            1 => self.second,
            2 => self.third,
            _ => self.fourth,
        }
    }

    /// Whether the entry of a key may be kept while no pin holds it: alone it costs no more than its shard's budget.
    pub fn may_keep<M: Made>(&self, key: &M::Key, value: &M::Value) -> bool
        requires { M.meaning.cost value.now ≤ max_cost }
        ensures { result ≡ may_be_kept M.meaning self.now key.now value.now }
    {
        let cost = entry_cost::<M>(key, value);
        let budget = self.of_shard(shard_number::<M>(key));
        cost <= budget
    }
}

impl<M: Made> Cache<M> {
    /// The budget of each shard, as a turn of it shows it.
    pub fn budgets<R: Wait>(&self, rt: &R, pass: CachePass<M>) -> (CachePass<M>, Budgets)
        requires { IsCacheOf self.now pass }
        ensures pass { EachGives M.Key.eq M.meaning self.now.shards pass result.0 (λ n. []) }
        ensures budgets { result.1 ≡ shown_budgets M.Key.eq M.meaning self.now result.0 }
    {
        let CachePass {
            first,
            second,
            third,
            fourth,
        } = pass;
        let (first, first_totals) = self.first.totals(rt, first);
        let (second, second_totals) = self.second.totals(rt, second);
        let (third, third_totals) = self.third.totals(rt, third);
        let (fourth, fourth_totals) = self.fourth.totals(rt, fourth);
        let budgets = Budgets {
            first: first_totals.budget,
            second: second_totals.budget,
            third: third_totals.budget,
            fourth: fourth_totals.budget,
        };
        (
            CachePass {
                first,
                second,
                third,
                fourth,
            },
            budgets,
        )
    }
}

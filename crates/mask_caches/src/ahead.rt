//! The keys of plans that are to be warmed.
ghost use Rattle.std.specs.Prelude.{◌≡◌, ℕ, ◌+◌, ◌<◌, ◌^◌, List, ◌++◌, [], length, All, IfOk, OnErr, OnOk};
ghost use Rattle.mask_keys.specs.Equality.{equal_composites};
ghost use Rattle.mask_keys.specs.Keys.{IsValidComposite, IsValidPlan};
ghost use Rattle.mask_keys.specs.PlanKeys.{plan_keys};
ghost use Rattle.mask_caches.specs.Firsts.{firsts};

use crate::first_keys::add_draws;
use ass_num::Mem;
use indexmap::IndexSet;
use mask_keys::{CompositeKey, Plan};
use std::alloc::Global;
use std::marker::Model;

/// The keys of plans in the order of their draws, each once, and a place among them: those before it were warmed.
#[derive(Drop)]
pub struct Ahead {
    pub(crate) keys: IndexSet<CompositeKey>,
    pub(crate) place: usize,
}

impl Model for Ahead {
    ghost use Rattle.mask_caches.specs.Aheads.{AheadView, IsAhead};

    ghost Value = { AheadView };

    ghost view = { λ a. record { keys = a.keys.keys; place = a.place } };

    ghost invariant = { λ a. IsAhead (record { keys = a.keys.keys; place = a.place }) };
}

impl Ahead {
    /// No keys.
    pub fn open(alloc: Global) -> Ahead
        ensures { result ≡ record { keys = []; place = 0 } }
    {
        Ahead {
            keys: IndexSet::new(alloc),
            place: 0,
        }
    }

    /// The keys of a plan, each draw's and then its drawn clip's, go behind the others, where they aren't there already.
    /// Answers how many were added. After out of memory none is.
    pub fn add_plan(&mut self, alloc: Global, plan: &Plan) -> Mem<usize>
        ensures keys { OnOk result (self.new.keys ≡ firsts equal_composites (self.old.keys ++ plan_keys plan.now.draws)) }
        ensures added { IfOk result (λ n. length self.new.keys ≡ length self.old.keys + n) }
        ensures place { self.new.place ≡ self.old.place }
        ensures valid { (glyphs : List ℕ) → All (IsValidComposite glyphs) self.old.keys → IsValidPlan glyphs plan.now.draws
            → OnOk result (All (IsValidComposite glyphs) self.new.keys) }
        ensures err { OnErr result (self.new ≡ self.old) }
    {
        let before = self.keys.len();
        match add_draws(alloc, &mut self.keys, plan.draws.as_slice()) {
            Ok(()) => Ok(self.keys.len() - before),
            Err(refused) => {
                self.keys.truncate(before);
                Err(refused)
            }
        }
    }

    /// How many keys weren't warmed yet.
    pub fn left(&self) -> usize
        ensures left { self.now.place + result ≡ length self.now.keys }
        ensures small { length self.now.keys < 2 ^ 63 }
    {
        self.keys.len() - self.place
    }
}

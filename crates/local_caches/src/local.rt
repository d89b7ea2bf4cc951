//! The three caches of one thread.
ghost use Rattle.std.specs.Prelude.{◌≡◌, ◌≤◌, IfOk};
ghost use Rattle.std.specs.Arc.{arc_value};
ghost use Rattle.evict_core.specs.Machine.{Limits, max_budget, state_after};
ghost use Rattle.mask_keys.specs.Equality.{equal_composites, equal_masks, equal_regions};
ghost use Rattle.mask_keys.specs.Outlines.{IsFontSet};
ghost use Rattle.local_caches.specs.LocalParts.{AreAtRest, no_entries};
ghost use Rattle.cache_kinds.specs.Limits.{entry_limit};

use crate::cache::LocalCache;
use ass_num::Mem;
use bdf_font::FontSet;
use cache_kinds::{CompositeMade, MaskMade, RegionMade};
use std::alloc::Global;
use std::marker::Model;
use std::sync::Arc;

/// The caches of regions, of masks and of composed masks of one thread, and the fonts that they are made from.
#[derive(Drop)]
pub struct LocalCaches {
    pub(crate) fonts: Arc<FontSet>,
    pub(crate) regions: LocalCache<RegionMade>,
    pub(crate) masks: LocalCache<MaskMade>,
    pub(crate) composites: LocalCache<CompositeMade>,
}

impl Model for LocalCaches {
    ghost use Rattle.std.specs.Arc.{arc_value};
    ghost use Rattle.local_caches.specs.LocalParts.{LocalCachesView, AreOfOne};

    ghost Value = { LocalCachesView };

    ghost view = { λ a. record {
      fonts = (arc_value a.fonts).fonts;
      budget = a.regions.entries.budget;
      regions = a.regions.entries;
      masks = a.masks.entries;
      composites = a.composites.entries;
    } };

    ghost invariant = { λ a. AreOfOne a.fonts a.regions a.masks a.composites };
}

impl LocalCaches {
    /// No entries. Each cache gets the whole budget, at most 2^40, and a limit of one entry for each 1,024 of it, from 16
    /// to 65,536.
    pub fn open(alloc: Global, fonts: Arc<FontSet>, budget: u64) -> Mem<LocalCaches>
        requires fonts { IsFontSet (arc_value fonts).fonts }
        requires budget { budget ≤ max_budget }
        ensures { IfOk result (λ a. a ≡ no_entries (arc_value fonts).fonts budget) }
    {
        let regions = LocalCache::open(alloc, &fonts, budget)?;
        let masks = LocalCache::open(alloc, &fonts, budget)?;
        let composites = LocalCache::open(alloc, &fonts, budget)?;
        Ok(LocalCaches {
            fonts,
            regions,
            masks,
            composites,
        })
    }

    /// A new budget for each cache, and the limit of entries that goes with it; then as few entries are evicted as they
    /// want.
    pub fn set_budget(&mut self, budget: u64)
        requires { budget ≤ max_budget }
        ensures fonts { self.new.fonts ≡ self.old.fonts }
        ensures budget { self.new.budget ≡ budget }
        ensures regions { self.new.regions ≡ state_after equal_regions self.old.regions 0 (Limits (entry_limit budget) budget) }
        ensures masks { self.new.masks ≡ state_after equal_masks self.old.masks 0 (Limits (entry_limit budget) budget) }
        ensures composites { self.new.composites ≡ state_after equal_composites self.old.composites 0 (Limits (entry_limit budget) budget) }
    {
        self.regions.set_budget(budget);
        self.masks.set_budget(budget);
        self.composites.set_budget(budget);
    }

    /// Between calls no pin holds an entry and none is being made, each has the value of its key, and each cache is within
    /// its budget.
    pub fn proof_at_rest(&self)
        ensures { AreAtRest self.now }
    {
        self.regions.proof_at_rest();
        self.masks.proof_at_rest();
        self.composites.proof_at_rest();
    }
}

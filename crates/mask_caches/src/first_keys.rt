//! The keys of plans, each where it stands first.
ghost use Rattle.std.specs.Prelude.{◌≡◌, [], ◌∷◌, OnErr, OnOk};
ghost use Rattle.indexmap.specs.IndexSet.{insert_all};
ghost use Rattle.mask_keys.specs.Equality.{equal_composites};
ghost use Rattle.mask_keys.specs.PlanKeys.{plan_keys};
ghost use Rattle.turn_cell.specs.History.{IsPrefix};

use ass_num::Mem;
use indexmap::IndexSet;
use mask_keys::{CompositeKey, Draw, key_copy, plan_keys};
use std::alloc::Global;

/// A key, where it isn't there already.
fn add_key(alloc: Global, known: &mut IndexSet<CompositeKey>, key: &CompositeKey) -> Mem<()>
    ensures ok { OnOk result (known.new.keys ≡ insert_all equal_composites known.old.keys (key.now ∷ [])) }
    ensures err { OnErr result (known.new.keys ≡ known.old.keys) }
{
    if known.contains(key) {
        return Ok(());
    }
    known.insert(key_copy(alloc, key)?)?;
    Ok(())
}

/// The keys of draws, in their order. After want of memory some of them are there, behind those that were.
pub fn add_draws(alloc: Global, known: &mut IndexSet<CompositeKey>, draws: &[Draw]) -> Mem<()>
    ensures ok { OnOk result (known.new.keys ≡ insert_all equal_composites known.old.keys (plan_keys draws.now)) }
    ensures err { OnErr result (IsPrefix known.old.keys known.new.keys) }
{
    let keys = plan_keys(alloc, draws)?;
    for key in keys.as_slice() {
        add_key(alloc, known, key)?;
    }
    Ok(())
}

//! The keys of plans.
ghost use Rattle.std.specs.Prelude.{◌≡◌, ◌++◌, map, IfOk, OnOk};
ghost use Rattle.mask_keys.specs.PlanKeys.{clip_keys, draw_keys, plan_keys};

use crate::composite_key::CompositeKey;
use crate::plans::{Clip, Draw};
use ass_num::Mem;
use std::alloc::Global;

/// The key of a drawn clip goes behind others.
fn add_clip_keys<'a>(keys: &mut Vec<&'a CompositeKey>, clip: &'a Clip) -> Mem<()>
    ensures { OnOk result (map (λ k. k.now) keys.new.items ≡ map (λ k. k.now) keys.old.items ++ clip_keys clip.now) }
{
    match clip {
        Clip::Drawn { key, .. } => {
            keys.push(key)?;
            Ok(())
        }
        Clip::Free => Ok(()),
        Clip::Rect { .. } => Ok(()),
    }
}

/// The key of a draw goes behind others, and then that of its drawn clip.
fn add_draw_keys<'a>(keys: &mut Vec<&'a CompositeKey>, draw: &'a Draw) -> Mem<()>
    ensures { OnOk result (map (λ k. k.now) keys.new.items ≡ map (λ k. k.now) keys.old.items ++ draw_keys draw.now) }
{
    keys.push(&draw.key)?;
    add_clip_keys(keys, &draw.clip)
}

/// The keys of draws, in their order: each draw's, and then that of its drawn clip. No key is copied.
pub fn plan_keys<'a>(alloc: Global, draws: &'a [Draw]) -> Mem<Vec<&'a CompositeKey>>
    ensures { IfOk result (λ keys. map (λ k. k.now) keys.items ≡ plan_keys draws.now) }
{
    let mut keys = Vec::new(alloc);
    for draw in draws {
        add_draw_keys(&mut keys, draw)?;
    }
    Ok(keys)
}

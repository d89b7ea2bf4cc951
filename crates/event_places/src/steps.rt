//! Events that are moved one after the other, each clear of those before it.

ghost use Rattle.std.specs.Prelude.{◌+◌, ℕ, IfOk};
ghost use Rattle.event_places.specs.Placement.{IsPlaceableStand};
ghost use Rattle.event_places.specs.Steps.{AreKeptBoxes, AreBoxesWithin, IsClearing, most_before};

use crate::Stand;
use crate::boxes::shift_clear;
use crate::kept::MovedBoxes;
use ass_num::{Fix, Mem};
use near_events::EventSpan;

/// Moves an event clear of those that were moved before it: the shift is the least that does. Those that have ended are dropped, since
/// none that starts later has to be clear of them.
pub(crate) fn place_clear(span: &EventSpan, stand: &Stand, kept: &mut MovedBoxes) -> Mem<Fix>
    requires stand { IsPlaceableStand stand.now }
    requires within { AreBoxesWithin most_before kept.old.boxes.items }
    requires kept { AreKeptBoxes kept.old }
    ensures clearing { IfOk result (λ shift. IsClearing span.now stand.now kept.old.boxes.items shift kept.new.boxes.items) }
    ensures kept { IfOk result (λ shift. AreKeptBoxes kept.new) }
    ensures within { IfOk result (λ shift. (count : ℕ) → AreBoxesWithin count kept.old.boxes.items → AreBoxesWithin (count + 1) kept.new.boxes.items) }
{
    kept.drop_others(span);
    let bound = kept.bound_for(stand);
    let shift = shift_clear(stand, kept.boxes.as_slice(), kept.tallest, bound);
    kept.add(span, stand, shift)?;
    Ok(shift)
}

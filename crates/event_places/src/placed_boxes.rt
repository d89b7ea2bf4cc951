//! What is left of events that were moved: their boxes, from the lowest to the highest.

ghost use Rattle.std.specs.Prelude.{◌≡◌, ◌<◌, ◌≤◌, ◌≤ℤ◌, ◌∷◌, ℕ, OnOk, length, slice_index_or};
ghost use Rattle.std.specs.List.Sorted.{IsPermutation};
ghost use Rattle.event_places.specs.Steps.{AreFromLowest, is_in_way};
ghost use Rattle.event_places.specs.declared.placed_boxes.PlacedBox.{PlacedBox};

use crate::Box2;
use ass_num::{Fix, Mem};
use near_events::EventSpan;

/// The box of an event that was moved, in its layer, and when the event ends.
#[derive(Clone, Copy, Debug)]
pub struct PlacedBox {
    pub layer: i32,
    pub end: i64,
    pub place: Box2,
}

/// Whether an event that was moved is in the way of one that starts later: in the same layer, and ending after the other's start.
pub(crate) fn is_in_way(span: &EventSpan, placed: &PlacedBox) -> bool
    ensures { result ≡ is_in_way span.now placed.now }
{
    placed.layer == span.layer && span.start < placed.end
}

/// Where a box with this upper edge comes among boxes that lie from the lowest to the highest: behind those that begin no higher.
pub(crate) fn place_among(boxes: &[PlacedBox], top: Fix) -> usize
    requires sorted { AreFromLowest boxes.now }
    ensures within { result ≤ length boxes.now }
    ensures lower { (k : ℕ) (d : PlacedBox) → k < result → top ≤ℤ (slice_index_or boxes.now k d).place.top }
    ensures higher { (k : ℕ) (d : PlacedBox) → result ≤ k → k < length boxes.now → (slice_index_or boxes.now k d).place.top ≤ℤ top }
{
    boxes.partition_point(|one| top <= one.place.top)
}

/// Adds the box of one more event.
pub(crate) fn add_box(boxes: &mut Vec<PlacedBox>, one: PlacedBox) -> Mem<()>
    requires sorted { AreFromLowest boxes.old.items }
    ensures members { OnOk result (IsPermutation (one ∷ boxes.old.items) boxes.new.items) }
    ensures sorted { OnOk result (AreFromLowest boxes.new.items) }
{
    let place = place_among(boxes.as_slice(), one.place.top);
    boxes.insert(place, one)?;
    Ok(())
}

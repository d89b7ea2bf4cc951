//! How far a box is moved to stand clear of others.

ghost use Rattle.std.specs.Prelude.{◌≡◌, ◌-◌, ◌<◌, ◌≤◌, ◌≤ℤ◌, ◌↔◌, ℕ, if◌then◌else◌, IsTrue, length, slice_index_or};
ghost use Rattle.event_places.specs.Placement.{IsBoxWithin, IsLeastShift, IsPlaceableStand, IsShift, Meet, max_height, max_moved, moved_box, passing};
ghost use Rattle.event_places.specs.Limits.{max_shift};
ghost use Rattle.event_places.specs.Stands.{down_by};
ghost use Rattle.event_places.specs.Steps.{AreFromLowest, AreNoTaller, AreBoxesWithin, CoversBox, CoversRange, CoversStand, IsClearFrom, most_before};
ghost use Rattle.event_places.specs.Steps.{box_places};
ghost use Rattle.event_places.specs.declared.placed_boxes.PlacedBox.{PlacedBox};

use crate::placed_boxes::{PlacedBox, place_among};
use crate::shift::{self, meet, shift_past};
use crate::{Box2, Stand};
use ass_num::Fix;

/// The shift, or that past another box if it would be met.
fn past_if_met(stand: &Stand, shift: Fix, other: &Box2) -> Fix
    requires stand { IsPlaceableStand stand.now }
    requires shift { IsShift max_shift shift }
    requires other { IsBoxWithin max_moved other.now }
    ensures met { Meet (moved_box stand.now.down shift stand.now.place) other.now → result ≡ passing stand.now.down stand.now.place other.now }
    ensures apart { (Meet (moved_box stand.now.down shift stand.now.place) other.now → ⊥) → result ≡ shift }
{
    if meet(&moved(stand, shift), other) {
        shift_past(&stand.place, other, stand.down)
    } else {
        shift
    }
}

/// Which of so many boxes, from the lowest to the highest, comes at a step of a way down, or up.
fn on_the_way(count: usize, down: bool, step: usize) -> usize
    requires { step < count }
    ensures { result ≡ (if down then count - 1 - step else step) }
{
    if down { count - 1 - step } else { step }
}

/// How many boxes on its way the box of a stand has passed, moved by a shift. Of one on its way down those are counted of which it is
/// known by their upper edges, since none is taller than this.
fn passed(stand: &Stand, boxes: &[PlacedBox], tallest: Fix, shift: Fix) -> usize
    requires stand { IsPlaceableStand stand.now }
    requires sorted { AreFromLowest boxes.now }
    requires high { AreNoTaller tallest boxes.now }
    requires tallest { IsShift max_height tallest }
    requires shift { IsShift max_shift shift }
    ensures within { result ≤ length boxes.now }
    ensures apart { (j : ℕ) (d : PlacedBox) → j < result → Meet (moved_box stand.now.down shift stand.now.place)
        (slice_index_or boxes.now (if stand.now.down then length boxes.now - 1 - j else j) d).place → ⊥ }
{
    if stand.down {
        boxes.len() - place_among(boxes, stand.place.top + shift - tallest)
    } else {
        place_among(boxes, stand.place.bottom - shift)
    }
}

/// The least shift by which the box of a stand is clear of boxes that lie from the lowest to the highest, where it is known that it isn't
/// less than this one. One walk over them is enough: none that was passed is met again.
pub(crate) fn shift_clear(stand: &Stand, boxes: &[PlacedBox], tallest: Fix, from: Fix) -> Fix
    requires stand { IsPlaceableStand stand.now }
    requires within { AreBoxesWithin most_before boxes.now }
    requires sorted { AreFromLowest boxes.now }
    requires high { AreNoTaller tallest boxes.now }
    requires tallest { IsShift max_height tallest }
    requires from { IsShift max_shift from }
    requires known { IsClearFrom from stand.now (box_places boxes.now) }
    ensures least { IsLeastShift stand.now.place (box_places boxes.now) stand.now.down result }
    ensures range { IsShift max_shift result }
{
    let mut shift = from;
    for step in passed(stand, boxes, tallest, from)..boxes.len() {
        let next = on_the_way(boxes.len(), stand.down, step);
        shift = past_if_met(stand, shift, &boxes[next].place);
    }
    shift
}

/// Whether one range covers another one.
fn covers_range(a: Fix, b: Fix, c: Fix, d: Fix) -> bool
    ensures { IsTrue result ↔ CoversRange a b c d }
{
    a <= c && d <= b
}

fn covers_box(a: &Box2, b: &Box2) -> bool
    ensures { IsTrue result ↔ CoversBox a.now b.now }
{
    covers_range(a.left, a.right, b.left, b.right) && covers_range(a.top, a.bottom, b.top, b.bottom)
}

/// Whether a stand gives way as another one does, and covers its box.
pub(crate) fn covers(a: &Stand, b: &Stand) -> bool
    ensures { IsTrue result → CoversStand a.now b.now }
{
    a.down == b.down && covers_box(&a.place, &b.place)
}

/// The box of a stand, moved by a shift.
pub(crate) fn moved(stand: &Stand, shift: Fix) -> Box2
    requires stand { IsPlaceableStand stand.now }
    requires shift { IsShift max_shift shift }
    ensures { result ≡ moved_box stand.now.down shift stand.now.place }
{
    shift::moved(&stand.place, stand.down, shift)
}

/// How far down a shift moves a stand.
pub(crate) fn down_by(stand: &Stand, shift: Fix) -> Fix
    requires { IsShift max_shift shift }
    ensures { result ≡ down_by stand.now shift }
{
    if stand.down { shift } else { -shift }
}

//! The boxes that may still be in the way of an event to come, and what is known of all of them.

ghost use Rattle.std.specs.Prelude.{◌≡◌, ◌+ℤ◌, ◌≤ℤ◌, ◌∷◌, [], All, OnOk, filter};
ghost use Rattle.std.specs.List.Sorted.{IsPermutation};
ghost use Rattle.event_places.specs.Placement.{IsPlaceableStand, IsShift, max_height};
ghost use Rattle.event_places.specs.Limits.{max_shift};
ghost use Rattle.event_places.specs.Steps.{AreKeptBoxes, AreBoxesWithin, CoversStand, IsClearFrom, all_stay, is_in_way, most_before, placed_box, box_places};
ghost use Rattle.event_places.specs.declared.placed_boxes.PlacedBox.{PlacedBox};

use crate::boxes::{covers, moved, shift_clear};
use crate::placed_boxes::{PlacedBox, add_box, is_in_way};
use crate::{Box2, Stand};
use ass_num::{Fix, Mem};
use near_events::EventSpan;
use std::alloc::Global;

/// The boxes of events that were moved, from the lowest to the highest.
#[derive(Drop)]
pub(crate) struct MovedBoxes {
    pub boxes: Vec<PlacedBox>,
    /// The layer of all of them.
    pub layer: i32,
    /// No one of them ends earlier.
    pub first_end: i64,
    /// No one of them is taller.
    pub tallest: Fix,
    /// A stand whose box no less shift than `shift` keeps clear of them.
    pub tried: Stand,
    pub shift: Fix,
}

/// What is left of the event of a span with this stand, moved by a shift.
fn placed_box(span: &EventSpan, stand: &Stand, shift: Fix) -> PlacedBox
    requires stand { IsPlaceableStand stand.now }
    requires shift { IsShift max_shift shift }
    ensures { result ≡ placed_box span.now stand.now shift }
{
    PlacedBox {
        layer: span.layer,
        end: span.end,
        place: moved(stand, shift),
    }
}

/// The end of an event that was moved, or this instant if that is earlier.
fn earlier_end(first: i64, placed: &PlacedBox) -> i64
    ensures first { result ≤ℤ first }
    ensures end { result ≤ℤ placed.now.end }
{
    first.min(placed.end)
}

/// An instant before which none of these ends.
fn earliest_end(boxes: &[PlacedBox]) -> i64
    ensures { All (λ (x : PlacedBox). result ≤ℤ x.end) boxes.now }
{
    let mut first = i64::MAX;
    for one in boxes {
        first = earlier_end(first, one);
    }
    first
}

/// The height of the box of a stand, or this one if that is less.
fn taller(tallest: Fix, stand: &Stand) -> Fix
    requires stand { IsPlaceableStand stand.now }
    requires tallest { IsShift max_height tallest }
    ensures tallest { IsShift max_height result }
    ensures old { tallest ≤ℤ result }
    ensures new { stand.now.place.bottom ≤ℤ (stand.now.place.top +ℤ result) }
{
    let height = stand.place.bottom - stand.place.top;
    if tallest < height { height } else { tallest }
}

impl MovedBoxes {
    pub(crate) fn new(alloc: Global) -> MovedBoxes
        ensures none { result.boxes.items ≡ [] }
        ensures kept { AreKeptBoxes result }
    {
        let nowhere = Box2 {
            left: 0,
            top: 0,
            right: 0,
            bottom: 0,
        };
        MovedBoxes {
            boxes: Vec::new(alloc),
            layer: 0,
            first_end: 0,
            tallest: 0,
            tried: Stand {
                start: 0,
                end: 0,
                place: nowhere,
                down: false,
            },
            shift: 0,
        }
    }

    /// Whether all are sure to be in the way of an event.
    fn all_stay(&self, span: &EventSpan) -> bool
        ensures { result ≡ all_stay span.now self.now }
    {
        self.layer == span.layer && span.start < self.first_end
    }

    /// Drops the events that aren't in the way of one: those that have ended, and those of other layers.
    pub(crate) fn drop_others(&mut self, span: &EventSpan)
        requires { AreKeptBoxes self.old }
        ensures boxes { self.new.boxes.items ≡ filter (is_in_way span.now) self.old.boxes.items }
        ensures layer { self.new.layer ≡ span.now.layer }
        ensures kept { AreKeptBoxes self.new }
    {
        if self.all_stay(span) {
            return;
        }
        self.boxes.retain(|one| is_in_way(span, one));
        self.layer = span.layer;
        self.first_end = earliest_end(self.boxes.as_slice());
        self.shift = 0;
    }

    /// Takes a stand as the one that is tried, unless it covers that.
    fn try_covered(&mut self, stand: &Stand)
        requires kept { AreKeptBoxes self.old }
        requires stand { IsPlaceableStand stand.now }
        ensures boxes { self.new.boxes.items ≡ self.old.boxes.items }
        ensures layer { self.new.layer ≡ self.old.layer }
        ensures kept { AreKeptBoxes self.new }
        ensures covers { CoversStand stand.now self.new.tried }
    {
        if !covers(stand, &self.tried) {
            self.tried = *stand;
            self.shift = 0;
        }
    }

    /// A shift below which the box of a stand isn't clear.
    pub(crate) fn bound_for(&mut self, stand: &Stand) -> Fix
        requires kept { AreKeptBoxes self.old }
        requires within { AreBoxesWithin most_before self.old.boxes.items }
        requires stand { IsPlaceableStand stand.now }
        ensures boxes { self.new.boxes.items ≡ self.old.boxes.items }
        ensures layer { self.new.layer ≡ self.old.layer }
        ensures kept { AreKeptBoxes self.new }
        ensures range { IsShift max_shift result }
        ensures bound { IsClearFrom result stand.now (box_places self.old.boxes.items) }
    {
        self.try_covered(stand);
        self.shift = shift_clear(&self.tried, self.boxes.as_slice(), self.tallest, self.shift);
        self.shift
    }

    /// Adds the box of one more event of their layer, moved by a shift.
    pub(crate) fn add(&mut self, span: &EventSpan, stand: &Stand, shift: Fix) -> Mem<()>
        requires kept { AreKeptBoxes self.old }
        requires layer { self.old.layer ≡ span.now.layer }
        requires stand { IsPlaceableStand stand.now }
        requires shift { IsShift max_shift shift }
        ensures members { OnOk result (IsPermutation (placed_box span.now stand.now shift ∷ self.old.boxes.items) self.new.boxes.items) }
        ensures kept { OnOk result (AreKeptBoxes self.new) }
    {
        add_box(&mut self.boxes, placed_box(span, stand, shift))?;
        self.first_end = self.first_end.min(span.end);
        self.tallest = taller(self.tallest, stand);
        Ok(())
    }
}

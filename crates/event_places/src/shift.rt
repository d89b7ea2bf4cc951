//! The least shift of one box.

ghost use Rattle.std.specs.Prelude.{◌≡◌, ◌↔◌, ◌+◌, ◌*◌, ℕ, ℤ, pos, ◌≤ℤ◌, IsTrue, true};
ghost use Rattle.std.specs.List.{All};
ghost use Rattle.event_places.specs.Placement.{Meet, Overlap, moved_box, passing, IsClear, IsLeastShift, IsBoxWithin, IsLow, IsShift, max_box};

use crate::stands::Box2;
use ass_num::Fix;

/// The least number from 0 on by which `b`, moved down or up, meets none of the others. Boxes that only touch don't meet.
/// It hops from box to box; where the others come in the order in which `b` gets to them, one walk over them is enough, and a second
/// one sees that nothing is met. The moved box lies further out than all of them by no more than its height.
pub fn least_shift(b: &Box2, others: &[Box2], down: bool) -> Fix
    requires within { IsBoxWithin max_box b.now }
    requires others_within { All (IsBoxWithin max_box) others.now }
    ensures least { IsLeastShift b.now others.now down result }
    ensures within { (limit : ℕ) → IsBoxWithin limit b.now → All (IsBoxWithin limit) others.now → IsShift (2 * limit) result }
    ensures moved { (limit height : ℕ) → IsBoxWithin limit b.now → All (IsBoxWithin limit) others.now → IsLow height b.now
        → IsBoxWithin (limit + height) (moved_box down result b.now) }
{
    let mut shift = 0;
    loop {
        let next = hop(b, others, down, shift);
        if next == shift {
            return shift;
        }
        shift = next;
    }
}

/// One walk over the others, past each that is met on the way.
fn hop(b: &Box2, others: &[Box2], down: bool, from: Fix) -> Fix
    requires within { IsBoxWithin max_box b.now }
    requires others_within { All (IsBoxWithin max_box) others.now }
    requires shift { IsShift (2 * max_box) from }
    ensures shift { IsShift (2 * max_box) result }
    ensures onward { from ≤ℤ result }
    ensures least { (other : ℤ) → from ≤ℤ other → IsClear b.now others.now down other → result ≤ℤ other }
    ensures stays { result ≡ from → IsClear b.now others.now down from }
{
    let mut shift = from;
    for other in others {
        if meet(&moved(b, down, shift), other) {
            shift = shift_past(b, other, down);
        }
    }
    shift
}

/// The box, moved by a shift.
pub(crate) fn moved(b: &Box2, down: bool, shift: Fix) -> Box2
    requires within { IsBoxWithin max_box b.now }
    requires shift { IsShift (2 * max_box) shift }
    ensures { result ≡ moved_box down shift b.now }
{
    if down {
        Box2 {
            top: b.top + shift,
            bottom: b.bottom + shift,
            ..*b
        }
    } else {
        Box2 {
            top: b.top - shift,
            bottom: b.bottom - shift,
            ..*b
        }
    }
}

/// Whether two boxes overlap across and down.
pub(crate) fn meet(a: &Box2, b: &Box2) -> bool
    ensures { IsTrue result ↔ Meet a.now b.now }
{
    overlap(a.left, a.right, b.left, b.right) && overlap(a.top, a.bottom, b.top, b.bottom)
}

/// Whether two open ranges overlap.
fn overlap(a: Fix, b: Fix, c: Fix, d: Fix) -> bool
    ensures { IsTrue result ↔ Overlap a b c d }
{
    a < b && c < d && a < d && c < b
}

/// The shift from which on the box is past the other one.
pub(crate) fn shift_past(b: &Box2, other: &Box2, down: bool) -> Fix
    requires within { IsBoxWithin max_box b.now }
    requires other_within { IsBoxWithin max_box other.now }
    ensures { result ≡ passing down b.now other.now }
{
    if down {
        other.bottom - b.top
    } else {
        b.bottom - other.top
    }
}

//! Laws of least shifts. The function does nothing: its contract is the laws.

ghost use Rattle.std.specs.Prelude.{◌≡◌, ℤ, Bool, List};
ghost use Rattle.event_places.specs.Placement.{IsLeastShift, AreLeastShifts};

use crate::stands::{Box2, Stand};

/// A box has one least shift, and a list of stands has one list of least shifts.
pub fn one_list_of_shifts()
    ensures one { (b : Box2) (others : List Box2) (down : Bool) (s t : ℤ) → IsLeastShift b others down s → IsLeastShift b others down t → s ≡ t }
    ensures list { (stands : List Stand) (shifts others : List ℤ) → AreLeastShifts stands shifts → AreLeastShifts stands others → shifts ≡ others }
{}

//! What C keeps of a seat between calls.
ghost use Rattle.std.specs.Prelude.{◌≡◌};
ghost use Rattle.vimalorua_c.specs.declared.held_seat.HeldSeat.{HeldSeat};

use crate::held_seat::HeldSeat;
use crate::parts::Parts;
use std::alloc::Global;
use std::marker::Model;

/// A box as C may hold it: a pointer that names no type of ours, and what stands there.
#[repr(C)]
#[derive(Drop)]
pub struct SeatHandle {
    at: *mut u8,
    alloc: Global,
    pub ghost value: { HeldSeat },
}

impl Model for SeatHandle {
    ghost use Rattle.std_alloc.specs.Box.Ownership.{box_owns};
    ghost use Rattle.std_heap.specs.contracts.GlobalAllocator.TheImpl.{ghosts};
    ghost use denote.Param.{param};
    ghost use Rattle.vimalorua_c.specs.contracts.held_seat.HeldSeat as kept;

    ghost also_owns = { λ h. box_owns (ghosts.dealloc_token h.alloc) (param 0 kept.the_row) h.at h.value };
}

impl SeatHandle {
    fn of_parts(parts: Parts<HeldSeat, Global>) -> SeatHandle
        ensures { result.value ≡ parts.value }
    {
        let Parts { ptr, alloc } = parts;
        SeatHandle {
            at: ptr as *mut u8,
            alloc,
        }
    }

    fn into_parts(self) -> Parts<HeldSeat, Global>
        ensures { result.value ≡ self.value }
    {
        let SeatHandle { at, alloc } = self;
        Parts {
            ptr: at as *mut HeldSeat,
            alloc,
        }
    }

    /// A handle of the seat in a box.
    pub fn of(kept: Box<HeldSeat>) -> SeatHandle
        ensures { result.value ≡ kept.value }
    {
        SeatHandle::of_parts(Parts::of(kept))
    }

    /// The box again.
    pub fn into_box(self) -> Box<HeldSeat>
        ensures { result.value ≡ self.value }
    {
        self.into_parts().into_box()
    }
}

unsafe impl Send for SeatHandle {}

//! What C keeps between calls.
ghost use Rattle.std.specs.Prelude.{◌≡◌};
ghost use Rattle.vimalorua_c.specs.declared.kept.HeldPlayer.{HeldPlayer};

use crate::kept::HeldPlayer;
use crate::parts::Parts;
use std::alloc::Global;
use std::marker::Model;

/// A box as C may hold it: a pointer that names no type of ours, and what stands there.
#[repr(C)]
#[derive(Drop)]
pub struct Handle {
    at: *mut u8,
    alloc: Global,
    pub ghost value: { HeldPlayer },
}

impl Model for Handle {
    ghost use Rattle.std_alloc.specs.Box.Ownership.{box_owns};
    ghost use Rattle.std_heap.specs.contracts.GlobalAllocator.TheImpl.{ghosts};
    ghost use denote.Param.{param};
    ghost use Rattle.vimalorua_c.specs.contracts.kept.HeldPlayer as kept;

    ghost also_owns = { λ h. box_owns (ghosts.dealloc_token h.alloc) (param 0 kept.the_row) h.at h.value };
}

impl Handle {
    fn of_parts(parts: Parts<HeldPlayer, Global>) -> Handle
        ensures { result.value ≡ parts.value }
    {
        let Parts { ptr, alloc } = parts;
        Handle {
            at: ptr as *mut u8,
            alloc,
        }
    }

    fn into_parts(self) -> Parts<HeldPlayer, Global>
        ensures { result.value ≡ self.value }
    {
        let Handle { at, alloc } = self;
        Parts {
            ptr: at as *mut HeldPlayer,
            alloc,
        }
    }

    /// A handle of what stands in a box.
    pub fn of(kept: Box<HeldPlayer>) -> Handle
        ensures { result.value ≡ kept.value }
    {
        Handle::of_parts(Parts::of(kept))
    }

    /// The box again.
    pub fn into_box(self) -> Box<HeldPlayer>
        ensures { result.value ≡ self.value }
    {
        self.into_parts().into_box()
    }
}

unsafe impl Send for Handle {}

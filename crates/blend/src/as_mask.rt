//! What an image has its mask from.

ghost use Rattle.std.specs.Prelude.{◌≡◌};
ghost use Rattle.ass_num.specs.Masks.{MaskValue};

use ass_num::Mask;
use std::sync::Arc;

/// A reference to a mask, or what owns one.
pub trait AsMask {
    /// The mask.
    ghost mask: { Self → MaskValue };

    /// The mask.
    fn as_mask(&self) -> &Mask
        ensures { result.now ≡ mask self.now };
}

impl AsMask for &Mask {
    ghost mask = { λ reference. reference.now };

    fn as_mask(&self) -> &Mask {
        *self
    }
}

impl AsMask for Arc<Mask> {
    ghost use Rattle.std.specs.Arc.{arc_value};

    ghost mask = { λ shared. arc_value shared };

    fn as_mask(&self) -> &Mask {
        self
    }
}

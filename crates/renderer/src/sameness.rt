//! Whether two frames show the same.
ghost use Rattle.std.specs.Bool.{Decides};
ghost use Rattle.std.specs.Prelude.{◌≡◌, true, map};
ghost use Rattle.renderer.specs.ShownFrames.{AreSameShown, canvas_of, image_shown, stencil_shown};

use crate::{Frame, FrameImage, FrameStencil};
use ass_num::Mask;
use blend::Stencil;

/// Whether two masks have the same bytes in the same box.
fn is_same_mask(a: &Mask, b: &Mask) -> bool
    ensures { Decides result (a.now ≡ b.now) }
{
    if a.x() != b.x() {
        return false;
    }
    if a.y() != b.y() {
        return false;
    }
    if a.w() != b.w() {
        return false;
    }
    if a.h() != b.h() {
        return false;
    }
    a.bytes() == b.bytes()
}

/// Whether two stencils are the same, with the masks of their leases.
fn is_same_stencil(a: &FrameStencil, b: &FrameStencil) -> bool
    ensures { Decides result (stencil_shown a.now ≡ stencil_shown b.now) }
{
    match a {
        Stencil::Free => matches!(b, Stencil::Free),
        Stencil::Rect {
            x1,
            y1,
            x2,
            y2,
            inverse,
        } => match b {
            Stencil::Rect {
                x1: other_x1,
                y1: other_y1,
                x2: other_x2,
                y2: other_y2,
                inverse: other_inverse,
            } => {
                *x1 == *other_x1
                    && *y1 == *other_y1
                    && *x2 == *other_x2
                    && *y2 == *other_y2
                    && *inverse == *other_inverse
            }
            _ => false,
        },
        Stencil::Drawn {
            mask,
            x,
            y,
            inverse,
        } => match b {
            Stencil::Drawn {
                mask: other_mask,
                x: other_x,
                y: other_y,
                inverse: other_inverse,
            } => {
                *x == *other_x
                    && *y == *other_y
                    && *inverse == *other_inverse
                    && is_same_mask(mask.value(), other_mask.value())
            }
            _ => false,
        },
    }
}

/// Whether two images are the same, with the masks of their leases.
fn is_same_image(a: &FrameImage, b: &FrameImage) -> bool
    ensures { Decides result (image_shown a.now ≡ image_shown b.now) }
{
    if a.x != b.x {
        return false;
    }
    if a.y != b.y {
        return false;
    }
    if !(a.left == b.left) {
        return false;
    }
    if !(a.right == b.right) {
        return false;
    }
    if a.edge != b.edge {
        return false;
    }
    if !is_same_stencil(&a.stencil, &b.stencil) {
        return false;
    }
    is_same_mask(a.mask.value(), b.mask.value())
}

/// Whether all of them are.
fn are_same_images(a: &[FrameImage], b: &[FrameImage]) -> bool
    ensures { Decides result (map image_shown a.now ≡ map image_shown b.now) }
{
    if a.len() != b.len() {
        return false;
    }
    for (i, image) in a.iter().enumerate() {
        if !is_same_image(image, &b[i]) {
            return false;
        }
    }
    true
}

impl Frame {
    /// Whether the frame shows the same images as another in the same size, whatever their instants are: then they are painted
    /// alike, and the other picture serves. It compares the bytes of masks where all else is the same, and takes no memory.
    pub fn is_same_as(&self, other: &Frame) -> bool
        ensures same { Decides result (AreSameShown self.now other.now) }
        ensures picture { result ≡ true → canvas_of self.now ≡ canvas_of other.now }
    {
        if self.size.w != other.size.w {
            return false;
        }
        if self.size.h != other.size.h {
            return false;
        }
        are_same_images(self.images.as_slice(), other.images.as_slice())
    }
}

//! What a frame's own masks cost, which no cache counts.
ghost use Rattle.std.specs.Prelude.{◌≡◌, ◌≤◌, min};
ghost use Rattle.evict_core.specs.Machine.{last_count, max_cost};
ghost use Rattle.renderer.specs.Owning.{cost_of_owned, own_cost};
ghost use Rattle.renderer.specs.ShownFrames.{leases_of, leases_of_clip, leases_of_image};

use crate::{Frame, FrameImage, FrameStencil};
use blend::Stencil;
use cache_kinds::CompositeMade;
use flight_cache::Made;
use mask_caches::Lease;

/// What a lease's mask costs where it is the caller's own.
fn lease_cost(lease: &Lease<CompositeMade>) -> u64
    ensures cost { result ≡ own_cost lease.now }
    ensures small { result ≤ max_cost }
{
    match lease {
        Lease::Pinned(_) => 0,
        Lease::Own(mask) => CompositeMade::cost(mask),
    }
}

/// What that of a clip costs.
fn clip_cost(clip: &FrameStencil) -> u64
    ensures cost { result ≡ cost_of_owned (leases_of_clip clip.now) }
    ensures small { result ≤ max_cost }
{
    match clip {
        Stencil::Free => 0,
        Stencil::Rect { .. } => 0,
        Stencil::Drawn { mask, .. } => lease_cost(mask),
    }
}

/// What those of an image cost.
fn image_cost(image: &FrameImage) -> u64
    ensures { result ≡ cost_of_owned (leases_of_image image.now) }
{
    lease_cost(&image.mask) + clip_cost(&image.stencil)
}

impl Frame {
    /// What the frame's masks cost that are its own: those for which a cache had no room. No totals count them, and they are
    /// freed with the frame. What its pins hold is in the totals of the composed masks. It is held at the last value of the
    /// type.
    pub fn owned(&self) -> u64
        ensures { result ≡ min last_count (cost_of_owned (leases_of self.now.images)) }
    {
        let mut owned = 0u64;
        for image in self.images.as_slice() {
            owned = owned.saturating_add(image_cost(image));
        }
        owned
    }
}

//! Images that are given back.
ghost use Rattle.std.specs.Prelude.{◌≡◌};
ghost use Rattle.cache_kinds.specs.Kinds.{composite_meaning};
ghost use Rattle.mask_caches.specs.Adding.{Adds};
ghost use Rattle.mask_caches.specs.Caches.{IsPassOf};
ghost use Rattle.mask_caches.specs.Holding.{all_given_steps};
ghost use Rattle.mask_keys.specs.Equality.{equal_composites};
ghost use Rattle.renderer.specs.ShownFrames.{leases_of, leases_of_clip, leases_of_image};
ghost use Rattle.renderer.specs.Holding.{HoldsLeases, HoldsLeasesFewer, AreHome};

use crate::{FrameImage, FrameStencil};
use blend::{Image, Stencil};
use mask_caches::{Caches, CachesPass};
use std::sync::Wait;

/// Gives back what was had of a clip.
fn release_clip<R: Wait>(
    caches: &Caches,
    rt: &R,
    pass: CachesPass,
    clip: FrameStencil,
) -> CachesPass
    requires pass { IsPassOf caches.now pass }
    requires own { AreHome caches.now (leases_of_clip clip) }
    requires held { HoldsLeases caches.now pass (leases_of_clip clip) }
    ensures pass { IsPassOf caches.now result }
    ensures composites { Adds equal_composites composite_meaning caches.now.composites pass.composites result.composites
        (all_given_steps (leases_of_clip clip)) }
    ensures masks { result.masks ≡ pass.masks }
    ensures regions { result.regions ≡ pass.regions }
    ensures holds { HoldsLeasesFewer caches.now pass result (leases_of_clip clip) }
{
    match clip {
        Stencil::Free => pass,
        Stencil::Rect {
            x1: _,
            y1: _,
            x2: _,
            y2: _,
            inverse: _,
        } => pass,
        Stencil::Drawn {
            mask,
            x: _,
            y: _,
            inverse: _,
        } => caches.give_back(rt, pass, mask),
    }
}

/// Gives an image back, the lease of its clip first.
fn release_image<R: Wait>(
    caches: &Caches,
    rt: &R,
    pass: CachesPass,
    image: FrameImage,
) -> CachesPass
    requires pass { IsPassOf caches.now pass }
    requires own { AreHome caches.now (leases_of_image image) }
    requires held { HoldsLeases caches.now pass (leases_of_image image) }
    ensures pass { IsPassOf caches.now result }
    ensures composites { Adds equal_composites composite_meaning caches.now.composites pass.composites result.composites
        (all_given_steps (leases_of_image image)) }
    ensures masks { result.masks ≡ pass.masks }
    ensures regions { result.regions ≡ pass.regions }
    ensures holds { HoldsLeasesFewer caches.now pass result (leases_of_image image) }
{
    let Image {
        mask,
        x: _,
        y: _,
        left: _,
        right: _,
        edge: _,
        stencil,
    } = image;
    let pass = release_clip(caches, rt, pass, stencil);
    caches.give_back(rt, pass, mask)
}

/// Gives images back, the last one first.
pub(crate) fn release_images<R: Wait>(
    caches: &Caches,
    rt: &R,
    pass: CachesPass,
    images: Vec<FrameImage>,
) -> CachesPass
    requires pass { IsPassOf caches.now pass }
    requires own { AreHome caches.now (leases_of images.items) }
    requires held { HoldsLeases caches.now pass (leases_of images.items) }
    ensures pass { IsPassOf caches.now result }
    ensures composites { Adds equal_composites composite_meaning caches.now.composites pass.composites result.composites
        (all_given_steps (leases_of images.items)) }
    ensures masks { result.masks ≡ pass.masks }
    ensures regions { result.regions ≡ pass.regions }
    ensures holds { HoldsLeasesFewer caches.now pass result (leases_of images.items) }
{
    let mut images = images;
    let mut pass = pass;
    while let Some(image) = images.pop() {
        pass = release_image(caches, rt, pass, image);
    }
    images.destroy_empty();
    pass
}

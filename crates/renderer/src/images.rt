//! Images: made with leases from the caches.
ghost use Rattle.std.specs.Prelude.{◌≡◌, ◌∷◌, [], map, IfOk, OnErr};
ghost use Rattle.std.specs.Arc.{arc_value};
ghost use Rattle.mask_caches.specs.Caches.{IsPassOf};
ghost use Rattle.mask_caches.specs.Leases.{lease_value};
ghost use Rattle.mask_keys.specs.Keys.{IsValidClip, IsValidComposite, IsValidDraw, IsValidPlan};
ghost use Rattle.mask_keys.specs.Outlines.{glyph_counts};
ghost use Rattle.mask_keys.specs.Pictures.{image_of_draw, stencil_of};
ghost use Rattle.mask_keys.specs.Values.{composite_value};
ghost use Rattle.renderer.specs.ShownFrames.{image_shown, leases_of, leases_of_clip, leases_of_image, stencil_shown};
ghost use Rattle.mask_keys.specs.PlanKeys.{clip_keys, draw_keys, plan_keys};
ghost use Rattle.renderer.specs.Leasing.{IsLent, IsUnlent};

use crate::releasing::release_images;
use crate::{FrameImage, FrameStencil};
use ass_num::{Items, Mem, OutOfMemory};
use blend::Stencil;
use cache_kinds::CompositeMade;
use mask_caches::{Caches, CachesPass, Lease};
use mask_keys::{Clip, CompositeKey, Draw};
use std::alloc::Global;
use std::sync::Wait;
use test_hook::TestHook;

/// What is had of a key's composed mask.
fn lend_mask<R: Wait, H: TestHook>(
    caches: &Caches,
    rt: &R,
    alloc: Global,
    pass: CachesPass,
    key: &CompositeKey,
    hook: &H,
) -> (CachesPass, Mem<Lease<CompositeMade>>)
    requires pass { IsPassOf caches.now pass }
    requires key { IsValidComposite (glyph_counts (arc_value caches.now.fonts).fonts) key.now }
    ensures lent { IfOk result.1 (λ lease. IsLent caches.now pass result.0 (key.now ∷ []) (lease ∷ [])) }
    ensures refused { OnErr result.1 (IsUnlent caches.now pass result.0 (key.now ∷ [])) }
    ensures value { IfOk result.1 (λ lease. lease_value lease ≡ composite_value (arc_value caches.now.fonts).fonts key.now) }
{
    caches.composite(rt, alloc, pass, key, hook)
}

/// A clip, with what was had of its key where it is a drawn one.
fn lend_clip<R: Wait, H: TestHook>(
    caches: &Caches,
    rt: &R,
    alloc: Global,
    pass: CachesPass,
    clip: &Clip,
    hook: &H,
) -> (CachesPass, Mem<FrameStencil>)
    requires pass { IsPassOf caches.now pass }
    requires keys { IsValidClip (glyph_counts (arc_value caches.now.fonts).fonts) clip.now }
    ensures lent { IfOk result.1 (λ had. IsLent caches.now pass result.0 (clip_keys clip.now) (leases_of_clip had)) }
    ensures refused { OnErr result.1 (IsUnlent caches.now pass result.0 (clip_keys clip.now)) }
    ensures shown { IfOk result.1 (λ had. stencil_shown had ≡ stencil_of (arc_value caches.now.fonts).fonts clip.now) }
{
    match clip {
        Clip::Free => (pass, Ok(Stencil::Free)),
        Clip::Rect {
            x1,
            y1,
            x2,
            y2,
            inverse,
        } => {
            let clip = Stencil::Rect {
                x1: *x1,
                y1: *y1,
                x2: *x2,
                y2: *y2,
                inverse: *inverse,
            };
            (pass, Ok(clip))
        }
        Clip::Drawn { key, x, y, inverse } => {
            let (pass, had) = lend_mask(caches, rt, alloc, pass, key, hook);
            match had {
                Ok(lease) => {
                    let clip = Stencil::Drawn {
                        mask: lease,
                        x: *x,
                        y: *y,
                        inverse: *inverse,
                    };
                    (pass, Ok(clip))
                }
                Err(refused) => (pass, Err(refused)),
            }
        }
    }
}

/// The image of a draw, through the caches. Where its clip can't be had, what was had of its key is given back.
fn lend_image<R: Wait, H: TestHook>(
    caches: &Caches,
    rt: &R,
    alloc: Global,
    pass: CachesPass,
    draw: &Draw,
    hook: &H,
) -> (CachesPass, Mem<FrameImage>)
    requires pass { IsPassOf caches.now pass }
    requires keys { IsValidDraw (glyph_counts (arc_value caches.now.fonts).fonts) draw.now }
    ensures lent { IfOk result.1 (λ had. IsLent caches.now pass result.0 (draw_keys draw.now) (leases_of_image had)) }
    ensures refused { OnErr result.1 (IsUnlent caches.now pass result.0 (draw_keys draw.now)) }
    ensures shown { IfOk result.1 (λ had. image_shown had ≡ image_of_draw (arc_value caches.now.fonts).fonts draw.now) }
{
    let (pass, had) = lend_mask(caches, rt, alloc, pass, &draw.key, hook);
    let lease = match had {
        Ok(lease) => lease,
        Err(refused) => return (pass, Err(refused)),
    };
    let (pass, clip) = lend_clip(caches, rt, alloc, pass, &draw.clip, hook);
    match clip {
        Ok(clip) => (pass, Ok(draw.image(lease, clip))),
        Err(refused) => (caches.give_back(rt, pass, lease), Err(refused)),
    }
}

/// The images of draws, through the caches, in order. Where one can't be had, those before it are given back.
pub(crate) fn lend_images<R: Wait, H: TestHook>(
    caches: &Caches,
    rt: &R,
    alloc: Global,
    pass: CachesPass,
    draws: &Items<Draw>,
    hook: &H,
) -> (CachesPass, Mem<Items<FrameImage>>)
    requires pass { IsPassOf caches.now pass }
    requires keys { IsValidPlan (glyph_counts (arc_value caches.now.fonts).fonts) draws.now }
    ensures lent { IfOk result.1 (λ had. IsLent caches.now pass result.0 (plan_keys draws.now) (leases_of had)) }
    ensures refused { OnErr result.1 (IsUnlent caches.now pass result.0 (plan_keys draws.now)) }
    ensures shown { IfOk result.1 (λ had. map image_shown had ≡ map (image_of_draw (arc_value caches.now.fonts).fonts) draws.now) }
{
    let mut images = Vec::new(alloc);
    if images.reserve(draws.len()).is_err() {
        images.destroy_empty();
        return (pass, Err(OutOfMemory));
    }
    let mut pass = pass;
    for draw in draws.as_slice() {
        let (next, had) = lend_image(caches, rt, alloc, pass, draw, hook);
        pass = next;
        match had {
            Ok(image) => images.push_reserved(image),
            Err(refused) => return (release_images(caches, rt, pass, images), Err(refused)),
        }
    }
    (pass, Ok(Items::from_vec(images)))
}

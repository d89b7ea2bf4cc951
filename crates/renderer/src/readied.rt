//! Images with leases that were had all at once.
ghost use Rattle.std.specs.Prelude.{◌≡◌, ◌<◌, ◌≤◌, ◌∷◌, ◌++◌, List, [], length, map, reverse, IfOk, vec_capacity, vec_len};
ghost use Rattle.bdf_font.specs.Fonts.{FontValue};
ghost use Rattle.mask_caches.specs.Leases.{lease_value};
ghost use Rattle.mask_keys.specs.Pictures.{image_of_draw, stencil_of};
ghost use Rattle.mask_keys.specs.Values.{composite_value};
ghost use Rattle.renderer.specs.ShownFrames.{image_shown, leases_of, leases_of_clip, leases_of_image, stencil_shown};
ghost use Rattle.mask_keys.specs.PlanKeys.{clip_keys, draw_keys, plan_keys};

use crate::{FrameImage, FrameStencil};
use ass_num::{Items, Mem};
use blend::Stencil;
use cache_kinds::CompositeMade;
use mask_caches::Lease;
use mask_keys::{Clip, CompositeKey, Draw, key_copy, plan_keys};
use std::alloc::Global;

/// Copies of the keys of draws, in their order.
pub(crate) fn key_copies(alloc: Global, draws: &Items<Draw>) -> Mem<Vec<CompositeKey>>
    ensures { IfOk result (λ keys. keys.items ≡ plan_keys draws.now) }
{
    let keys = plan_keys(alloc, draws.as_slice())?;
    let mut copies = Vec::new(alloc);
    for key in keys.as_slice() {
        copies.push(key_copy(alloc, key)?)?;
    }
    Ok(copies)
}

/// The last of the leases. There is one.
fn next_lease(leases: &mut Vec<Lease<CompositeMade>>) -> Lease<CompositeMade>
    requires { 0 < length leases.old.items }
    ensures { leases.old.items ≡ leases.new.items ++ result ∷ [] }
{
    match leases.pop() {
        Some(lease) => lease,
        None => unreachable!(),
    }
}

/// A clip, with the last of the leases where it is a drawn one.
fn ready_clip(clip: &Clip, leases: &mut Vec<Lease<CompositeMade>>) -> FrameStencil
    requires { length (clip_keys clip.now) ≤ length leases.old.items }
    ensures leases { reverse leases.old.items ≡ leases_of_clip result ++ reverse leases.new.items }
    ensures many { length (leases_of_clip result) ≡ length (clip_keys clip.now) }
    ensures shown { (fonts : List FontValue) → map lease_value (leases_of_clip result) ≡ map (composite_value fonts) (clip_keys clip.now)
        → stencil_shown result ≡ stencil_of fonts clip.now }
{
    match clip {
        Clip::Free => Stencil::Free,
        Clip::Rect {
            x1,
            y1,
            x2,
            y2,
            inverse,
        } => Stencil::Rect {
            x1: *x1,
            y1: *y1,
            x2: *x2,
            y2: *y2,
            inverse: *inverse,
        },
        Clip::Drawn { x, y, inverse, .. } => Stencil::Drawn {
            mask: next_lease(leases),
            x: *x,
            y: *y,
            inverse: *inverse,
        },
    }
}

/// The image of a draw, with the last of the leases, and the one before it where its clip is a drawn one.
fn ready_image(draw: &Draw, leases: &mut Vec<Lease<CompositeMade>>) -> FrameImage
    requires { length (draw_keys draw.now) ≤ length leases.old.items }
    ensures leases { reverse leases.old.items ≡ leases_of_image result ++ reverse leases.new.items }
    ensures many { length (leases_of_image result) ≡ length (draw_keys draw.now) }
    ensures shown { (fonts : List FontValue) → map lease_value (leases_of_image result) ≡ map (composite_value fonts) (draw_keys draw.now)
        → image_shown result ≡ image_of_draw fonts draw.now }
{
    let lease = next_lease(leases);
    let clip = ready_clip(&draw.clip, leases);
    draw.image(lease, clip)
}

/// The images of draws, with leases of their keys. There is room for them.
pub(crate) fn images_with(
    draws: &Items<Draw>,
    leases: Vec<Lease<CompositeMade>>,
    room: Vec<FrameImage>,
) -> Items<FrameImage>
    requires many { length leases.items ≡ length (plan_keys draws.now) }
    requires empty { room.items ≡ [] }
    requires len { vec_len room ≡ 0 }
    requires room { length draws.now ≤ vec_capacity room }
    ensures leases { leases_of result ≡ leases.items }
    ensures shown { (fonts : List FontValue) → map lease_value leases.items ≡ map (composite_value fonts) (plan_keys draws.now)
        → map image_shown result ≡ map (image_of_draw fonts) draws.now }
{
    let mut leases = leases;
    let mut images = room;
    leases.reverse();
    for draw in draws.as_slice() {
        images.push_reserved(ready_image(draw, &mut leases));
    }
    leases.destroy_empty();
    Items::from_vec(images)
}

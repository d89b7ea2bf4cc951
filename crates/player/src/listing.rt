//! The plain images of a plan.

ghost use Rattle.std.specs.Prelude.{◌≡◌, map, IfOk, OnOk};
ghost use Rattle.std.specs.Arc.{arc_value};
ghost use Rattle.ass_num.specs.Limits.{IsFrameSize};
ghost use Rattle.blend.specs.Images.{image_value};
ghost use Rattle.mask_keys.specs.Keys.{IsValidDraw, IsValidPlan};
ghost use Rattle.mask_keys.specs.Outlines.{glyph_counts};
ghost use Rattle.mask_keys.specs.Pictures.{image_of_draw};
ghost use Rattle.plain_images.specs.PlainImages.{ArePlainImages};
ghost use Rattle.player.specs.Listing.{AddsDraw};
ghost use Rattle.player.specs.Players.{mask_bytes};

use ass_num::{Mask, Mem, OutOfMemory, Size};
use blend::Image;
use local_caches::LocalCaches;
use mask_keys::{Draw, Plan};
use plain_images::{PlainImage, plain_images_of};
use std::alloc::Global;
use std::sync::Arc;

/// Adds the plain images of an image.
fn add_image(
    alloc: Global,
    size: &Size,
    image: &Image<Arc<Mask>>,
    images: &mut Vec<PlainImage>,
) -> Mem<()>
    requires { IsFrameSize size.now }
    ensures { OnOk result (AddsDraw size.now (image_value arc_value image.now) images.old.items images.new.items) }
{
    let plains = plain_images_of(alloc, size, image)?;
    let mut plains = plains;
    Ok(images.append(&mut plains)?)
}

/// Adds the plain images of a draw, with the masks of its keys through the caches.
fn add_draw(
    alloc: Global,
    local: &mut LocalCaches,
    size: &Size,
    draw: &Draw,
    images: &mut Vec<PlainImage>,
) -> Mem<()>
    requires draw { IsValidDraw (glyph_counts local.old.fonts) draw.now }
    requires size { IsFrameSize size.now }
    ensures fonts { local.new.fonts ≡ local.old.fonts }
    ensures budget { local.new.budget ≡ local.old.budget }
    ensures added { OnOk result (AddsDraw size.now (image_of_draw local.old.fonts draw.now) images.old.items images.new.items) }
{
    let image = local.image(alloc, draw)?;
    add_image(alloc, size, &image, images)
}

/// The plain images of a plan in a frame of a size.
pub(crate) fn images_of_plan(
    alloc: Global,
    local: &mut LocalCaches,
    size: &Size,
    plan: &Plan,
) -> Mem<Vec<PlainImage>>
    requires plan { IsValidPlan (glyph_counts local.old.fonts) plan.now.draws }
    requires size { IsFrameSize size.now }
    ensures fonts { local.new.fonts ≡ local.old.fonts }
    ensures budget { local.new.budget ≡ local.old.budget }
    ensures images { IfOk result (λ images. ArePlainImages size.now (map (image_of_draw local.old.fonts) plan.now.draws) images.items) }
{
    let mut images = Vec::new(alloc);
    for draw in plan.draws.as_slice() {
        add_draw(alloc, local, size, draw, &mut images)?;
    }
    Ok(images)
}

/// How many bytes the masks of plain images have together. More than can be counted are too many for any memory.
pub(crate) fn byte_count(images: &[PlainImage]) -> Mem<usize>
    ensures { IfOk result (λ count. count ≡ mask_bytes images.now) }
{
    let mut count: usize = 0;
    for image in images {
        match count.checked_add(image.mask.bytes().len()) {
            Some(more) => count = more,
            None => return Err(OutOfMemory),
        }
    }
    Ok(count)
}

//! The plain images of an image.

ghost use Rattle.std.specs.Prelude.{◌∷◌, [], IfOk, OnOk};
ghost use Rattle.ass_num.specs.Limits.{IsFrameSize};
ghost use Rattle.blend.specs.Areas.{placed_of};
ghost use Rattle.blend.specs.Blending.{Free};
ghost use Rattle.blend.specs.Images.{image_value, stencil_value};
ghost use Rattle.plain_images.specs.Cutting.{IsCuttable, clip_stencil};
ghost use Rattle.plain_images.specs.Listing.{AddsPanes, mask_stencil, rect_stencil};
ghost use Rattle.plain_images.specs.Panes.{HasSides, IsPartOf, panes_around, panes_beside};
ghost use Rattle.plain_images.specs.PlainImages.{ArePlainOf, stencil_panes};

use crate::cutting::{DrawnClip, cut_mask};
use crate::panes::{Pane, box_pane, frame_pane};
use crate::plain::PlainImage;
use ass_num::{Mem, Rgba, Size};
use blend::{AsMask, Image, Placed, Stencil};
use std::alloc::Global;

/// Adds what a drawn clip leaves of a pane, if the pane isn't empty.
fn add_pane(
    alloc: Global,
    placed: Placed<'_>,
    pane: Pane,
    clip: Option<DrawnClip<'_>>,
    colour: Rgba,
    plains: &mut Vec<PlainImage>,
) -> Mem<()>
    requires { IsCuttable (placed_of placed) pane }
    ensures { OnOk result (AddsPanes (placed_of placed.entry) (clip_stencil clip.entry) (pane ∷ []) colour plains.old.items plains.new.items) }
{
    if pane.is_empty() {
        return Ok(());
    }
    let mask = cut_mask(alloc, placed, pane, clip)?;
    Ok(plains.push(PlainImage { mask, colour })?)
}

/// Adds what a mask has of a pane above, below, left and right of a part that isn't empty.
fn add_beside(
    alloc: Global,
    placed: Placed<'_>,
    pane: Pane,
    hole: Pane,
    colour: Rgba,
    plains: &mut Vec<PlainImage>,
) -> Mem<()>
    requires cuttable { IsCuttable (placed_of placed) pane }
    requires part { IsPartOf hole pane }
    requires some { HasSides hole }
    ensures { OnOk result (AddsPanes (placed_of placed.entry) Free (panes_beside pane hole) colour plains.old.items plains.new.items) }
{
    let above = Pane {
        y2: hole.y1,
        ..pane
    };
    let below = Pane {
        y1: hole.y2,
        ..pane
    };
    let left = Pane {
        x1: pane.x1,
        x2: hole.x1,
        ..hole
    };
    let right = Pane {
        x1: hole.x2,
        x2: pane.x2,
        ..hole
    };
    add_pane(alloc, placed, above, None, colour, plains)?;
    add_pane(alloc, placed, below, None, colour, plains)?;
    add_pane(alloc, placed, left, None, colour, plains)?;
    add_pane(alloc, placed, right, None, colour, plains)
}

/// Adds what a mask has of a pane outside a part of it.
fn add_around(
    alloc: Global,
    placed: Placed<'_>,
    pane: Pane,
    hole: Pane,
    colour: Rgba,
    plains: &mut Vec<PlainImage>,
) -> Mem<()>
    requires cuttable { IsCuttable (placed_of placed) pane }
    requires part { IsPartOf hole pane }
    ensures { OnOk result (AddsPanes (placed_of placed.entry) Free (panes_around pane hole) colour plains.old.items plains.new.items) }
{
    if hole.is_empty() {
        add_pane(alloc, placed, pane, None, colour, plains)
    } else {
        add_beside(alloc, placed, pane, hole, colour, plains)
    }
}

/// Adds what a mask has of a pane in a rectangle, or at `inverse` outside it.
fn add_in_rect(
    alloc: Global,
    placed: Placed<'_>,
    pane: Pane,
    rect: Pane,
    inverse: bool,
    colour: Rgba,
    plains: &mut Vec<PlainImage>,
) -> Mem<()>
    requires { IsCuttable (placed_of placed) pane }
    ensures { OnOk result (AddsPanes (placed_of placed.entry) (rect_stencil rect inverse) (stencil_panes (rect_stencil rect inverse) pane) colour
        plains.old.items plains.new.items) }
{
    let part = pane.both(rect);
    if inverse {
        add_around(alloc, placed, pane, part, colour, plains)
    } else {
        add_pane(alloc, placed, part, None, colour, plains)
    }
}

/// Adds what a drawn clip leaves of what a mask has of a pane.
fn add_under_clip(
    alloc: Global,
    placed: Placed<'_>,
    pane: Pane,
    over: Placed<'_>,
    inverse: bool,
    colour: Rgba,
    plains: &mut Vec<PlainImage>,
) -> Mem<()>
    requires { IsCuttable (placed_of placed) pane }
    ensures { OnOk result (AddsPanes (placed_of placed.entry) (mask_stencil (placed_of over.entry) inverse)
        (stencil_panes (mask_stencil (placed_of over.entry) inverse) pane) colour plains.old.items plains.new.items) }
{
    let clip = Some(DrawnClip { over, inverse });
    if inverse {
        add_pane(alloc, placed, pane, clip, colour, plains)
    } else {
        let part = pane.both(box_pane(over));
        add_pane(alloc, placed, part, clip, colour, plains)
    }
}

/// Adds what a mask has of a pane, in one colour, as a stencil leaves it.
fn add_stencilled<M: AsMask>(
    alloc: Global,
    placed: Placed<'_>,
    pane: Pane,
    colour: Rgba,
    stencil: &Stencil<M>,
    plains: &mut Vec<PlainImage>,
) -> Mem<()>
    requires { IsCuttable (placed_of placed) pane }
    ensures { OnOk result (AddsPanes (placed_of placed.entry) (stencil_value M.mask stencil.now) (stencil_panes (stencil_value M.mask stencil.now) pane)
        colour plains.old.items plains.new.items) }
{
    match stencil {
        Stencil::Free => add_pane(alloc, placed, pane, None, colour, plains),
        Stencil::Rect {
            x1,
            y1,
            x2,
            y2,
            inverse,
        } => {
            let rect = Pane {
                x1: i64::from(*x1),
                y1: i64::from(*y1),
                x2: i64::from(*x2),
                y2: i64::from(*y2),
            };
            add_in_rect(alloc, placed, pane, rect, *inverse, colour, plains)
        }
        Stencil::Drawn {
            mask,
            x,
            y,
            inverse,
        } => {
            let over = Placed {
                mask: mask.as_mask(),
                x: *x,
                y: *y,
            };
            add_under_clip(alloc, placed, pane, over, *inverse, colour, plains)
        }
    }
}

/// The plain images of an image in a frame of a size: what of the mask, moved right by `x` and down by `y`, lies in the frame, left of the
/// column `edge` in the colour `left` and from it on in `right`, cut by a rectangle and multiplied by a drawn clip.
pub fn plain_images_of<M: AsMask>(
    alloc: Global,
    size: &Size,
    image: &Image<M>,
) -> Mem<Vec<PlainImage>>
    requires { IsFrameSize size.now }
    ensures { IfOk result (λ plains. ArePlainOf size.now (image_value M.mask image.now) plains.items) }
{
    let placed = Placed {
        mask: image.mask.as_mask(),
        x: image.x,
        y: image.y,
    };
    let pane = frame_pane(size).both(box_pane(placed));
    let mut plains = Vec::new(alloc);
    add_stencilled(
        alloc,
        placed,
        pane.before_column(image.edge),
        image.left,
        &image.stencil,
        &mut plains,
    )?;
    add_stencilled(
        alloc,
        placed,
        pane.from_column(image.edge),
        image.right,
        &image.stencil,
        &mut plains,
    )?;
    Ok(plains)
}

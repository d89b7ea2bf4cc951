//! Cutting panes out of masks.

ghost use Rattle.std.specs.Prelude.{◌≡◌, ◌≤◌, ◌<◌, ◌+◌, ◌-◌, ◌*◌, ◌-ℤ◌, ◌≤ℤ◌, ℕ, pos, length, slice_index, if◌then◌else◌, IfOk, OnOk};
ghost use Rattle.ass_num.specs.Limits.{max_frame_side};
ghost use Rattle.blend.specs.Areas.{placed_of};
ghost use Rattle.blend.specs.Blending.{by_255, Drawn, stencilled};
ghost use Rattle.plain_images.specs.Cutting.{AddsBytes, AreRowsOf, IsCutOf, IsCuttable, IsPartInBox, IsRowCovered, IsRowPane, clip_stencil, stencilled_at};
ghost use Rattle.plain_images.specs.Panes.{HasSides};

use crate::panes::{Pane, box_pane};
use ass_num::{Mask, Mem};
use blend::{Placed, cover};
use std::alloc::Global;

/// A drawn clip: what its mask covers shows, or at `inverse` what the mask leaves.
#[derive(Clone, Copy)]
pub struct DrawnClip<'a> {
    pub over: Placed<'a>,
    pub inverse: bool,
}

/// From which pixel of a row on it has something, and up to which.
#[derive(Clone, Copy)]
struct Part {
    from: usize,
    to: usize,
}

/// The `count` pixels of row `j` from column `x` on.
fn row_pane(x: u32, count: usize, j: u32) -> Pane
    requires { x + count ≤ max_frame_side }
    ensures { IsRowPane x j count result }
{
    Pane {
        x1: i64::from(x),
        y1: i64::from(j),
        x2: i64::from(x) + count as i64,
        y2: i64::from(j) + 1,
    }
}

/// How many columns of a frame lie from one on up to another.
fn columns_between(first: i64, end: i64) -> usize
    requires low { pos 0 ≤ℤ first }
    requires ordered { first ≤ℤ end }
    requires high { end ≤ℤ pos max_frame_side }
    ensures { pos result ≡ end -ℤ first }
{
    (end - first) as usize
}

/// Which of `count` pixels from column `x` of row `j` on lie in the box of a placed mask.
fn part_in_box(placed: Placed<'_>, x: u32, count: usize, j: u32) -> Part
    requires { x + count ≤ max_frame_side }
    ensures { IsPartInBox (placed_of placed.entry) x j count result }
{
    let row = row_pane(x, count, j);
    let part = box_pane(placed).both(row);
    if part.is_empty() {
        return Part {
            from: count,
            to: count,
        };
    }
    Part {
        from: columns_between(row.x1, part.x1),
        to: columns_between(row.x1, part.x2),
    }
}

/// A byte of a mask under a byte of a drawn clip.
fn clipped(cover: u8, over: u8, inverse: bool) -> u8
    ensures { result ≡ by_255 (cover * (if inverse then 255 - over else over)) }
{
    let shown = if inverse { 255 - over } else { over };
    ((u16::from(cover) * u16::from(shown) + 127) / 255) as u8
}

/// Puts each byte from `start` on under the byte of a drawn clip at its place.
fn clip_from(bytes: &mut [u8], start: usize, over: &[u8], inverse: bool)
    requires { length bytes.old ≡ start + length over.now }
    ensures same { (k : ℕ) → k < start → slice_index bytes.new k ≡ slice_index bytes.old k }
    ensures clipped { (k : ℕ) → k < length over.now → slice_index bytes.new (start + k) ≡ by_255 (slice_index bytes.old (start + k)
        * (if inverse then 255 - slice_index over.now k else slice_index over.now k)) }
{
    for k in 0..over.len() {
        bytes[start + k] = clipped(bytes[start + k], over[k], inverse);
    }
}

/// Adds what a drawn clip leaves of bytes that it covers so far.
fn add_inside(bytes: &mut Vec<u8>, row: &[u8], over: &[u8], inverse: bool) -> Mem<()>
    requires { length row.now ≡ length over.now }
    ensures { OnOk result (AddsBytes (λ k. by_255 (slice_index row.now k * (if inverse then 255 - slice_index over.now k else slice_index over.now k)))
        (length row.now) bytes.old.items bytes.new.items) }
{
    let start = bytes.len();
    bytes.extend_from_slice(row)?;
    clip_from(bytes.as_mut_slice(), start, over, inverse);
    Ok(())
}

/// Adds what a drawn clip leaves of bytes outside its box: nothing, or at `inverse` all of them.
fn add_outside(bytes: &mut Vec<u8>, row: &[u8], inverse: bool) -> Mem<()>
    ensures { OnOk result (AddsBytes (λ k. if inverse then slice_index row.now k else 0) (length row.now) bytes.old.items bytes.new.items) }
{
    if inverse {
        return Ok(bytes.extend_from_slice(row)?);
    }
    bytes.resize(bytes.len() + row.len(), 0)?;
    Ok(())
}

/// Adds what a drawn clip leaves of the bytes of a row from column `x` on, of which this part lies in its box.
fn add_parts(
    bytes: &mut Vec<u8>,
    row: &[u8],
    x: u32,
    j: u32,
    clip: DrawnClip<'_>,
    part: Part,
) -> Mem<()>
    requires frame { x + length row.now ≤ max_frame_side }
    requires part { IsPartInBox (placed_of clip.over) x j (length row.now) part }
    requires some { part.from < part.to }
    ensures { OnOk result (AddsBytes (λ k. stencilled (Drawn clip.entry.over.mask.now clip.entry.over.x clip.entry.over.y clip.entry.inverse) (x + k) j
        (slice_index row.now k))
        (length row.now) bytes.old.items bytes.new.items) }
{
    let over = cover(clip.over, x + part.from as u32, x + part.to as u32, j);
    add_outside(bytes, &row[..part.from], clip.inverse)?;
    add_inside(bytes, &row[part.from..part.to], over, clip.inverse)?;
    add_outside(bytes, &row[part.to..], clip.inverse)?;
    Ok(())
}

/// Adds what a drawn clip leaves of the bytes of a row from column `x` on.
fn add_under(bytes: &mut Vec<u8>, row: &[u8], x: u32, j: u32, clip: DrawnClip<'_>) -> Mem<()>
    requires { x + length row.now ≤ max_frame_side }
    ensures { OnOk result (AddsBytes (λ k. stencilled (Drawn clip.entry.over.mask.now clip.entry.over.x clip.entry.over.y clip.entry.inverse) (x + k) j
        (slice_index row.now k))
        (length row.now) bytes.old.items bytes.new.items) }
{
    let part = part_in_box(clip.over, x, row.len(), j);
    if part.from < part.to {
        return add_parts(bytes, row, x, j, clip, part);
    }
    add_outside(bytes, row, clip.inverse)?;
    Ok(())
}

/// Adds what a drawn clip leaves of `w` pixels of a mask's box, from column `x` of row `j` on.
fn add_row(
    bytes: &mut Vec<u8>,
    placed: Placed<'_>,
    x: u32,
    w: u32,
    j: u32,
    clip: Option<DrawnClip<'_>>,
) -> Mem<()>
    requires covered { IsRowCovered (placed_of placed) x w j }
    requires frame { x + w ≤ max_frame_side }
    ensures { OnOk result (AddsBytes (λ k. stencilled_at (placed_of placed.entry) (clip_stencil clip.entry) (x + k) j) w bytes.old.items bytes.new.items) }
{
    let row = cover(placed, x, x + w, j);
    match clip {
        Some(clip) => add_under(bytes, row, x, j, clip),
        None => Ok(bytes.extend_from_slice(row)?),
    }
}

/// What a drawn clip leaves of `h` rows of `w` pixels in a mask's box and in a frame, from pixel (x, y) on.
fn rows_of(
    alloc: Global,
    placed: Placed<'_>,
    x: u32,
    y: u32,
    w: u32,
    h: u32,
    clip: Option<DrawnClip<'_>>,
) -> Mem<Vec<u8>>
    requires covered { (j : ℕ) → y ≤ j → j < y + h → IsRowCovered (placed_of placed) x w j }
    requires columns { x + w ≤ max_frame_side }
    requires rows { y + h ≤ max_frame_side }
    ensures { IfOk result (λ bytes. AreRowsOf (λ k l. stencilled_at (placed_of placed.entry) (clip_stencil clip.entry) (x + k) (y + l)) w h bytes.items) }
{
    let mut bytes = Vec::with_capacity(alloc, w as usize * h as usize)?;
    for l in 0..h {
        add_row(&mut bytes, placed, x, w, y + l, clip)?;
    }
    Ok(bytes)
}

/// What a drawn clip leaves of a pane in a mask's box and in a frame.
pub fn cut_mask(
    alloc: Global,
    placed: Placed<'_>,
    pane: Pane,
    clip: Option<DrawnClip<'_>>,
) -> Mem<Mask>
    requires cuttable { IsCuttable (placed_of placed) pane }
    requires some { HasSides pane }
    ensures { IfOk result (IsCutOf (placed_of placed.entry) (clip_stencil clip.entry) pane) }
{
    let x = pane.x1 as u32;
    let y = pane.y1 as u32;
    let w = (pane.x2 - pane.x1) as u32;
    let h = (pane.y2 - pane.y1) as u32;
    let bytes = rows_of(alloc, placed, x, y, w, h, clip)?;
    Ok(Mask::new(x as i32, y as i32, w, h, bytes))
}

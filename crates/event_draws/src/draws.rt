//! The draws of a run, and of the box of a line.

ghost use Rattle.std.specs.Prelude.{◌≡◌, ◌≤◌, ◌*◌, [], ◌∷◌, ◌++◌, ◌+ℤ◌, ◌-ℤ◌, true, All, IfOk, OnOk, map};
ghost use Rattle.ass_num.specs.Limits.{IsFrameSize, IsPointWithin, IsWithin, max_frame_side};
ghost use Rattle.draw_numbers.specs.Limits.{max_shadow_offset};
ghost use Rattle.draw_numbers.specs.Pens.{is_near_frame, reaches};
ghost use Rattle.draw_numbers.specs.Widths.{are_no_offsets, are_no_radii};
ghost use Rattle.mask_keys.specs.Keys.{max_border};
ghost use Rattle.text_layout.specs.Anchors.{IsBlockSide};
ghost use Rattle.text_layout.specs.Scales.{turn_of};
ghost use Rattle.event_draws.specs.Limits.{max_block_pen, max_block_corner};
ghost use Rattle.event_draws.specs.Marks.{IsMark};
ghost use Rattle.event_draws.specs.Stages.{IsStage};
ghost use Rattle.event_draws.specs.Draws as rule;

use crate::clip::clip_copy;
use crate::lengths::{difference, samples_long, sum};
use crate::marks::Mark;
use crate::runs::Run;
use crate::stage::Stage;
use ass_num::{Fix, Items, Mem, Milli, Point, Size};
use draw_numbers::{
    NO_OFFSETS, NO_RADII, NO_SOFTNESS, Offsets, Paint, Radii, Softness, Spot, back_colour,
    is_near_frame, lacks_border, offsets_of, outline_colour, plain_paint, radii_of, softness_of,
    spot_at,
};
use mask_keys::{Clip, CompositeKey, Draw, MaskKey, OutlineKey, Part, outline_key_copy};
use outline_points::Turn;
use override_tags::State;
use std::alloc::Global;
use text_layout::Line;

/// How the masks of a draw are made of outlines: turned by an angle, widened by radii, softened, and moved by offsets.
#[derive(Clone, Copy, Debug, PartialEq, Eq)]
pub(crate) struct Making {
    pub angle: Milli,
    pub radii: Radii,
    pub softness: Softness,
    pub offsets: Offsets,
}

/// The outline of a mark, and where its mask stands.
#[derive(Debug, Drop)]
pub(crate) struct Stamp {
    pub outline: OutlineKey,
    pub spot: Spot,
}

/// Where the mask of a mark stands.
fn spot_of(stage: &Stage, turn: &Turn, making: &Making, mark: &Mark) -> Spot
    requires stage { IsStage stage.now }
    requires turn { turn.now.angle ≡ making.now.angle }
    requires making { rule.IsMaking making.now }
    requires mark { IsMark mark.now }
    ensures { result ≡ (rule.stamp_of stage.now making.now mark.now).spot }
{
    spot_at(stage.origin, turn, mark.pen, making.offsets)
}

/// Adds the mask of a mark, if it may reach the frame.
fn push_stamp(
    alloc: Global,
    stage: &Stage,
    turn: &Turn,
    making: &Making,
    mark: &Mark,
    stamps: &mut Vec<Stamp>,
) -> Mem<()>
    requires stage { IsStage stage.now }
    requires turn { turn.now.angle ≡ making.now.angle }
    requires making { rule.IsMaking making.now }
    requires mark { IsMark mark.now }
    ensures { OnOk result (stamps.new.items ≡ stamps.old.items ++ rule.stamps_of stage.now making.now (mark.now ∷ [])) }
{
    let spot = spot_of(stage, turn, making, mark);
    if !is_near_frame(&stage.size, &spot) {
        return Ok(());
    }
    let outline = outline_key_copy(alloc, &mark.outline)?;
    stamps.push(Stamp { outline, spot })?;
    Ok(())
}

/// The masks of marks that may reach the frame; the others are left out.
fn stamps_of(alloc: Global, stage: &Stage, making: &Making, marks: &[Mark]) -> Mem<Vec<Stamp>>
    requires stage { IsStage stage.now }
    requires making { rule.IsMaking making.now }
    requires marks { All IsMark marks.now }
    ensures { IfOk result (λ stamps. stamps.items ≡ rule.stamps_of stage.now making.now marks.now) }
{
    let turn = Turn::new(making.angle);
    let mut stamps = Vec::with_capacity(alloc, marks.len())?;
    for mark in marks {
        push_stamp(alloc, stage, &turn, making, mark, &mut stamps)?;
    }
    Ok(stamps)
}

/// The mask of an outline that stands at a spot.
fn mask_of(alloc: Global, making: &Making, stamp: &Stamp) -> Mem<MaskKey>
    ensures { IfOk result (λ mask. mask ≡ rule.mask_of making.now stamp.now) }
{
    Ok(MaskKey {
        outline: outline_key_copy(alloc, &stamp.outline)?,
        rx: making.radii.x,
        ry: making.radii.y,
        px: stamp.spot.px,
        py: stamp.spot.py,
        edges: making.softness.edges,
        blur: making.softness.blur,
    })
}

/// How far a pixel lies from another. Both may reach a frame of this side.
fn gap(side: u32, pixel: i32, from: i32) -> i32
    requires side { side ≤ max_frame_side }
    requires pixel { reaches side pixel ≡ true }
    requires from { reaches side from ≡ true }
    ensures { result ≡ pixel -ℤ from }
{
    pixel - from
}

/// A part, as it lies from the pixel at which a draw stands. Both may reach a frame of this size.
fn part_from(alloc: Global, making: &Making, size: &Size, place: &Spot, stamp: &Stamp) -> Mem<Part>
    requires size { IsFrameSize size.now }
    requires place { is_near_frame size.now place.now ≡ true }
    requires stamp { is_near_frame size.now stamp.now.spot ≡ true }
    ensures { IfOk result (λ part. part ≡ rule.part_from making.now place.now stamp.now) }
{
    let dx = gap(size.w, stamp.spot.x, place.x);
    let dy = gap(size.h, stamp.spot.y, place.y);
    Ok(Part {
        mask: mask_of(alloc, making, stamp)?,
        dx,
        dy,
    })
}

/// The parts of masks, as they lie from a pixel.
fn parts_from(
    alloc: Global,
    making: &Making,
    size: &Size,
    place: &Spot,
    stamps: &[Stamp],
) -> Mem<Items<Part>>
    requires size { IsFrameSize size.now }
    requires place { is_near_frame size.now place.now ≡ true }
    requires stamps { All (rule.IsStampNear size.now) stamps.now }
    ensures { IfOk result (λ parts. parts ≡ map (rule.part_from making.now place.now) stamps.now) }
{
    let mut parts = Items::with_capacity(alloc, stamps.len())?;
    for stamp in stamps {
        parts.push(part_from(alloc, making, size, place, stamp)?)?;
    }
    Ok(parts)
}

/// Adds the draw of masks, which stands where the first of them does; without masks there is none.
fn add_masks(
    alloc: Global,
    making: &Making,
    size: &Size,
    paint: Paint,
    clip: &Clip,
    stamps: &[Stamp],
    draws: &mut Items<Draw>,
) -> Mem<()>
    requires size { IsFrameSize size.now }
    requires stamps { All (rule.IsStampNear size.now) stamps.now }
    ensures { OnOk result (draws.new ≡ draws.old ++ rule.draw_of making.now paint clip.now stamps.now) }
{
    if stamps.is_empty() {
        return Ok(());
    }
    let place = stamps[0].spot;
    let parts = parts_from(alloc, making, size, &place, stamps)?;
    draws.push(Draw {
        key: CompositeKey { parts },
        x: place.x,
        y: place.y,
        left: paint.left,
        right: paint.right,
        edge: paint.edge,
        clip: clip_copy(alloc, clip)?,
    })
}

/// Adds the draw of marks, unless none of them may reach the frame.
fn add_draw(
    alloc: Global,
    stage: &Stage,
    making: &Making,
    paint: Paint,
    clip: &Clip,
    marks: &[Mark],
    draws: &mut Items<Draw>,
) -> Mem<()>
    requires stage { IsStage stage.now }
    requires making { rule.IsMaking making.now }
    requires marks { All IsMark marks.now }
    ensures { OnOk result (draws.new ≡ draws.old ++ rule.draw_of_marks stage.now making.now paint clip.now marks.now) }
{
    let stamps = stamps_of(alloc, stage, making, marks)?;
    add_masks(
        alloc,
        making,
        &stage.size,
        paint,
        clip,
        stamps.as_slice(),
        draws,
    )
}

/// The radii of the border of a run; none in a line with a box, and none before a syllable begins that its border comes with
/// (Aegisub tag reference, "\bord", "\ko").
fn border_radii(stage: &Stage, boxed: bool, state: &State) -> Radii
    requires stage { IsStage stage.now }
    requires state { rule.IsDrawnState state.now }
    ensures { result ≡ rule.border_radii stage.now boxed state.now }
{
    if boxed || lacks_border(stage.elapsed, state.sung) {
        return NO_RADII;
    }
    radii_of(&stage.scales, state)
}

/// How the border of a run is made, moved by offsets; without a border it is the softened fill.
fn border_making(stage: &Stage, boxed: bool, state: &State, offsets: Offsets) -> Making
    requires stage { IsStage stage.now }
    requires state { rule.IsDrawnState state.now }
    ensures { result ≡ rule.border_making stage.now boxed state.now offsets }
{
    Making {
        angle: state.angle,
        radii: border_radii(stage, boxed, state),
        softness: softness_of(&stage.scales, state),
        offsets,
    }
}

/// How the fill of a run is softened: only where it has no border.
fn fill_softness(stage: &Stage, boxed: bool, state: &State) -> Softness
    requires stage { IsStage stage.now }
    requires state { rule.IsDrawnState state.now }
    ensures { result ≡ rule.fill_softness stage.now boxed state.now }
{
    if is_no_border(&border_radii(stage, boxed, state)) {
        return softness_of(&stage.scales, state);
    }
    NO_SOFTNESS
}

/// How the fill of a run is made.
fn fill_making(stage: &Stage, boxed: bool, state: &State) -> Making
    requires stage { IsStage stage.now }
    requires state { rule.IsDrawnState state.now }
    ensures { result ≡ rule.fill_making stage.now boxed state.now }
{
    Making {
        angle: state.angle,
        radii: NO_RADII,
        softness: fill_softness(stage, boxed, state),
        offsets: NO_OFFSETS,
    }
}

/// Whether radii make no border.
fn is_no_border(radii: &Radii) -> bool
    ensures { result ≡ are_no_radii radii.now }
{
    radii.x == 0 && radii.y == 0
}

/// Whether offsets move nothing.
fn is_no_move(offsets: &Offsets) -> bool
    ensures { result ≡ are_no_offsets offsets.now }
{
    offsets.x == 0 && offsets.y == 0
}

/// Adds the shadow of a run, unless it lies under what throws it (Aegisub tag reference, "\shad").
pub(crate) fn add_run_shadow(
    alloc: Global,
    stage: &Stage,
    clip: &Clip,
    boxed: bool,
    run: &Run,
    draws: &mut Items<Draw>,
) -> Mem<()>
    requires stage { IsStage stage.now }
    requires run { rule.IsDrawnRun run.now }
    ensures { OnOk result (draws.new ≡ draws.old ++ rule.run_shadow stage.now clip.now boxed run.now) }
{
    let offsets = offsets_of(&stage.scales, &run.state);
    if is_no_move(&offsets) {
        return Ok(());
    }
    let making = border_making(stage, boxed, &run.state, offsets);
    let paint = plain_paint(back_colour(stage.fade, &run.state));
    add_draw(
        alloc,
        stage,
        &making,
        paint,
        clip,
        run.marks.as_slice(),
        draws,
    )
}

/// Adds the border of a run, if it has one.
pub(crate) fn add_run_border(
    alloc: Global,
    stage: &Stage,
    clip: &Clip,
    boxed: bool,
    run: &Run,
    draws: &mut Items<Draw>,
) -> Mem<()>
    requires stage { IsStage stage.now }
    requires run { rule.IsDrawnRun run.now }
    ensures { OnOk result (draws.new ≡ draws.old ++ rule.run_border stage.now clip.now boxed run.now) }
{
    let making = border_making(stage, boxed, &run.state, NO_OFFSETS);
    if is_no_border(&making.radii) {
        return Ok(());
    }
    let paint = plain_paint(outline_colour(stage.fade, &run.state));
    add_draw(
        alloc,
        stage,
        &making,
        paint,
        clip,
        run.marks.as_slice(),
        draws,
    )
}

/// Adds the fill of a run.
pub(crate) fn add_run_fill(
    alloc: Global,
    stage: &Stage,
    clip: &Clip,
    boxed: bool,
    run: &Run,
    draws: &mut Items<Draw>,
) -> Mem<()>
    requires stage { IsStage stage.now }
    requires run { rule.IsDrawnRun run.now }
    ensures { OnOk result (draws.new ≡ draws.old ++ rule.run_fill stage.now clip.now boxed run.now) }
{
    let making = fill_making(stage, boxed, &run.state);
    add_draw(
        alloc,
        stage,
        &making,
        run.paint,
        clip,
        run.marks.as_slice(),
        draws,
    )
}

/// Where the box of a line begins: as much before the line as a radius.
fn box_start(corner: Fix, offset: Fix, radius: u32) -> Fix
    requires corner { IsWithin max_block_corner corner }
    requires offset { IsBlockSide offset }
    requires radius { radius ≤ max_border }
    ensures value { result ≡ (corner +ℤ offset) -ℤ rule.samples_long radius }
    ensures within { IsWithin max_block_pen result }
{
    difference(sum(corner, offset), samples_long(radius))
}

/// How wide or high the box of a line is: as the line, and a radius more on each side.
fn box_side(length: Fix, radius: u32) -> Fix
    requires length { IsBlockSide length }
    requires radius { radius ≤ max_border }
    ensures { result ≡ length +ℤ rule.samples_long (2 * radius) }
{
    sum(length, samples_long(2 * radius))
}

/// The turn by an angle, from 0 up to a whole turn.
fn turn_of(angle: Milli) -> Milli
    ensures { result ≡ turn_of angle }
{
    angle.rem_euclid(360_000)
}

/// The outline of the box of a line.
fn box_outline(line: &Line, state: &State, radii: Radii) -> OutlineKey
    requires line { rule.IsBlockLine line.now }
    requires x { radii.x ≤ max_border }
    requires y { radii.y ≤ max_border }
    ensures { result ≡ rule.box_outline line.now state.now radii }
{
    OutlineKey::Box {
        w: box_side(line.width, radii.x),
        h: box_side(line.height, radii.y),
        turn: turn_of(state.angle),
    }
}

/// Where the box of a line stands.
fn box_pen(stage: &Stage, line: &Line, radii: Radii) -> Point
    requires stage { IsStage stage.now }
    requires line { rule.IsBlockLine line.now }
    requires x { radii.x ≤ max_border }
    requires y { radii.y ≤ max_border }
    ensures value { result ≡ rule.box_pen stage.now line.now radii }
    ensures within { IsPointWithin max_block_pen result }
{
    Point {
        x: box_start(stage.corner.x, line.left, radii.x),
        y: box_start(stage.corner.y, line.top, radii.y),
    }
}

/// The box of a line, which is wider than it by the radii of its first item's state on each side (Advanced SubStation Alpha,
/// "BorderStyle").
fn box_mark(stage: &Stage, line: &Line, state: &State) -> Mark
    requires stage { IsStage stage.now }
    requires line { rule.IsBlockLine line.now }
    requires state { rule.IsDrawnState state.now }
    ensures value { result ≡ rule.box_mark stage.now line.now state.now }
    ensures range { IsMark result }
{
    let radii = radii_of(&stage.scales, state);
    Mark {
        outline: box_outline(line, state, radii),
        pen: box_pen(stage, line, radii),
    }
}

/// How the box of a line is made, and its shadow where it lies so.
fn box_making(stage: &Stage, state: &State, offsets: Offsets) -> Making
    requires stage { IsStage stage.now }
    requires state { rule.IsDrawnState state.now }
    ensures { result ≡ rule.box_making stage.now state.now offsets }
{
    Making {
        angle: state.angle,
        radii: NO_RADII,
        softness: softness_of(&stage.scales, state),
        offsets,
    }
}

/// Adds the box of a line, or its shadow, in a colour.
fn add_box(
    alloc: Global,
    stage: &Stage,
    clip: &Clip,
    line: &Line,
    state: &State,
    offsets: Offsets,
    paint: Paint,
    draws: &mut Items<Draw>,
) -> Mem<()>
    requires stage { IsStage stage.now }
    requires line { rule.IsBlockLine line.now }
    requires state { rule.IsDrawnState state.now }
    requires x { IsWithin max_shadow_offset offsets.x }
    requires y { IsWithin max_shadow_offset offsets.y }
    ensures { OnOk result (draws.new ≡ draws.old ++ rule.box_draw stage.now clip.now line.now state.now offsets paint) }
{
    let making = box_making(stage, state, offsets);
    let marks = [box_mark(stage, line, state)];
    add_draw(alloc, stage, &making, paint, clip, &marks, draws)
}

/// Adds the shadow of the box of a line.
pub(crate) fn add_box_shadow(
    alloc: Global,
    stage: &Stage,
    clip: &Clip,
    line: &Line,
    state: &State,
    draws: &mut Items<Draw>,
) -> Mem<()>
    requires stage { IsStage stage.now }
    requires line { rule.IsBlockLine line.now }
    requires state { rule.IsDrawnState state.now }
    ensures { OnOk result (draws.new ≡ draws.old ++ rule.box_shadow stage.now clip.now line.now state.now) }
{
    let offsets = offsets_of(&stage.scales, state);
    if is_no_move(&offsets) {
        return Ok(());
    }
    let paint = plain_paint(back_colour(stage.fade, state));
    add_box(alloc, stage, clip, line, state, offsets, paint, draws)
}

/// Adds the box of a line.
pub(crate) fn add_box_border(
    alloc: Global,
    stage: &Stage,
    clip: &Clip,
    line: &Line,
    state: &State,
    draws: &mut Items<Draw>,
) -> Mem<()>
    requires stage { IsStage stage.now }
    requires line { rule.IsBlockLine line.now }
    requires state { rule.IsDrawnState state.now }
    ensures { OnOk result (draws.new ≡ draws.old ++ rule.box_border stage.now clip.now line.now state.now) }
{
    let paint = plain_paint(outline_colour(stage.fade, state));
    add_box(alloc, stage, clip, line, state, NO_OFFSETS, paint, draws)
}

//! The pen that draws a glyph: how strokes become contours.

ghost use Rattle.std.specs.Prelude.{◌≡◌, IfOk};
ghost use Rattle.cff_font.specs.Pens.{first_pen, closed_contours, moved_pen, lowered_pen, pen_behind, drawn_curve, drawn_stroke, drawn_strokes};

use crate::lists::first_items;
use crate::strokes::point_behind;
use ass_num::{FlatLists, Items, Mem, Point};
use outline_points::Stroke;
use std::alloc::Global;

/// Where the pen stands, the contour that it draws, and those that are closed, in 1/65,536 of a unit, y upwards.
#[derive(Drop)]
pub struct GlyphPen {
    pub at: Point,
    pub contour: Items<Stroke>,
    pub contours: FlatLists<Stroke>,
}

/// The pen before anything is drawn.
pub fn first_pen(alloc: Global) -> GlyphPen
    ensures { result ≡ first_pen }
{
    GlyphPen {
        at: Point { x: 0, y: 0 },
        contour: Items::new(alloc),
        contours: FlatLists::new(alloc),
    }
}

/// All contours, with the one that is drawn.
pub fn closed_contours(contours: FlatLists<Stroke>, contour: &[Stroke]) -> Mem<FlatLists<Stroke>>
    ensures { IfOk result (λ all. all ≡ closed_contours contours contour.now) }
{
    if contour.is_empty() {
        return Ok(contours);
    }
    let mut all = contours;
    all.push(contour)?;
    Ok(all)
}

/// The pen a step farther; the contour that it drew is closed. `None` where it is too far from 0.
pub fn moved_pen(pen: GlyphPen, step: Point) -> Mem<Option<GlyphPen>>
    ensures { IfOk result (λ moved. moved ≡ moved_pen pen step) }
{
    let Some(at) = point_behind(pen.at, step) else {
        return Ok(None);
    };
    let contours = closed_contours(pen.contours, pen.contour.as_slice())?;
    Ok(Some(GlyphPen {
        at,
        contour: first_items(pen.contour, 0),
        contours,
    }))
}

/// The pen that draws a contour: a new one begins where it stands, unless it draws one.
fn lowered_pen(pen: GlyphPen) -> Mem<GlyphPen>
    ensures { IfOk result (λ lowered. lowered ≡ lowered_pen pen) }
{
    if !pen.contour.is_empty() {
        return Ok(pen);
    }
    let mut pen = pen;
    pen.contour.push(Stroke::Line(pen.at))?;
    Ok(pen)
}

/// The pen behind a stroke to a point.
fn pen_behind(pen: GlyphPen, at: Point, drawn: Stroke) -> Mem<GlyphPen>
    ensures { IfOk result (λ behind. behind ≡ pen_behind pen at drawn) }
{
    let mut contour = pen.contour;
    contour.push(drawn)?;
    Ok(GlyphPen {
        at,
        contour,
        contours: pen.contours,
    })
}

/// The pen behind a curve by three steps, each from the point of the step before.
fn drawn_curve(pen: GlyphPen, a: Point, b: Point, c: Point) -> Mem<Option<GlyphPen>>
    ensures { IfOk result (λ behind. behind ≡ drawn_curve pen a b c) }
{
    let Some(first) = point_behind(pen.at, a) else {
        return Ok(None);
    };
    let Some(second) = point_behind(first, b) else {
        return Ok(None);
    };
    let Some(end) = point_behind(second, c) else {
        return Ok(None);
    };
    Ok(Some(pen_behind(pen, end, Stroke::Curve(first, second, end))?))
}

/// The pen, which draws a contour, behind a stroke by steps.
fn drawn_stroke(pen: GlyphPen, stroke: &Stroke) -> Mem<Option<GlyphPen>>
    ensures { IfOk result (λ behind. behind ≡ drawn_stroke pen stroke.now) }
{
    match stroke {
        Stroke::Line(step) => match point_behind(pen.at, *step) {
            Some(at) => Ok(Some(pen_behind(pen, at, Stroke::Line(at))?)),
            None => Ok(None),
        },
        Stroke::Curve(a, b, c) => drawn_curve(pen, *a, *b, *c),
    }
}

/// The pen behind strokes; `None` where a point is too far from 0.
pub fn drawn_strokes(pen: GlyphPen, strokes: &[Stroke]) -> Mem<Option<GlyphPen>>
    ensures { IfOk result (λ behind. behind ≡ drawn_strokes pen strokes.now) }
{
    let mut pen = pen;
    for stroke in strokes {
        match drawn_stroke(lowered_pen(pen)?, stroke)? {
            Some(behind) => pen = behind,
            None => return Ok(None),
        }
    }
    Ok(Some(pen))
}

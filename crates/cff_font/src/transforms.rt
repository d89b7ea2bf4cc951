//! The points of a glyph behind its matrix.

ghost use Rattle.std.specs.Prelude.{◌≡◌, IfOk};
ghost use Rattle.ass_num.specs.Limits.{IsWithin};
ghost use Rattle.cff_font.specs.Matrices.{max_share, transformed, transformed_point, transformed_stroke, transformed_contour, transformed_contours};
ghost use Rattle.cff_font.specs.Matrices.{IsGlyphMatrix};

use crate::decimals::FontMatrix;
use crate::matrices::sum_of_products;
use crate::strokes::{glyph_coordinate, point_of};
use ass_num::{FlatLists, Items, Mem, Point, div_floor};
use outline_points::Stroke;
use std::alloc::Global;

/// A coordinate behind a matrix, rounded to the nearest, if it isn't too far from 0.
fn transformed(a: i64, x: i64, b: i64, y: i64, shift: i64) -> Option<i64>
    requires a { IsWithin max_share a }
    requires b { IsWithin max_share b }
    requires shift { IsWithin max_share shift }
    ensures { result ≡ transformed a x b y shift }
{
    let sum = sum_of_products(a, x, b, y);
    glyph_coordinate(div_floor(sum + 32_768, 65_536) + i128::from(shift))
}

/// A point behind a matrix.
fn transformed_point(m: &FontMatrix, point: Point) -> Option<Point>
    requires { IsGlyphMatrix m.now }
    ensures { result ≡ transformed_point m.now point }
{
    point_of(
        transformed(m.xx, point.x, m.xy, point.y, m.x),
        transformed(m.yx, point.x, m.yy, point.y, m.y),
    )
}

/// A line or curve behind a matrix.
fn transformed_stroke(m: &FontMatrix, stroke: &Stroke) -> Option<Stroke>
    requires { IsGlyphMatrix m.now }
    ensures { result ≡ transformed_stroke m.now stroke.now }
{
    match stroke {
        Stroke::Line(p) => Some(Stroke::Line(transformed_point(m, *p)?)),
        Stroke::Curve(p, q, r) => {
            let first = transformed_point(m, *p)?;
            let second = transformed_point(m, *q)?;
            let end = transformed_point(m, *r)?;
            Some(Stroke::Curve(first, second, end))
        }
    }
}

/// A contour behind a matrix; `None` where a point is too far from 0.
fn transformed_contour(
    alloc: Global,
    m: &FontMatrix,
    contour: &[Stroke],
) -> Mem<Option<Items<Stroke>>>
    requires { IsGlyphMatrix m.now }
    ensures { IfOk result (λ strokes. strokes ≡ transformed_contour m.now contour.now) }
{
    let mut strokes = Items::with_capacity(alloc, contour.len())?;
    for stroke in contour {
        match transformed_stroke(m, stroke) {
            Some(behind) => strokes.push(behind)?,
            None => return Ok(None),
        }
    }
    Ok(Some(strokes))
}

/// The contours of a glyph behind its matrix; `None` where a point is too far from 0.
pub fn transformed_contours(
    alloc: Global,
    m: &FontMatrix,
    contours: &FlatLists<Stroke>,
) -> Mem<Option<FlatLists<Stroke>>>
    requires { IsGlyphMatrix m.now }
    ensures { IfOk result (λ all. all ≡ transformed_contours m.now contours.now) }
{
    let mut all = FlatLists::new(alloc);
    for k in 0..contours.len() {
        match transformed_contour(alloc, m, contours.get(k))? {
            Some(strokes) => all.push(strokes.as_slice())?,
            None => return Ok(None),
        }
    }
    Ok(Some(all))
}

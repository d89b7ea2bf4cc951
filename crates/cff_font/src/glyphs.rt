//! The contours of glyphs.

ghost use Rattle.std.specs.Prelude.{◌≡◌, IfOk, IfSome};
ghost use Rattle.cff_font.specs.Glyphs.{charstring_contours, glyph_contours, cff_contours};
ghost use Rattle.cff_font.specs.Matrices.{contours_behind, IsGlyphMatrix};
ghost use Rattle.cff_font.specs.Ranges.{IsCffFont, IsFileIndex, IsFileSpan};

use crate::decimals::FontMatrix;
use crate::indexes::{Index, item_at};
use crate::machine::{Program, first_machine};
use crate::matrices::glyph_matrix;
use crate::pens::closed_contours;
use crate::read::CffFont;
use crate::steps::run;
use crate::subroutines::local_subroutines;
use crate::tokens::Span;
use crate::transforms::transformed_contours;
use ass_num::{FlatLists, Mem};
use outline_points::Stroke;
use std::alloc::Global;

/// The contours of the charstring in these bytes, with these subroutines of its own.
fn charstring_contours(
    alloc: Global,
    bytes: &[u8],
    font: &CffFont,
    body: Span,
    own: Index,
) -> Mem<Option<FlatLists<Stroke>>>
    requires font { IsCffFont font.now }
    requires body { IsFileSpan body }
    requires own { IsFileIndex own }
    ensures { IfOk result (λ contours. contours ≡ charstring_contours bytes.now font.now body own) }
{
    let program = Program {
        shared: font.globals,
        own,
    };
    let Some(machine) = run(alloc, bytes, &program, first_machine(alloc, body)?)? else {
        return Ok(None);
    };
    let pen = machine.pen;
    let contours = closed_contours(pen.contours, pen.contour.as_slice())?;
    Ok(Some(contours))
}

/// The contours of a glyph; `None` where it is broken.
fn glyph_contours(
    alloc: Global,
    bytes: &[u8],
    font: &CffFont,
    g: u16,
) -> Mem<Option<FlatLists<Stroke>>>
    requires { IsCffFont font.now }
    ensures { IfOk result (λ contours. contours ≡ glyph_contours bytes.now font.now g) }
{
    let Some(body) = item_at(bytes, &font.glyphs, usize::from(g)) else {
        return Ok(None);
    };
    match local_subroutines(bytes, font, g) {
        Some(own) => charstring_contours(alloc, bytes, font, body, own),
        None => Ok(None),
    }
}

/// The contours behind the matrix of a glyph; `None` where a point is too far from 0.
fn contours_behind(
    alloc: Global,
    matrix: Option<FontMatrix>,
    contours: FlatLists<Stroke>,
) -> Mem<Option<FlatLists<Stroke>>>
    requires { IfSome matrix IsGlyphMatrix }
    ensures { IfOk result (λ all. all ≡ contours_behind matrix contours) }
{
    match matrix {
        Some(m) => transformed_contours(alloc, &m, &contours),
        None => Ok(Some(contours)),
    }
}

/// The contours of a glyph of a font whose em has so many units, in 1/65,536 of a unit, y upwards: closed, of lines and
/// cubic curves, each with a line to its first point in front, behind the glyph's matrix. A broken glyph has none.
pub fn cff_contours(
    alloc: Global,
    bytes: &[u8],
    font: &CffFont,
    units: u16,
    g: u16,
) -> Mem<FlatLists<Stroke>>
    requires { IsCffFont font.now }
    ensures { IfOk result (λ contours. contours ≡ cff_contours bytes.now font.now units g) }
{
    let none = FlatLists::new(alloc);
    let Some(drawn) = glyph_contours(alloc, bytes, font, g)? else {
        return Ok(none);
    };
    let matrix = glyph_matrix(bytes, font, units, g);
    match contours_behind(alloc, matrix, drawn)? {
        Some(contours) => Ok(contours),
        None => Ok(none),
    }
}

//! How the rings of a glyph are made.

ghost use Rattle.std.specs.Prelude.{◌≡◌, ◌∷◌, [], ◌++◌, OnOk};
ghost use Rattle.ass_num.specs.Limits.{IsOutline, IsWithin};
ghost use Rattle.outline_points.specs.Glyphs.{quad};
ghost use Rattle.outline_points.specs.Limits.{max_pixel};
ghost use Rattle.outline_points.specs.Placing.{IsMatrix};

use ass_num::{FlatLists, Matrix, Mem, Point};
use outline_points::{Turn, quad};

/// How the rings of a glyph are made.
#[derive(Clone, Copy)]
pub struct Style {
    pub matrix: Matrix,
    pub turn: Turn,
    pub bold: bool,
    ghost is_matrix: { IsMatrix matrix },
    ghost same_turn: { turn.angle ≡ matrix.turn },
}

/// The style of a matrix.
pub fn style_of(m: &Matrix, bold: bool) -> Style
    requires { IsMatrix m.now }
    ensures matrix { result.matrix ≡ m.now }
    ensures bold { result.bold ≡ bold }
{
    Style {
        matrix: *m,
        turn: Turn::new(m.turn),
        bold,
    }
}

/// A rectangle of the bitmap's plane.
pub fn add_quad(
    style: &Style,
    left: i64,
    top: i64,
    right: i64,
    bottom: i64,
    rings: &mut FlatLists<Point>,
) -> Mem<()>
    requires left { IsWithin max_pixel left }
    requires top { IsWithin max_pixel top }
    requires right { IsWithin max_pixel right }
    requires bottom { IsWithin max_pixel bottom }
    ensures added { OnOk result (rings.new ≡ rings.old ++ quad style.now.matrix left top right bottom ∷ []) }
    ensures within { OnOk result (IsOutline rings.old → IsOutline rings.new) }
{
    rings.push(&quad(&style.matrix, &style.turn, left, top, right, bottom))?;
    Ok(())
}

//! The key of an outline.

use crate::shared::Shared;
use ass_num::{Fix, Matrix, Milli, Path};

/// All that an outline, and the region of its samples, depends on besides the fonts.
#[derive(Clone, Debug, PartialEq, Eq, Hash, Drop)]
pub enum OutlineKey {
    /// A glyph, by its font's place among the fonts and its own place in the font, under a matrix, as its style makes it.
    Glyph {
        font: u32,
        glyph: u32,
        m: Matrix,
        bold: bool,
        underline: bool,
        strikeout: bool,
    },
    /// A drawing under a matrix; its points are shifted down by `shift`, in 1/64 pixel. Keys of one drawing share its path.
    Drawing {
        path: Shared<Path>,
        m: Matrix,
        shift: Fix,
    },
    /// A box with sides in 1/64 pixel, turned counterclockwise by thousandths of a degree.
    Box {
        w: Fix,
        h: Fix,
        turn: Milli,
    },
}

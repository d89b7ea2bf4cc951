//! The bars of glyphs.

ghost use Rattle.std.specs.Prelude.{◌≡◌, ◌<◌, ◌∷◌, [], ◌++◌, length, slice_get, IfSome, Some, OnOk};
ghost use Rattle.ass_num.specs.Limits.{IsOutline, IsWithin};
ghost use Rattle.bdf_font.specs.GlyphRings.{bar_rings};
ghost use Rattle.bdf_font.specs.Ranges.{IsBar, IsFont, IsMeasure};
ghost use Rattle.outline_points.specs.Glyphs.{bar_quad};

use crate::style::{Style, add_quad};
use ass_num::{FlatLists, Mem, Point};
use bdf_font::Font;
use sfnt_font::Bar;

/// A bar from the pen as far as the glyph advances it.
fn add_bar_quad(style: &Style, advance: i32, bar: Bar, rings: &mut FlatLists<Point>) -> Mem<()>
    requires advance { IsMeasure advance }
    requires bar { IsBar bar }
    ensures added { OnOk result (rings.new ≡ rings.old ++ bar_quad style.now.matrix advance bar.top bar.size ∷ []) }
    ensures within { OnOk result (IsOutline rings.old → IsOutline rings.new) }
{
    let top = i64::from(bar.top);
    let bottom = top + i64::from(bar.size);
    add_quad(style, 0, top, i64::from(advance), bottom, rings)?;
    Ok(())
}

/// A bar, where it is wanted and the font has it.
fn add_bar(
    style: &Style,
    wanted: bool,
    advance: i32,
    bar: Option<Bar>,
    rings: &mut FlatLists<Point>,
) -> Mem<()>
    requires advance { IsMeasure advance }
    requires bar { IfSome bar IsBar }
    ensures added { OnOk result (rings.new ≡ rings.old ++ bar_rings style.now.matrix wanted advance bar) }
    ensures within { OnOk result (IsOutline rings.old → IsOutline rings.new) }
{
    if !wanted {
        return Ok(());
    }
    match bar {
        Some(bar) => add_bar_quad(style, advance, bar, rings),
        None => Ok(()),
    }
}

/// The bars of a glyph of a font.
pub fn add_bars(
    style: &Style,
    font: &Font,
    glyph: u32,
    underline: bool,
    strikeout: bool,
    rings: &mut FlatLists<Point>,
) -> Mem<()>
    requires font { IsFont font.now }
    requires glyph { glyph < length font.now.glyphs }
    ensures added { OnOk result ((g : _) → slice_get font.now.glyphs glyph ≡ Some g
        → rings.new ≡ (rings.old ++ bar_rings style.now.matrix underline g.advance font.now.underline)
        ++ bar_rings style.now.matrix strikeout g.advance font.now.strikeout) }
    ensures within { OnOk result (IsOutline rings.old → IsOutline rings.new) }
{
    let advance = font.advance_at(glyph);
    add_bar(style, underline, advance, font.underline(), rings)?;
    add_bar(style, strikeout, advance, font.strikeout(), rings)?;
    Ok(())
}

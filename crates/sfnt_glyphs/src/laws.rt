//! What holds of every glyph: the theorem above the definition of `contours_of`.

ghost use Rattle.sfnt_glyphs.specs.Laws.{AreGlyphsTotal};

/// Each glyph of each font has contours, whatever its bytes are; one without bytes has none.
pub fn glyphs_are_total()
    ensures { AreGlyphsTotal }
{}

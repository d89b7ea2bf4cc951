//! What holds of every text and every file: the theorems above the definitions of `read_font`, `read_fonts`,
//! `find_font` and `set_glyph`.

ghost use Rattle.bdf_font.specs.Laws.{OneAnswer, OneFileAnswer, FilesHaveFonts, EndsTheFont, IsFirstFault, StaysRefused};
ghost use Rattle.bdf_font.specs.Laws.{LaterFontLineCounts, LaterPropertyCounts, LaterGlyphLineCounts, BitmapRingsStay};
ghost use Rattle.bdf_font.specs.Laws.{LinesSpellBitmapFonts, BitmapsAreFoundByName, BitmapsKeepTheirGlyphs, NearestIsFound};

/// Each text is exactly one of three: a font, refused at one line for one cause, or of too many glyphs; and what follows the font isn't read.
/// So each file has exactly one answer, and from 1 to 64 fonts where it isn't refused.
pub fn one_answer()
    ensures one { OneAnswer }
    ensures files { OneFileAnswer }
    ensures fonts { FilesHaveFonts }
    ensures ends { EndsTheFont }
{}

/// The line that a refusal names is the first one that leaves the format: the lines before it lack an end
/// alone, and no lines after it mend it.
pub fn first_fault()
    ensures first { IsFirstFault }
    ensures stays { StaysRefused }
{}

/// Of several like lines the last counts, whatever stands between them.
pub fn last_line_counts()
    ensures font { LaterFontLineCounts }
    ensures property { LaterPropertyCounts }
    ensures glyph { LaterGlyphLineCounts }
{}

/// The rings of each glyph that lines spell are the quads of its set pixels, and bars one pixel high.
pub fn bitmap_rings_stay()
    ensures { BitmapRingsStay }
{}

/// Each font that lines spell is found by its name alone. In a set of such fonts a name finds the first of this name,
/// whether bold or italic is wanted, and the glyph of a character is that of the font itself.
pub fn bitmaps_stay_found()
    ensures spelled { LinesSpellBitmapFonts }
    ensures names { BitmapsAreFoundByName }
    ensures glyphs { BitmapsKeepTheirGlyphs }
{}

/// Where a font of the set answers to the name, the font that is found does, none that does is nearer to what is asked
/// for, and none before it is as near.
pub fn nearest_is_found()
    ensures { NearestIsFound }
{}

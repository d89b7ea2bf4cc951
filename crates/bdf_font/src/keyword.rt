//! The keywords of the format.

ghost use Rattle.std.specs.Prelude.{◌≡◌};
ghost use Rattle.bdf_font.specs.Keywords.{keyword_of, font_keyword_of, property_keyword_of};

/// What the first word of a line says.
#[derive(Clone, Copy, Debug, PartialEq, Eq)]
pub enum Keyword {
    StartFont,
    EndFont,
    StartChar,
    /// A line of a glyph.
    Glyph(GlyphKeyword),
    /// A line of the font itself.
    Header(HeaderKeyword),
    /// Any other word, or none.
    Unknown,
}

/// A keyword of the lines from `STARTCHAR` to `ENDCHAR` (BDF 2.1, individual glyph information).
#[derive(Clone, Copy, Debug, PartialEq, Eq)]
pub enum GlyphKeyword {
    Encoding,
    Width,
    Box,
    Bitmap,
    EndChar,
}

/// A keyword of the lines before the first glyph (BDF 2.1, global font information).
#[derive(Clone, Copy, Debug, PartialEq, Eq)]
pub enum HeaderKeyword {
    Name,
    Box,
    StartProperties,
    EndProperties,
    /// A keyword that counts between the property lines alone.
    Property(PropertyKeyword),
}

/// A keyword of the lines from `STARTPROPERTIES` to `ENDPROPERTIES` that the reader knows.
#[derive(Clone, Copy, Debug, PartialEq, Eq)]
pub enum PropertyKeyword {
    Ascent,
    Descent,
    DefaultChar,
    FamilyName,
}

/// What a line's first word says.
#[tactic(auto, unfolding(crate::specs::Keywords::keyword_of))]
pub fn keyword_of(word: &[u8]) -> Keyword
    ensures { result ≡ keyword_of word.now }
{
    if word == b"STARTCHAR".as_slice() {
        return Keyword::StartChar;
    }
    if word == b"ENCODING".as_slice() {
        return Keyword::Glyph(GlyphKeyword::Encoding);
    }
    if word == b"DWIDTH".as_slice() {
        return Keyword::Glyph(GlyphKeyword::Width);
    }
    if word == b"BBX".as_slice() {
        return Keyword::Glyph(GlyphKeyword::Box);
    }
    if word == b"BITMAP".as_slice() {
        return Keyword::Glyph(GlyphKeyword::Bitmap);
    }
    if word == b"ENDCHAR".as_slice() {
        return Keyword::Glyph(GlyphKeyword::EndChar);
    }
    font_keyword_of(word)
}

#[tactic(auto, unfolding(crate::specs::Keywords::font_keyword_of))]
fn font_keyword_of(word: &[u8]) -> Keyword
    ensures { result ≡ font_keyword_of word.now }
{
    if word == b"STARTFONT".as_slice() {
        return Keyword::StartFont;
    }
    if word == b"ENDFONT".as_slice() {
        return Keyword::EndFont;
    }
    if word == b"FONT".as_slice() {
        return Keyword::Header(HeaderKeyword::Name);
    }
    if word == b"FONTBOUNDINGBOX".as_slice() {
        return Keyword::Header(HeaderKeyword::Box);
    }
    if word == b"STARTPROPERTIES".as_slice() {
        return Keyword::Header(HeaderKeyword::StartProperties);
    }
    if word == b"ENDPROPERTIES".as_slice() {
        return Keyword::Header(HeaderKeyword::EndProperties);
    }
    property_keyword_of(word)
}

#[tactic(auto, unfolding(crate::specs::Keywords::property_keyword_of))]
fn property_keyword_of(word: &[u8]) -> Keyword
    ensures { result ≡ property_keyword_of word.now }
{
    if word == b"FONT_ASCENT".as_slice() {
        return Keyword::Header(HeaderKeyword::Property(PropertyKeyword::Ascent));
    }
    if word == b"FONT_DESCENT".as_slice() {
        return Keyword::Header(HeaderKeyword::Property(PropertyKeyword::Descent));
    }
    if word == b"DEFAULT_CHAR".as_slice() {
        return Keyword::Header(HeaderKeyword::Property(PropertyKeyword::DefaultChar));
    }
    if word == b"FAMILY_NAME".as_slice() {
        return Keyword::Header(HeaderKeyword::Property(PropertyKeyword::FamilyName));
    }
    Keyword::Unknown
}

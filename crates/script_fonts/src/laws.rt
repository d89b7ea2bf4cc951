//! What holds of all bytes.

ghost use Rattle.script_fonts.specs.Laws.{CodedAreReadBack, FontsFitTheirText};

/// Bytes that are written as the ASS specification says are read back.
pub fn fonts_are_read_back()
    ensures { CodedAreReadBack }
{}

/// No font has more bytes than the script that holds it.
pub fn fonts_fit_their_text()
    ensures { FontsFitTheirText }
{}

//! What holds of every file: the theorems above the definition of `read_sfnt`.

ghost use Rattle.sfnt_font.specs.Laws.{OneFaceAnswer, IsFirstBroken};

/// Each face of each file is exactly one of three: a font, refused at one byte that isn't past the end, or one of too
/// many faces.
pub fn one_answer()
    ensures { OneFaceAnswer }
{}

/// The fault of a file is that of the first rule of the format that it breaks, in the order of the rules; a file that
/// breaks none has a font.
pub fn first_fault()
    ensures { IsFirstBroken }
{}

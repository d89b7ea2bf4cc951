//! The law that a text has one reading.

ghost use Rattle.std.specs.Prelude.{◌≡◌, ℕ, List};
ghost use Rattle.ass_num.specs.Fronts.{IsLongestFront, SpellsOne};
ghost use Rattle.ass_num.specs.Numerals.{IsMilli, IsWholeNumber, IsColour, IsAlpha, IsStyleColour, IsTime};
ghost use Rattle.ass_num.specs.Wholes.{WholesAreRead};

/// No bytes spell two numbers, colours or times, so what a reader gives is the only value that its
/// contract allows.
pub fn one_reading()
    ensures milli { SpellsOne IsMilli }
    ensures whole { SpellsOne IsWholeNumber }
    ensures colour { SpellsOne IsColour }
    ensures alpha { SpellsOne IsAlpha }
    ensures style_colour { SpellsOne IsStyleColour }
    ensures time { SpellsOne IsTime }
{}

/// The whole number that `read_whole` gives is the one that the text spells between blanks.
pub fn wholes_are_read()
    ensures { WholesAreRead }
{}

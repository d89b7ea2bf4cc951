//! Why a font isn't read.

ghost use Rattle.std.specs.Prelude.{◌≡◌};
ghost use Rattle.bdf_font.specs.declared.cause.FontFileRefusal.TheVariants.{Lines};
ghost use Rattle.bdf_font.specs.declared.cause.FontRefusal.TheVariants.{OutOfMemory as memory_refusal};
ghost use Rattle.bdf_font.specs.declared.cause.Stop.TheVariants.{OutOfMemory as memory_stop};

use ass_num::OutOfMemory;
use sfnt_font::SfntRefusal;
use std::alloc::AllocError;

/// How a line leaves the format.
#[derive(Clone, Copy, Debug, PartialEq, Eq)]
pub enum FontCause {
    /// The first line that counts isn't `STARTFONT`.
    NoStart,
    /// A number is missing, isn't whole or is out of its range.
    BadNumber,
    /// A line of a bitmap isn't a row of it, or isn't the `ENDCHAR` after the rows.
    BadRow,
    /// A keyword stands where it may not.
    Misplaced,
    /// The text ends before `ENDFONT`.
    NoEnd,
}

/// Why a font isn't read.
#[derive(Clone, Copy, Debug, PartialEq, Eq)]
pub enum FontRefusal {
    /// The first line, from 1, at which the text leaves the format, and how.
    BadFont(usize, FontCause),
    /// The font has more glyphs than this many.
    TooLarge(usize),
    /// Memory was wanting.
    OutOfMemory,
}

/// Why a font's file isn't read.
#[derive(Clone, Copy, Debug, PartialEq, Eq)]
pub enum FontFileRefusal {
    /// Its lines aren't a font in BDF, or memory was wanting.
    Lines(FontRefusal),
    /// Its bytes aren't a TrueType font.
    Bytes(SfntRefusal),
}

impl From<OutOfMemory> for FontFileRefusal {
    ghost from_gives = { λ _ refusal. refusal ≡ Lines memory_refusal };

    fn from(_refused: OutOfMemory) -> FontFileRefusal {
        FontFileRefusal::Lines(FontRefusal::OutOfMemory)
    }
}

/// Why no line is read after this one.
#[derive(Clone, Copy, Debug, PartialEq, Eq)]
pub enum Stop {
    /// The font ends here.
    End,
    /// The line leaves the format.
    Fault(FontCause),
    /// A glyph too many begins.
    Full,
    /// Memory was wanting.
    OutOfMemory,
}

impl From<OutOfMemory> for Stop {
    ghost from_gives = { λ _ stop. stop ≡ memory_stop };

    fn from(_refused: OutOfMemory) -> Stop {
        Stop::OutOfMemory
    }
}

impl From<AllocError> for Stop {
    ghost from_gives = { λ _ stop. stop ≡ memory_stop };

    fn from(_refused: AllocError) -> Stop {
        Stop::OutOfMemory
    }
}

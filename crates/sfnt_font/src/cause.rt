//! Why a file has no font.

ghost use Rattle.std.specs.Prelude.{◌≡◌};
ghost use Rattle.sfnt_font.specs.declared.cause.SfntRefusal.TheVariants.{OutOfMemory as memory_refusal};

use ass_num::OutOfMemory;
use cff_font::CffCause;

/// The tables that each font needs.
#[derive(Clone, Copy, Debug, PartialEq, Eq)]
pub enum Tag {
    /// `head`
    Head,
    /// `maxp`
    Maxp,
    /// `hhea`
    Hhea,
    /// `hmtx`
    Hmtx,
    /// `loca`
    Loca,
    /// `glyf`
    Glyf,
    /// `cmap`
    Cmap,
}

/// How a file leaves the format.
#[derive(Clone, Copy, Debug, PartialEq, Eq)]
pub enum SfntCause {
    /// The file is compressed (WOFF).
    Compressed,
    /// The file ends before what it says that it has.
    Ends,
    /// A collection has no face, or a face's place doesn't lie in the file.
    BadPlace,
    /// The outlines are those of PostScript's second version.
    PostScript,
    /// The table of PostScript outlines isn't one.
    BadOutlines(CffCause),
    /// The first bytes of a face aren't those of a font.
    NotSfnt,
    /// A table is missing that is needed.
    NoTable(Tag),
    /// A table is shorter than needed.
    ShortTable(Tag),
    /// A number is 0 that may not be.
    BadNumber,
    /// No map of characters is one that is read.
    NoMap,
    /// The map of characters isn't whole, or isn't in order.
    BadMap,
}

/// Why a file has no font.
#[derive(Clone, Copy, Debug, PartialEq, Eq)]
pub enum SfntRefusal {
    /// The byte, from 0, at which the file leaves the format, and how.
    BadFont(usize, SfntCause),
    /// The collection has more faces than this many.
    TooLarge(usize),
    /// Memory was wanting.
    OutOfMemory,
}

impl From<OutOfMemory> for SfntRefusal {
    ghost from_gives = { λ _ refusal. refusal ≡ memory_refusal };

    fn from(_refused: OutOfMemory) -> SfntRefusal {
        SfntRefusal::OutOfMemory
    }
}

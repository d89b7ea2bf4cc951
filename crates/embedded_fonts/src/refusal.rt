//! Why the fonts that a script holds aren't read.

ghost use Rattle.std.specs.Prelude.{◌≡◌};
ghost use Rattle.embedded_fonts.specs.declared.refusal.EmbeddedRefusal.TheVariants.{Data};
ghost use Rattle.script_fonts.specs.declared.refusal.ScriptFontsRefusal.TheVariants.{OutOfMemory as memory_refusal};

use ass_num::OutOfMemory;
use bdf_font::FontFileRefusal;
use script_fonts::ScriptFontsRefusal;
use std::alloc::AllocError;

/// Why the fonts that a script holds aren't read.
#[derive(Clone, Copy, Debug, PartialEq, Eq)]
pub enum EmbeddedRefusal {
    /// The data of a font leave their format, or memory was wanting.
    Data(ScriptFontsRefusal),
    /// What stands at this place, from 0, among the fonts of the script is no file of fonts.
    Font(usize, FontFileRefusal),
    /// The script holds more fonts than a set has.
    TooMany,
}

impl From<OutOfMemory> for EmbeddedRefusal {
    ghost from_gives = { λ _ refusal. refusal ≡ Data memory_refusal };

    fn from(_refused: OutOfMemory) -> EmbeddedRefusal {
        EmbeddedRefusal::Data(ScriptFontsRefusal::OutOfMemory)
    }
}

impl From<AllocError> for EmbeddedRefusal {
    ghost from_gives = { λ _ refusal. refusal ≡ Data memory_refusal };

    fn from(_refused: AllocError) -> EmbeddedRefusal {
        EmbeddedRefusal::Data(ScriptFontsRefusal::OutOfMemory)
    }
}

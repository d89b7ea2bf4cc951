//! Why the fonts of a script aren't read.

ghost use Rattle.std.specs.Prelude.{◌≡◌};
ghost use Rattle.script_fonts.specs.declared.refusal.ScriptFontsRefusal.TheVariants.{OutOfMemory as memory_refusal};

use ass_num::OutOfMemory;
use std::alloc::{AllocError, AllocFailed};

/// Why the fonts of a script aren't read. Lines are numbered from 1.
#[derive(Clone, Copy, Debug, PartialEq, Eq)]
pub enum ScriptFontsRefusal {
    /// In the data of a font, this line has a character that stands for no bits.
    BadCharacter(usize),
    /// One character is left at the end of the font that this line names.
    BadLength(usize),
    /// Memory was wanting.
    OutOfMemory,
}

impl From<OutOfMemory> for ScriptFontsRefusal {
    ghost from_gives = { λ _ refusal. refusal ≡ memory_refusal };

    fn from(_refused: OutOfMemory) -> ScriptFontsRefusal {
        ScriptFontsRefusal::OutOfMemory
    }
}

impl From<AllocError> for ScriptFontsRefusal {
    ghost from_gives = { λ _ refusal. refusal ≡ memory_refusal };

    fn from(_refused: AllocError) -> ScriptFontsRefusal {
        ScriptFontsRefusal::OutOfMemory
    }
}

//! Why events aren't written.

ghost use Rattle.std.specs.Prelude.{◌≡◌};
ghost use Rattle.track_write.specs.declared.refusal.WriteRefusal.TheVariants.{OutOfMemory as memory_refusal};

use ass_num::OutOfMemory;
use ass_script::EventField;

/// Why events aren't written or shifted.
#[derive(Clone, Copy, Debug, PartialEq, Eq)]
pub enum WriteRefusal {
    /// The ReadOrder of the first event that refuses, and its first field that does.
    Unwritable(u32, EventField),
    /// Memory was wanting.
    OutOfMemory,
}

impl From<OutOfMemory> for WriteRefusal {
    ghost from_gives = { λ _ refusal. refusal ≡ memory_refusal };

    fn from(_refused: OutOfMemory) -> WriteRefusal {
        WriteRefusal::OutOfMemory
    }
}

//! What holds of all texts.

ghost use Rattle.ass_script.specs.Laws.{MillisAreRead, ColoursAreRead};

/// The numbers and colours of this crate's definitions are those of `ass_num`.
pub fn numbers_are_read()
    ensures millis { MillisAreRead }
    ensures colours { ColoursAreRead }
{}

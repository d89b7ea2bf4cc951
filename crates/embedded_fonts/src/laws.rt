//! What holds of every script: the theorem above the definition of `read_embedded_fonts`.

ghost use Rattle.embedded_fonts.specs.Laws.{OneEmbeddedAnswer};

/// Each script has exactly one answer, which is never out of memory.
pub fn one_embedded_answer()
    ensures { OneEmbeddedAnswer }
{}

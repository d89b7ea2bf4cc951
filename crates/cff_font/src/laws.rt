//! What holds of every table and every glyph: theorems above the definitions of `read_cff`, `cff_contours` and `cff_is_blank`.

ghost use Rattle.cff_font.specs.Laws.{AreBlanksEmpty, AreContoursTotal, AreFaultsIn};

/// Each table is a font, or has one fault, at one of its bytes or at its end.
pub fn faults_are_in()
    ensures { AreFaultsIn }
{}

/// Each glyph of each font has contours, whatever its bytes are.
pub fn contours_are_total()
    ensures { AreContoursTotal }
{}

/// A glyph that `cff_is_blank` finds blank has no contours.
pub fn blanks_are_empty()
    ensures { AreBlanksEmpty }
{}

//! What holds of the lines of all scripts. The function does nothing: its contract is the law.

ghost use Rattle.ass_events.specs.LineLaws.{LinesFitTheirText};

/// No line of a script has more bytes than the text that spells the script.
pub fn lines_fit_their_text()
    ensures { LinesFitTheirText }
{}

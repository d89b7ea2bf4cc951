//! Laws of states.

ghost use Rattle.tag_state.specs.Laws.{FirstState, SteppedState, ResetState, FontState, SungState};

/// A state that is folded forward over the tags of a text is the state that looking back from a character gives, property by
/// property: before any tag, and behind each kind of tag.
pub fn looks_back()
    ensures first { FirstState }
    ensures stepped { SteppedState }
    ensures reset { ResetState }
    ensures font { FontState }
    ensures sung { SungState }
{}

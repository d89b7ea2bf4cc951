//! What holds of all reports. The function does nothing: its contract is the law.

ghost use Rattle.single_run.specs.Laws.{SameDrawsChangeNothing};

/// Where the draws are those of the instant before, the line has no box.
pub fn same_draws_change_nothing()
    ensures { SameDrawsChangeNothing }
{}

//! A law of the runs of a line. The function does nothing: its contract is the law.

ghost use Rattle.std.specs.Prelude.{List};
ghost use Rattle.override_tags.specs.declared.view.EventView.{EventView};
ghost use Rattle.text_layout.specs.declared.laid.Placed.{Placed};
ghost use Rattle.event_draws.specs.Runs.{AreRunsOf, runs_of};

/// The runs of a line are its items, one run after the other, and none could go on.
pub fn runs_are_maximal()
    ensures { (view : EventView) (items : List Placed) → AreRunsOf view items (runs_of view items) }
{}

//! What holds of the definitions themselves. The function does nothing: its contract is the law.

ghost use Rattle.frame_view.specs.FrameScales.{AreScalesOfSize};

/// Where a size alone is known, all lengths of a script are stretched to it, and lines count from its edges.
pub fn scales_of_a_size()
    ensures { AreScalesOfSize }
{}

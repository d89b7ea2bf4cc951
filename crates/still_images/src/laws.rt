//! What holds of all kept pictures. The function does nothing: its contract is the law.

ghost use Rattle.still_images.specs.Laws.{CropsLieOver, StillsAreFrames, StillsShowAll};

/// Expanded by their places the kept pictures are those of every instant; each is what its part, laid over the one before in its box,
/// makes; and whole images are those of `frame`.
pub fn stills_show_all()
    ensures all { StillsShowAll }
    ensures crops { CropsLieOver }
    ensures frames { StillsAreFrames }
{}

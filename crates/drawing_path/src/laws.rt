//! The law that a drawing has one path.

ghost use Rattle.drawing_path.specs.Laws.{HasPath, OnePath};

/// A text has a path and no two, so what `read_path` gives is the only path that its contract allows.
pub fn one_path()
    ensures some { HasPath }
    ensures one { OnePath }
{}

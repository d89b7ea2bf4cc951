//! Laws of pictures with alpha. The function does nothing: its contract is the law.

ghost use Rattle.alpha_canvas.specs.Laws.{OverIsNear};

/// Over any background a picture with alpha is near to painting its images on it.
pub fn over_is_near()
    ensures { OverIsNear }
{}

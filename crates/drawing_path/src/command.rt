//! The commands of a drawing.

ghost use Rattle.std.specs.Prelude.{◌≡◌};
ghost use Rattle.drawing_path.specs.Tokens.{command_of};

/// A command of a drawing (Aegisub tag reference, "Drawing commands").
#[derive(Clone, Copy, Debug, PartialEq, Eq)]
pub enum Command {
    /// `m` and `n`: each point begins a figure. Both draw the same, since each figure is filled as if it were closed.
    Begin,
    /// `l`: a line to each point.
    Lines,
    /// `b`: a cubic curve by each three points.
    Cubics,
    /// `s`: a spline by the last vertex and three or more points.
    NewSpline,
    /// `p`: more points for the last spline of the figure.
    Extend,
    /// `c`: closes the last spline of the figure.
    Close,
}

/// The command that a letter chooses.
pub fn command_of(letter: u8) -> Option<Command>
    ensures { result ≡ command_of letter }
{
    match letter {
        b'm' | b'n' => Some(Command::Begin),
        b'l' => Some(Command::Lines),
        b'b' => Some(Command::Cubics),
        b's' => Some(Command::NewSpline),
        b'p' => Some(Command::Extend),
        b'c' => Some(Command::Close),
        _ => None,
    }
}

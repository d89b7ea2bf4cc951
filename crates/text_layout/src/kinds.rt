//! What an item of a view is for layout: a soft break is a space, or a hard break in wrap style 2.

ghost use Rattle.std.specs.Prelude.{◌≡◌, ◌==◌};
ghost use Rattle.text_layout.specs.Kinds.{char_of, role_of};

use override_tags::{Shown, ShownKind};

/// What an item is for the breaks of lines.
#[derive(Clone, Copy, Debug, PartialEq, Eq)]
pub(crate) enum BreakRole {
    /// A drawing, or a character at which no line is broken.
    Word,
    /// A space, at which a line may be broken.
    Space,
    /// A hard break.
    Break,
}

/// The character that an item is in a wrap style; `None` for hard breaks and drawings. A soft break is a space, or a hard break in wrap
/// style 2 (Aegisub tag reference, "\n").
pub fn char_of(shown: &Shown, wrap: u8) -> Option<char>
    ensures { result ≡ char_of wrap shown.now.kind }
{
    match &shown.kind {
        ShownKind::Char(c) => Some(*c),
        ShownKind::Soft if wrap != 2 => Some(' '),
        _ => None,
    }
}

/// What an item is for the breaks of lines.
pub(crate) fn role_of(shown: &Shown, wrap: u8) -> BreakRole
    ensures { result ≡ role_of wrap shown.now.kind }
{
    match &shown.kind {
        ShownKind::Char(' ') => BreakRole::Space,
        ShownKind::Char(_) => BreakRole::Word,
        ShownKind::Drawing(_) => BreakRole::Word,
        ShownKind::Hard => BreakRole::Break,
        ShownKind::Soft if wrap == 2 => BreakRole::Break,
        ShownKind::Soft => BreakRole::Space,
    }
}

//! The same of UTF-8 texts: a blank is one byte, so that what is left is UTF-8 too.

ghost use Rattle.std.specs.Prelude.{◌≡◌};
ghost use Rattle.ass_num.specs.Blanks.{past_blanks, before_blanks, trimmed};

use crate::blanks::blanks_from;
use crate::blanks_before;

/// The text from its first byte on that is no blank.
#[tactic(auto, unfolding(crate::specs::Blanks::past_blanks))]
pub fn past_blanks(text: &str) -> &str
    ensures { result.now ≡ past_blanks text.now }
{
    &text[blanks_before(text.as_bytes())..]
}

/// The text without the blanks at its end.
#[tactic(auto, unfolding(crate::specs::Blanks::before_blanks))]
pub fn before_blanks(text: &str) -> &str
    ensures { result.now ≡ before_blanks text.now }
{
    &text[..blanks_from(text.as_bytes())]
}

/// The text without the blanks at both its ends.
#[tactic(auto, unfolding(crate::specs::Blanks::trimmed))]
pub fn trimmed(text: &str) -> &str
    ensures { result.now ≡ trimmed text.now }
{
    before_blanks(past_blanks(text))
}

//! Bytes without blanks at their ends.

ghost use Rattle.std.specs.Prelude.{◌≡◌, ◌+◌, ◌<◌, length, slice_index, true};
ghost use Rattle.std.specs.List.{suffix_len};
ghost use Rattle.ass_num.specs.Numerals.{is_blank};
ghost use Rattle.ass_num.specs.Blanks.{past_blanks, before_blanks, trimmed};

use crate::{blanks_before, is_blank};

/// Where the blanks at the end begin.
pub fn blanks_from(text: &[u8]) -> usize
    ensures place { result + suffix_len is_blank text.now ≡ length text.now }
    ensures blank { result < length text.now → is_blank (slice_index text.now result) ≡ true }
{
    let mut end = text.len();
    while end > 0 && is_blank(text[end - 1]) {
        end -= 1;
    }
    end
}

/// The text from its first byte on that is no blank.
#[tactic(auto, unfolding(crate::specs::Blanks::past_blanks))]
pub fn past_blanks(text: &[u8]) -> &[u8]
    ensures { result.now ≡ past_blanks text.now }
{
    &text[blanks_before(text)..]
}

/// The text without the blanks at its end.
#[tactic(auto, unfolding(crate::specs::Blanks::before_blanks))]
pub fn before_blanks(text: &[u8]) -> &[u8]
    ensures { result.now ≡ before_blanks text.now }
{
    &text[..blanks_from(text)]
}

/// The text without the blanks at both its ends.
#[tactic(auto, unfolding(crate::specs::Blanks::trimmed))]
pub fn trimmed(text: &[u8]) -> &[u8]
    ensures { result.now ≡ trimmed text.now }
{
    before_blanks(past_blanks(text))
}

//! Words in a line.

ghost use Rattle.std.specs.Prelude.{◌≡◌, ◌≤◌, length};
ghost use Rattle.std.specs.List.{prefix_len};
ghost use Rattle.ass_num.specs.Names.{same_name};
ghost use Rattle.ass_script.specs.Words.{past_mark, is_star_or_blank, bare_name};

use ass_num::is_blank;
use ass_num::text_blanks::before_blanks;

/// How many stars and blanks stand at the front.
fn stars_and_blanks(text: &[u8]) -> usize
    ensures count { result ≡ prefix_len is_star_or_blank text.now }
    ensures within { result ≤ length text.now }
{
    for (i, byte) in text.iter().enumerate() {
        if !(*byte == b'*' || is_blank(*byte)) {
            return i;
        }
    }
    text.len()
}

/// A style's name as it is looked for: without stars and blanks before it, and without blanks behind it.
#[tactic(auto, unfolding(crate::specs::Words::bare_name))]
pub fn bare_name(text: &str) -> &str
    ensures { result.now ≡ bare_name text.now }
{
    before_blanks(&text[stars_and_blanks(text.as_bytes())..])
}

/// Whether two names are one without regard to ASCII case.
#[inline(never)]
pub fn same_name(a: &str, b: &str) -> bool
    ensures { result ≡ same_name a.now b.now }
{
    a.eq_ignore_ascii_case(b)
}

/// The text behind a byte order mark.
#[tactic(auto, unfolding(crate::specs::Words::past_mark))]
pub fn past_mark(text: &str) -> &str
    ensures { result.now ≡ past_mark text.now }
{
    if text.as_bytes().starts_with(b"\xef\xbb\xbf") {
        return &text[3..];
    }
    text
}

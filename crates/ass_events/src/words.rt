//! Commas and blanks.

ghost use Rattle.std.specs.Prelude.{◌≡◌, ◌≤◌, length};
ghost use Rattle.std.specs.List.{position_or_len, list_all};
ghost use Rattle.ass_num.specs.Numerals.{is_blank};
ghost use Rattle.ass_script.specs.Words.{is_comma};

use ass_num::is_blank;

/// Whether a text has blanks alone.
pub fn is_empty(text: &[u8]) -> bool
    ensures { result ≡ list_all is_blank text.now }
{
    text.iter().all(|byte| is_blank(*byte))
}

/// How many bytes stand before the first comma.
pub fn before_comma(text: &[u8]) -> usize
    ensures len { result ≡ position_or_len is_comma text.now }
    ensures within { result ≤ length text.now }
{
    for (i, byte) in text.iter().enumerate() {
        if *byte == b',' {
            return i;
        }
    }
    text.len()
}

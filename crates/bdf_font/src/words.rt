//! The words of a line.

ghost use Rattle.std.specs.Prelude.{◌≡◌, ◌≤◌, length};
ghost use Rattle.std.specs.List.{position_or_len};
ghost use Rattle.ass_num.specs.Numerals.{is_blank};
ghost use Rattle.bdf_font.specs.Words.{first_word, after_word};

use ass_num::{is_blank, past_blanks};

fn word_len(text: &[u8]) -> usize
    ensures len { result ≡ position_or_len is_blank text.now }
    ensures within { result ≤ length text.now }
{
    for (i, byte) in text.iter().enumerate() {
        if is_blank(*byte) {
            return i;
        }
    }
    text.len()
}

/// The first word of a text, and what follows it.
#[tactic(auto, unfolding(crate::specs::Words::first_word, crate::specs::Words::after_word))]
pub fn first_word(text: &[u8]) -> (&[u8], &[u8])
    ensures word { result.0.now ≡ first_word text.now }
    ensures rest { result.1.now ≡ after_word text.now }
{
    let text = past_blanks(text);
    let len = word_len(text);
    (&text[..len], &text[len..])
}

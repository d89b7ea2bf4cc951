//! The rules of letters.

ghost use Rattle.std.specs.Prelude.{◌≡◌};
ghost use Rattle.value_texts.specs.Values.{letters_in};

use frame_view::LetterWidth;

/// The rule of letters that a text is.
pub fn letters_in(text: &str) -> Option<LetterWidth>
    ensures { result ≡ letters_in text.now }
{
    if text == "script" {
        Some(LetterWidth::Canvas)
    } else if text == "aspect" {
        Some(LetterWidth::Aspect)
    } else {
        None
    }
}

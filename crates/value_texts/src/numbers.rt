//! Numbers.

ghost use Rattle.std.specs.Prelude.{◌≡◌};
ghost use Rattle.std.specs.Char.{is_ascii_digit};
ghost use Rattle.std.specs.List.{list_all};
ghost use Rattle.value_texts.specs.Values.{is_number, number_in, number_within};

/// The most digits of a number.
const MAX_DIGITS: usize = 13;

/// Whether all bytes are decimal digits.
fn are_digits(text: &str) -> bool
    ensures { result ≡ list_all is_ascii_digit text.now }
{
    text.as_bytes().iter().all(|byte| byte.is_ascii_digit())
}

/// Whether a text is from one to thirteen decimal digits.
fn is_number(text: &str) -> bool
    ensures { result ≡ is_number text.now }
{
    0 < text.len() && text.len() <= MAX_DIGITS && are_digits(text)
}

/// The number that a text is.
fn number_in(text: &str) -> Option<u64>
    ensures { result ≡ number_in text.now }
{
    if is_number(text) {
        text.parse::<u64>().ok()
    } else {
        None
    }
}

/// The number that a text is, from `least` to `most`.
#[inline(never)]
pub fn number_within(text: &str, least: u64, most: u64) -> Option<u64>
    ensures { result ≡ number_within least most text.now }
{
    let number = number_in(text)?;
    if least <= number && number <= most {
        Some(number)
    } else {
        None
    }
}

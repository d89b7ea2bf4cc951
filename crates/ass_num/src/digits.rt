//! Runs of blanks, marks and digits at the front of a text.

ghost use Rattle.std.specs.Prelude.{◌≡◌, ℕ, ◌+◌, ◌*◌, ◌/◌, ◌%◌, ◌^◌, ◌≤◌, min, take, length, pos, neg_ℤ, if◌then◌else◌};
ghost use Rattle.std.specs.Char.{is_digit};
ghost use Rattle.std.specs.List.{prefix_len};
ghost use Rattle.ass_num.specs.Numerals.{is_blank, is_decimal, is_mark, number_of, sign_len, signed};

/// At this value a number of decimal digits stays as further digits are read.
pub const MANY: u64 = 1 << 32;

/// Whether a byte is a space or a tab.
pub fn is_blank(byte: u8) -> bool
    ensures { result ≡ is_blank byte }
{
    byte == b' ' || byte == b'\t'
}

/// How many blanks stand at the front.
pub fn blanks_before(text: &[u8]) -> usize
    ensures count { result ≡ prefix_len is_blank text.now }
    ensures within { result ≤ length text.now }
{
    for (i, byte) in text.iter().enumerate() {
        if !is_blank(*byte) {
            return i;
        }
    }
    text.len()
}

/// How many of `&`, `H`, `h` and blanks stand at the front.
pub fn marks(text: &[u8]) -> usize
    ensures count { result ≡ prefix_len is_mark text.now }
    ensures within { result ≤ length text.now }
{
    for (i, byte) in text.iter().enumerate() {
        if !(*byte == b'&' || *byte == b'H' || *byte == b'h' || is_blank(*byte)) {
            return i;
        }
    }
    text.len()
}

/// Whether the front is a minus, and how many bytes a sign takes there.
pub fn sign(text: &[u8]) -> (bool, usize)
    ensures minus { (n : ℕ) → signed (take result.1 text.now) n ≡ (if result.0 then neg_ℤ (pos n) else pos n) }
    ensures len { result.1 ≡ sign_len text.now }
    ensures within { result.1 ≤ length text.now }
{
    match text.first() {
        Some(b'-') => (true, 1),
        Some(b'+') => (false, 1),
        _ => (false, 0),
    }
}

/// The decimal digits at the front: their number, or `MANY` if that is less, and how many they are.
pub fn decimal_digits(text: &[u8]) -> (u64, usize)
    ensures number { result.0 ≡ min (number_of 10 (take result.1 text.now)) MANY }
    ensures count { result.1 ≡ prefix_len is_decimal text.now }
    ensures within { result.1 ≤ length text.now }
{
    let mut number = 0;
    for (i, byte) in text.iter().enumerate() {
        let Some(digit) = char::from(*byte).to_digit(10) else {
            return (number, i);
        };
        number = (number * 10 + u64::from(digit)).min(MANY);
    }
    (number, text.len())
}

/// The digits of a base at the front: the low 32 bits of their number, and how many they are.
pub fn low_digits(text: &[u8], base: u32) -> (u32, usize)
    requires low { 2 ≤ base }
    requires high { base ≤ 16 }
    ensures number { result.0 ≡ number_of base (take result.1 text.now) % 2 ^ 32 }
    ensures count { result.1 ≡ prefix_len (λ c. is_digit c base) text.now }
    ensures within { result.1 ≤ length text.now }
{
    let mut number: u32 = 0;
    for (i, byte) in text.iter().enumerate() {
        let Some(digit) = char::from(*byte).to_digit(base) else {
            return (number, i);
        };
        number = number.wrapping_mul(base).wrapping_add(digit);
    }
    (number, text.len())
}

/// The decimal digits behind a point: the thousandths that they say, rounded down, and how many
/// they are.
pub fn fraction_digits(text: &[u8]) -> (u64, usize)
    ensures below { result.0 ≤ 1000 }
    ensures thousandths { result.0 ≡ number_of 10 (take result.1 text.now) * 1000 / 10 ^ result.1 }
    ensures count { result.1 ≡ prefix_len is_decimal text.now }
    ensures within { result.1 ≤ length text.now }
{
    let mut thousandths = 0;
    let mut place: u64 = 100;
    for (i, byte) in text.iter().enumerate() {
        let Some(digit) = char::from(*byte).to_digit(10) else {
            return (thousandths, i);
        };
        thousandths += u64::from(digit) * place;
        place /= 10;
    }
    (thousandths, text.len())
}

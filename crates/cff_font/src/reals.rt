//! Real numbers of DICTs.

ghost use Rattle.std.specs.Prelude.{ℕ, ◌≡◌, ◌<◌, ◌≤◌, ◌+◌, ◌*◌, ◌/◌, ◌^◌, min};
ghost use Rattle.ass_num.specs.Limits.{IsWithin};
ghost use Rattle.cff_font.specs.KeptReals.{nineteen_digits, max_exponent, AreDigitsOf, IsKeptOf, IsReal};
ghost use Rattle.cff_font.specs.Reals.{max_decimal, ExactReal, first_real, with_digit, with_mark_in, half_read, scaled_by, size_of_real, value_of_real, real_between};

use font_bytes::u8_at;

/// The most that a number of a matrix is, 1,000, in 10^-15.
const MAX_DECIMAL: u128 = 1_000_000_000_000_000_000;

/// The least number of nineteen digits.
const NINETEEN_DIGITS: u64 = 1_000_000_000_000_000_000;

/// The greatest exponent that is counted.
const MAX_EXPONENT: u128 = 1_000_000_000_000_000_000_000_000_000_000;

/// The part of a real number that its next half of a byte belongs to.
#[derive(Clone, Copy)]
pub enum RealPart {
    Whole,
    Fraction,
    Exponent,
    End,
}

/// What the marks of a real number say.
#[derive(Clone, Copy)]
pub struct RealMarks {
    pub part: RealPart,
    pub is_negative: bool,
    /// Whether the power of ten divides.
    pub is_divided: bool,
}

/// The digits of a whole number.
#[derive(Clone, Copy)]
pub struct Digits {
    /// All of them, or the first nineteen.
    pub kept: u64,
    /// How many more there are.
    pub dropped: u128,
}

/// A real number as far as it is read.
#[derive(Clone, Copy)]
pub struct Real {
    pub marks: RealMarks,
    pub digits: Digits,
    /// How many of the digits stand behind the point.
    pub places: u128,
    /// The power of ten.
    pub exponent: u128,
}

/// Before the first digit.
fn first_real() -> Real
    ensures { (halves : ℕ) → IsKeptOf halves first_real result }
{
    Real {
        marks: RealMarks {
            part: RealPart::Whole,
            is_negative: false,
            is_divided: false,
        },
        digits: Digits {
            kept: 0,
            dropped: 0,
        },
        places: 0,
        exponent: 0,
    }
}

/// The digits with one more behind them.
fn followed_by(digits: Digits, digit: u8) -> Digits
    requires kept { digits.kept < 10 * nineteen_digits }
    requires dropped { digits.dropped < max_exponent }
    requires digit { digit < 10 }
    ensures digits { (n : ℕ) → AreDigitsOf n digits → AreDigitsOf (n * 10 + digit) result }
    ensures dropped { result.dropped ≤ digits.dropped + 1 }
{
    if digits.kept < NINETEEN_DIGITS {
        return Digits {
            kept: digits.kept * 10 + u64::from(digit),
            dropped: digits.dropped,
        };
    }
    Digits {
        kept: digits.kept,
        dropped: digits.dropped + 1,
    }
}

/// A number with one digit more.
fn with_digit(real: Real, digit: u8) -> Real
    requires real { IsReal real }
    requires digit { digit < 10 }
    ensures { (halves : ℕ) (exact : ExactReal) → IsKeptOf halves exact real → IsKeptOf (halves + 1) (with_digit exact digit real.marks.part) result }
{
    let mut read = real;
    match real.marks.part {
        RealPart::Whole => read.digits = followed_by(real.digits, digit),
        RealPart::Fraction => {
            read.digits = followed_by(real.digits, digit);
            read.places = real.places + 1;
        }
        RealPart::Exponent => {
            read.exponent = (real.exponent * 10 + u128::from(digit)).min(MAX_EXPONENT);
        }
        RealPart::End => {}
    }
    read
}

/// The marks with one more: a point, an exponent, a minus, or the end.
fn with_mark(marks: RealMarks, mark: u8) -> RealMarks
    ensures { result ≡ with_mark_in marks.part marks mark }
{
    let mut read = marks;
    if let RealPart::End = marks.part {
        return read;
    }
    match mark {
        10 => read.part = RealPart::Fraction,
        11 => read.part = RealPart::Exponent,
        12 => {
            read.part = RealPart::Exponent;
            read.is_divided = true;
        }
        14 => read.is_negative = true,
        15 => read.part = RealPart::End,
        _ => {}
    }
    read
}

/// A number with half a byte more.
fn half_read(real: Real, half: u8) -> Real
    requires { IsReal real }
    ensures { (halves : ℕ) (exact : ExactReal) → IsKeptOf halves exact real → IsKeptOf (halves + 1) (half_read exact half) result }
{
    if half < 10 {
        return with_digit(real, half);
    }
    let mut read = real;
    read.marks = with_mark(real.marks, half);
    read
}

/// A number times a power of ten, at most 1,000.
fn raised(value: u64, exponent: u128) -> u64
    requires { value < 10 * nineteen_digits }
    ensures { result ≡ min (value * 10 ^ exponent) max_decimal }
{
    let power = 10_u128.pow(exponent.min(18) as u32);
    (u128::from(value) * power).min(MAX_DECIMAL) as u64
}

/// A number by a power of ten, at most 1,000.
fn lowered(value: u64, exponent: u128) -> u64
    requires { value < 10 * nineteen_digits }
    ensures { result ≡ min (value / 10 ^ exponent) max_decimal }
{
    let power = 10_u128.pow(exponent.min(19) as u32);
    (u128::from(value) / power).min(MAX_DECIMAL) as u64
}

/// The number of these digits times a power of ten and divided by one, at most 1,000.
fn scaled_by(digits: Digits, raising: u128, lowering: u128) -> u64
    requires kept { digits.kept < 10 * nineteen_digits }
    requires dropped { digits.dropped < max_exponent }
    requires raising { raising ≤ 2 * max_exponent }
    ensures value { (n : ℕ) → AreDigitsOf n digits → result ≡ scaled_by n raising lowering }
    ensures within { result ≤ max_decimal }
{
    let total = raising + digits.dropped;
    if lowering <= total {
        return raised(digits.kept, total - lowering);
    }
    lowered(digits.kept, lowering - total)
}

/// What a real number is without its minus, in 10^-15.
fn size_of_real(real: Real) -> u64
    requires { IsReal real }
    ensures value { (halves : ℕ) (exact : ExactReal) → halves ≤ 2 ^ 66 → IsKeptOf halves exact real → result ≡ size_of_real exact }
    ensures within { result ≤ max_decimal }
{
    if real.marks.is_divided {
        return scaled_by(real.digits, 15, real.places + real.exponent);
    }
    scaled_by(real.digits, 15 + real.exponent, real.places)
}

/// What a real number is, in 10^-15.
fn value_of_real(real: Real) -> i64
    requires { IsReal real }
    ensures value { (halves : ℕ) (exact : ExactReal) → halves ≤ 2 ^ 66 → IsKeptOf halves exact real → result ≡ value_of_real exact }
    ensures within { IsWithin max_decimal result }
{
    let size = size_of_real(real) as i64;
    if real.marks.is_negative {
        return -size;
    }
    size
}

/// The real number whose bytes are those from a place up to another, in 10^-15.
pub fn real_between(bytes: &[u8], at: usize, behind: usize) -> i64
    ensures value { result ≡ real_between bytes.now at behind }
    ensures within { IsWithin max_decimal result }
{
    let mut real = first_real();
    for i in at..behind {
        let b = u8_at(bytes, i);
        real = half_read(half_read(real, b / 16), b % 16);
    }
    value_of_real(real)
}

//! Arguments that are numbers.

ghost use Rattle.std.specs.Prelude.{◌≡◌, ◌+◌, ◌<◌, ◌∷◌, [], length, IfSome, IfNone, IsNone, MatchOption};
ghost use Rattle.std.specs.Option.{option_map, option_copied};
ghost use Rattle.ass_num.specs.Numerals.{IsMilli};
ghost use Rattle.tag_arguments.specs.Cuts.{bracketed};
ghost use Rattle.tag_arguments.specs.Numbers.{begins_signed, ReadsUnsigned, ReadsOptional, ReadsFront, ReadsNumbers, ReadsBracketed, comma_pieces};
ghost use Rattle.tag_arguments.specs.Numbers.{counted_pieces, left_pieces};

use crate::cut::bracketed;
use arrayvec::ArrayVec;
use ass_num::text_blanks::trimmed;
use ass_num::{Milli, read_milli};

/// The numbers of an argument.
pub type Numbers = ArrayVec<Milli, 7>;

/// The number at the front of an argument.
pub fn read_front(argument: &str) -> Option<Milli>
    ensures { ReadsFront IsMilli argument.now result }
{
    let (value, _len) = read_milli(argument.as_bytes())?;
    Some(value)
}

/// An argument that is empty, or begins with a number.
pub fn read_number(argument: &str) -> Option<Option<Milli>>
    ensures { ReadsOptional IsMilli argument.now result }
{
    if argument.is_empty() {
        return Some(None);
    }
    Some(Some(read_front(argument)?))
}

/// Whether a sign stands at the front of an argument.
fn is_signed(argument: &[u8]) -> bool
    ensures { result ≡ begins_signed argument.now }
{
    matches!(argument, [b'+' | b'-', ..])
}

/// An argument that is empty, or begins with a number without a sign.
pub fn read_unsigned(argument: &str) -> Option<Option<Milli>>
    ensures { ReadsUnsigned argument.now result }
{
    if is_signed(argument.as_bytes()) {
        return None;
    }
    read_number(argument)
}

/// The first piece of a text, and what stands behind the comma after it.
pub fn first_piece(text: &str) -> (&str, Option<&str>)
    ensures pieces { MatchOption result.1 (comma_pieces text.now ≡ result.0.now ∷ []) (λ rest. comma_pieces text.now ≡ result.0.now ∷ comma_pieces rest.now) }
    ensures whole { IfNone result.1 (result.0.now ≡ text.now) }
    ensures shorter { IfSome result.1 (λ rest. length rest.now < length text.now) }
{
    match text.split_once(',') {
        Some((piece, rest)) => (piece, Some(rest)),
        None => (text, None),
    }
}

/// A text without a comma as its only piece, unless that doesn't count.
fn only_piece(text: &str, drops_blank: bool) -> Option<(&str, Option<&str>)>
    requires { comma_pieces text.now ≡ text.now ∷ [] }
    ensures pieces { MatchOption result
        (counted_pieces drops_blank text.now ≡ [])
        (λ next. counted_pieces drops_blank text.now ≡ next.0.now ∷ left_pieces drops_blank (option_copied next.1)) }
    ensures last { IfSome result (λ next. IsNone next.1) }
{
    if drops_blank {
        if trimmed(text).is_empty() {
            return None;
        }
        return Some((text, None));
    }
    Some((text, None))
}

/// The first piece of a text that counts, and what stands behind the comma after it.
fn next_piece(text: &str, drops_blank: bool) -> Option<(&str, Option<&str>)>
    ensures pieces { MatchOption result
        (counted_pieces drops_blank text.now ≡ [])
        (λ next. counted_pieces drops_blank text.now ≡ next.0.now ∷ left_pieces drops_blank (option_copied next.1)) }
    ensures shorter { IfSome result (λ next. IfSome next.1 (λ rest. length rest.now < length text.now)) }
{
    let (piece, rest) = first_piece(text);
    match rest {
        Some(rest) => Some((piece, Some(rest))),
        None => only_piece(text, drops_blank),
    }
}

/// The numbers between the commas of a text. There are none where some piece doesn't begin with a
/// number, or there are more than seven. A blank last piece may be dropped.
pub fn number_list(text: &str, drops_blank: bool) -> Option<Numbers>
    ensures { ReadsNumbers (counted_pieces drops_blank text.now) (option_map (λ numbers. numbers.items) result) }
{
    let mut numbers = ArrayVec::new();
    let mut rest = Some(text);
    while let Some(current) = rest {
        let Some((piece, more)) = next_piece(current, drops_blank) else {
            return Some(numbers);
        };
        let Some(value) = read_front(trimmed(piece)) else {
            return None;
        };
        match numbers.try_push(value) {
            Ok(()) => rest = more,
            Err(_full) => return None,
        }
    }
    Some(numbers)
}

/// The numbers of an argument in brackets.
pub fn bracketed_numbers(text: &str) -> Option<Numbers>
    ensures { ReadsBracketed (bracketed text.now) (option_map (λ numbers. numbers.items) result) }
{
    number_list(bracketed(text)?, false)
}

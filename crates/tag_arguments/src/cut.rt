//! Where tags and their arguments end.

ghost use Rattle.std.specs.Prelude.{◌≡◌, ◌+◌, ◌^◌, ◌<◌, ◌≤◌, length, slice_index, true};
ghost use Rattle.std.specs.Str.{IsCharBoundary};
ghost use Rattle.std.specs.Option.{option_copied};
ghost use Rattle.ass_num.specs.Bytes.{backslash};
ghost use Rattle.tag_arguments.specs.Cuts.{after_bracket, plain_argument, depth_after, outer_len, tag_len, bracketed};

use ass_num::text_blanks::trimmed;

/// The text behind a `(` at the front, if one stands there.
fn after_bracket(text: &str) -> Option<&str>
    ensures { option_copied result ≡ after_bracket text.now }
{
    text.strip_prefix('(')
}

/// An argument that needs no brackets: without the blanks at both its ends, and then without one `(`.
pub fn plain_argument(text: &str) -> &str
    ensures { result.now ≡ plain_argument text.now }
{
    let argument = trimmed(text);
    match after_bracket(argument) {
        Some(inside) => inside,
        None => argument,
    }
}

/// The depth in parentheses behind a byte.
fn depth_after(byte: u8, depth: usize) -> usize
    requires { depth + 1 < 2 ^ 64 }
    ensures value { result ≡ depth_after byte depth }
    ensures bound { result ≤ depth + 1 }
{
    match byte {
        b'(' => depth + 1,
        b')' => depth.saturating_sub(1),
        _ => depth,
    }
}

/// How many bytes stand before the next byte `stop` that isn't in parentheses, or before the end.
fn outer_len(text: &[u8], stop: u8) -> usize
    ensures len { result ≡ outer_len stop 0 text.now }
    ensures within { result ≤ length text.now }
    ensures stops { result < length text.now → slice_index text.now result ≡ stop }
{
    let mut depth: usize = 0;
    for (i, byte) in text.iter().enumerate() {
        if *byte == stop && depth == 0 {
            return i;
        }
        depth = depth_after(*byte, depth);
    }
    text.len()
}

/// How long the tag is that begins behind a `\`: it ends before the next `\` that isn't in parentheses, or with the text.
pub fn tag_len(text: &str) -> usize
    ensures len { result ≡ tag_len text.now }
    ensures boundary { IsCharBoundary text.now result }
    ensures stops { result < length text.now → slice_index text.now result ≡ backslash }
{
    outer_len(text.as_bytes(), b'\\')
}

/// What stands in the brackets at the front of a text, up to the matching `)` or the end; none without a `(`.
pub fn bracketed(text: &str) -> Option<&str>
    ensures { option_copied result ≡ bracketed text.now }
{
    let inside = after_bracket(text)?;
    Some(&inside[..outer_len(inside.as_bytes(), b')')])
}

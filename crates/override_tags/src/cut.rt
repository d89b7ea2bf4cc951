//! The texts of tags one after another.

ghost use Rattle.std.specs.Prelude.{◌≡◌, ◌==◌, ◌+◌, ◌<◌, ◌≤◌, [], length, slice_index, IfNone, IfSome};
ghost use Rattle.std.specs.List.{position_or_len};
ghost use Rattle.std.specs.Str.{IsUtf8};
ghost use Rattle.ass_num.specs.Bytes.{backslash};
ghost use Rattle.override_tags.specs.Tags.{before_tags, from_tags, BeginsTag, IsNextTag};

use tag_arguments::tag_len;

/// How many bytes stand before the first `\`, or before the end.
fn len_before_tags(text: &[u8]) -> usize
    ensures len { result ≡ position_or_len (λ c. c == backslash) text.now }
    ensures within { result ≤ length text.now }
    ensures stops { result < length text.now → slice_index text.now result ≡ backslash }
{
    for (i, byte) in text.iter().enumerate() {
        if *byte == b'\\' {
            return i;
        }
    }
    text.len()
}

/// What stands before the first `\`, and the text from it on.
pub fn split_at_tags(text: &str) -> (&str, &str)
    ensures before { result.0.now ≡ before_tags text.now }
    ensures tags { result.1.now ≡ from_tags text.now }
    ensures begins { BeginsTag result.1.now }
    ensures len { length result.0.now + length result.1.now ≡ length text.now }
{
    text.split_at(len_before_tags(text.as_bytes()))
}

/// The text of the tag at the front, behind its `\`, and what stands behind the tag. It ends
/// before the next `\` that isn't in parentheses. There is none where the front is no `\`.
pub fn next_tag(text: &str) -> Option<(&str, &str)>
    requires { BeginsTag text.now }
    ensures none { IfNone result (text.now ≡ []) }
    ensures next { IfSome result (λ next. IsNextTag text.now next.0.now next.1.now) }
    ensures text { IfSome result (λ next. IsUtf8 next.1.now) }
{
    match text.strip_prefix('\\') {
        Some(rest) => Some(rest.split_at(tag_len(rest))),
        None => None,
    }
}

//! Where two lists of bytes begin and cease to differ.

ghost use Rattle.std.specs.Prelude.{◌≡◌, ◌≢◌, ℕ, ◌-◌, ◌<◌, ◌≤◌, length, slice_index};
ghost use Rattle.frame_change.specs.Rows.{AreSame};

use crate::words::word;

/// The bytes of some words at the front that are all the same.
fn same_words(a: &[u8], b: &[u8]) -> usize
    requires { length a.now ≡ length b.now }
    ensures within { result ≤ length a.now }
    ensures same { AreSame a.now b.now 0 result }
{
    let mut i = 0;
    while a.len() - i >= 8 && word(a, i) == word(b, i) {
        i += 8;
    }
    i
}

/// The place of the first byte that differs, or how many bytes there are.
pub fn first_change(a: &[u8], b: &[u8]) -> usize
    requires { length a.now ≡ length b.now }
    ensures within { result ≤ length a.now }
    ensures same { AreSame a.now b.now 0 result }
    ensures differs { result < length a.now → slice_index a.now result ≢ slice_index b.now result }
{
    let mut i = same_words(a, b);
    while i < a.len() && a[i] == b[i] {
        i += 1;
    }
    i
}

/// Where some words at the end begin that are all the same.
fn same_words_from(a: &[u8], b: &[u8]) -> usize
    requires { length a.now ≡ length b.now }
    ensures within { result ≤ length a.now }
    ensures same { AreSame a.now b.now result (length a.now) }
{
    let mut end = a.len();
    while end >= 8 && word(a, end - 8) == word(b, end - 8) {
        end -= 8;
    }
    end
}

/// The place behind the last byte that differs, or 0.
pub fn last_change(a: &[u8], b: &[u8]) -> usize
    requires { length a.now ≡ length b.now }
    ensures within { result ≤ length a.now }
    ensures same { AreSame a.now b.now result (length a.now) }
    ensures differs { 0 < result → slice_index a.now (result - 1) ≢ slice_index b.now (result - 1) }
{
    let mut end = same_words_from(a, b);
    while end > 0 && a[end - 1] == b[end - 1] {
        end -= 1;
    }
    end
}

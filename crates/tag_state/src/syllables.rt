//! Syllables.

ghost use Rattle.std.specs.Prelude.{◌≡◌, pos, ◌≤ℤ◌, IfSome};
ghost use Rattle.override_tags.specs.Limits.{max_syllable};
ghost use Rattle.tag_state.specs.Steps.{HasSongRoom, syllable_behind};

use override_tags::{Sung, Syllable};

/// A syllable of a length behind another one.
pub fn next_syllable(before: Option<Syllable>, kind: Sung, len: i64) -> Syllable
    requires room { IfSome before HasSongRoom }
    requires some { pos 0 ≤ℤ len }
    requires short { len ≤ℤ pos max_syllable }
    ensures { result ≡ syllable_behind before kind len }
{
    match before {
        None => Syllable {
            kind,
            begin: 0,
            end: len,
            index: 0,
        },
        Some(last) => Syllable {
            kind,
            begin: last.end,
            end: last.end + len,
            index: last.index + 1,
        },
    }
}

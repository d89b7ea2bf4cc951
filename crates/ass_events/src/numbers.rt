//! The numbers and times of a line.

ghost use Rattle.std.specs.Prelude.{◌≡◌};
ghost use Rattle.ass_events.specs.Numbers.{time_of, order_of, whole_or_zero, instant_of};

use crate::words::is_empty;
use ass_num::{read_time, read_whole};

fn time(text: &[u8]) -> Option<i64>
    ensures { result ≡ time_of text.now }
{
    read_time(text)
}

/// A ReadOrder: a whole number that isn't negative.
#[tactic(auto, unfolding(crate::specs::Numbers::order_of))]
pub fn order(text: &[u8]) -> Option<u32>
    ensures { result ≡ order_of text.now }
{
    let order = read_whole(text)?;
    if order < 0 {
        return None;
    }
    Some(order as u32)
}

/// A whole number, 0 where the text is empty.
#[tactic(auto, unfolding(crate::specs::Numbers::whole_or_zero))]
pub fn number(text: &[u8]) -> Option<i32>
    ensures { result ≡ whole_or_zero text.now }
{
    if is_empty(text) {
        return Some(0);
    }
    read_whole(text)
}

/// A time in milliseconds, 0 where the text is empty.
#[tactic(auto, unfolding(crate::specs::Numbers::instant_of))]
pub fn instant(text: &[u8]) -> Option<i64>
    ensures { result ≡ instant_of text.now }
{
    if is_empty(text) {
        return Some(0);
    }
    time(text)
}

//! Fades, and alphas under them.

ghost use Rattle.std.specs.Prelude.{◌≡◌, ◌≤◌, pos};
ghost use Rattle.event_instants.specs.Instants as rule;

use crate::ways::{at_time, difference, on_the_way};
use ass_num::hold;

/// The nearest alpha to a number.
fn held_alpha(number: i64) -> u32
    ensures value { pos result ≡ rule.held_alpha number }
    ensures alpha { result ≤ 255 }
{
    hold(i128::from(number), 0, 255) as u32
}

/// A fade of three alphas and four times, in milliseconds: the first alpha, on the way to the second one from `t1` to `t2`, the
/// second one, on the way to the third one from `t3` to `t4`, and the third one.
fn fade_by(a1: u32, a2: u32, a3: u32, t1: i64, t2: i64, t3: i64, t4: i64, elapsed: i64) -> u32
    requires first { a1 ≤ 255 }
    requires middle { a2 ≤ 255 }
    requires last { a3 ≤ 255 }
    ensures value { pos result ≡ rule.fade_by (pos a1) (pos a2) (pos a3) t1 t2 t3 t4 elapsed }
    ensures alpha { result ≤ 255 }
{
    if elapsed < t1 {
        a1
    } else if elapsed < t2 {
        at_time(a1, a2, t1, t2, elapsed)
    } else if elapsed < t3 {
        a2
    } else if elapsed < t4 {
        at_time(a2, a3, t3, t4, elapsed)
    } else {
        a3
    }
}

/// The alpha of a `\fade` when `elapsed` milliseconds have passed: 0 is opaque, and 255 invisible. Its seven numbers are three alphas
/// and four times in milliseconds.
pub fn fade_at(f: &[i64; 7], elapsed: i64) -> u8
    ensures { pos result ≡ rule.fade_at f.now elapsed }
{
    let first = held_alpha(f[0]);
    let middle = held_alpha(f[1]);
    let last = held_alpha(f[2]);
    fade_by(first, middle, last, f[3], f[4], f[5], f[6], elapsed) as u8
}

/// The alpha of a `\fad` in an event of a duration.
fn fad_by(fade_in: i64, fade_out: i64, duration: i64, elapsed: i64) -> u32
    ensures value { pos result ≡ rule.fad_at fade_in fade_out duration elapsed }
    ensures alpha { result ≤ 255 }
{
    let leaves = difference(duration, fade_out);
    let now = i128::from(elapsed);
    if elapsed < 0 {
        255
    } else if elapsed < fade_in {
        at_time(255, 0, 0, fade_in, elapsed)
    } else if now < leaves {
        0
    } else if elapsed < duration {
        on_the_way(0, 255, now - leaves, i128::from(fade_out))
    } else {
        255
    }
}

/// The alpha of a `\fad(in,out)` when `elapsed` milliseconds of the event's duration have passed: that of the fade with the alphas
/// 255, 0, 255 and the times 0, in, duration - out, duration.
pub fn fad_at(fade_in: i64, fade_out: i64, duration: i64, elapsed: i64) -> u8
    ensures { pos result ≡ rule.fad_at fade_in fade_out duration elapsed }
{
    fad_by(fade_in, fade_out, duration, elapsed) as u8
}

/// An alpha under a fade: what is left of its opacity, in 255ths, rounded.
pub fn faded(alpha: u8, fade: u8) -> u8
    ensures { result ≡ rule.faded alpha fade }
{
    let left = (255 - u32::from(alpha)) * (255 - u32::from(fade));
    (255 - (left + 127) / 255) as u8
}

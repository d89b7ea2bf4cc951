//! Numbers by the rules: those that texts say, turns and powers; and movements and fades at an instant.

use crate::telling::{number, numbers, shown};
use ass_num::{
    Mem, cosine, power, read_alpha, read_colour, read_milli, read_style_colour, read_time,
    read_whole, sine,
};
use event_instants::{fade_at, move_at};
use std::alloc::Global;

/// The colour of a tag, that of a style, and the alpha.
fn colours(alloc: Global, text: &str) -> Mem<String> {
    let bytes = text.as_bytes();
    let colours = (
        read_colour(bytes),
        read_style_colour(bytes),
        read_alpha(bytes),
    );
    shown(alloc, &colours)
}

/// The sine and the cosine of an angle.
fn turn(alloc: Global, angle: &str) -> Mem<String> {
    let angle = number(angle);
    shown(alloc, &(sine(angle), cosine(angle)))
}

/// A number of 16 binary places to the power of so many quarters.
fn power_of(alloc: Global, question: &str) -> Mem<String> {
    let [x, q, _, _, _, _, _, _] = numbers(question);
    if x < 0 || x > 65_536 || q < 1 || q > 32 {
        return shown(alloc, &"no power");
    }
    shown(alloc, &power(x as u32, q as u32))
}

/// Where a movement from (0, 0) to (10, -20.001) has come to: its begin, its end, the duration and the instant.
fn place(alloc: Global, question: &str) -> Mem<String> {
    let [t1, t2, duration, t, _, _, _, _] = numbers(question);
    shown(
        alloc,
        &move_at(&[0, 0, 10_000, -20_001], t1, t2, duration, t),
    )
}

/// The alpha of a fade: its three alphas, its four times and the instant.
fn fade(alloc: Global, question: &str) -> Mem<String> {
    let [a, b, c, t1, t2, t3, t4, t] = numbers(question);
    shown(alloc, &fade_at(&[a, b, c, t1, t2, t3, t4], t))
}

/// What a table of numbers asks of a text.
pub fn told(alloc: Global, table: &str, question: &str) -> Mem<String> {
    match table {
        "millis" => shown(alloc, &read_milli(question.as_bytes())),
        "wholes" => shown(alloc, &read_whole(question.as_bytes())),
        "times" => shown(alloc, &read_time(question.as_bytes())),
        "colours" => colours(alloc, question),
        "turns" => turn(alloc, question),
        "powers" => power_of(alloc, question),
        "moves" => place(alloc, question),
        "fades" => fade(alloc, question),
        _ => shown(alloc, &"no such table"),
    }
}

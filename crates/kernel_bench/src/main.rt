//! Measures the kernels. With the words `KERNEL SIZE TURNS` it makes an input of that size, prints what comes of it, and
//! to standard error how long a turn takes. Without words it takes one turn of each kernel on a small input.
#![tactic(auto)]

mod alpha;
mod blurring;
mod border;
mod boxes;
mod cancelling;
mod drawing;
mod glyph;
mod laps;
mod letters;
mod masks;
mod outlines;
mod stop;
mod telling;

use std::{env, io};
use stop::Stop;

/// The words after the program's name.
fn words_of(rt: &HostRuntime) -> io::Result<Vec<String>> {
    let mut words = Vec::new(rt.alloc());
    for word in env::args(rt)?.skip(1) {
        words.push(word)?;
    }
    Ok(words)
}

fn number_of(word: &String) -> Result<u32, Stop> {
    match word.as_str().parse::<u32>() {
        Ok(number) => Ok(number),
        Err(_) => Err(Stop::UnknownWords),
    }
}

fn measure(rt: &HostRuntime, kernel: &str, size: u32, turns: u32) -> Result<(), Stop> {
    match kernel {
        "outline" => outlines::measure_glyph(rt, size, turns),
        "drawing" => outlines::measure_drawing(rt, size, turns),
        "letter" => letters::measure(rt, size, turns),
        "region" => glyph::measure(rt, size, turns),
        "cancel" => cancelling::measure(rt, size, turns),
        "border" => border::measure(rt, size, turns),
        "cover" => masks::measure_cover(rt, size, turns),
        "sum" => masks::measure_sum(rt, size, turns),
        "blur" => blurring::measure(rt, size, turns),
        "shift" => boxes::measure(rt, size, turns),
        "draw" => drawing::measure(rt, size, turns),
        "alpha" => alpha::measure(rt, size, turns),
        _ => Err(Stop::UnknownWords),
    }
}

/// Small inputs.
const SMALL: [(&str, u32); 12] = [
    ("outline", 2),
    ("drawing", 3),
    ("letter", 8),
    ("region", 8),
    ("cancel", 4),
    ("border", 8),
    ("cover", 8),
    ("sum", 4),
    ("blur", 8),
    ("shift", 6),
    ("draw", 2),
    ("alpha", 2),
];

fn measure_small(rt: &HostRuntime) -> Result<(), Stop> {
    for (kernel, size) in SMALL {
        measure(rt, kernel, size, 1)?;
    }
    blurring::show(rt)
}

fn main(rt: HostRuntime) -> Result<(), Stop> {
    let words = words_of(&rt)?;
    match words.as_slice() {
        [] => measure_small(&rt),
        [kernel, size, turns] => {
            measure(&rt, kernel.as_str(), number_of(size)?, number_of(turns)?)
        }
        _ => Err(Stop::UnknownWords),
    }
}

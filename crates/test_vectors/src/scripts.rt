//! Scripts as programs and hands write them, and what they are refused for.

use crate::telling::{lines, parted, shown};
use ass_num::Mem;
use ass_script::{Script, find_style, read_script};
use std::alloc::Global;

/// The header, how many styles and lines there are, and the fields of a line.
fn script_told(alloc: Global, script: &Script) -> Mem<String> {
    let counts = (script.styles().len(), script.line_count());
    shown(alloc, &(script.header(), counts, script.format()))
}

/// What a script is read as, or why it is refused.
pub fn told(alloc: Global, text: &str) -> Mem<String> {
    let text = lines(alloc, text)?;
    match read_script(alloc, text.as_str().as_bytes()) {
        Ok(script) => script_told(alloc, &script),
        Err(refusal) => shown(alloc, &refusal),
    }
}

/// A script of so many lines.
pub fn long_script(alloc: Global, count: &str) -> Mem<String> {
    let count = count.parse::<u32>().unwrap_or(0);
    let mut text = String::from_str(alloc, "[Events]\n")?;
    for _ in 0..count {
        text.push_str("Dialogue:\n")?;
    }
    Ok(text)
}

/// What a script of so many lines is read as: how many it has.
pub fn line_count(alloc: Global, count: &str) -> Mem<String> {
    let text = long_script(alloc, count)?;
    match read_script(alloc, text.as_str().as_bytes()) {
        Ok(script) => shown(alloc, &script.line_count()),
        Err(refusal) => shown(alloc, &refusal),
    }
}

/// The place of the style that a name means, and the style: the name, a bar, and the script.
pub fn style(alloc: Global, question: &str) -> Mem<String> {
    let (name, text) = parted(question, "|");
    let text = lines(alloc, text)?;
    match read_script(alloc, text.as_str().as_bytes()) {
        Ok(script) => shown(
            alloc,
            &(find_style(&script, name), script.style_named(name)),
        ),
        Err(refusal) => shown(alloc, &refusal),
    }
}

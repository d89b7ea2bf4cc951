//! Answers as texts, and what stands in questions.

use ass_num::Mem;
use std::alloc::Global;
use std::fmt::Debug;

/// A value as it is printed.
pub fn shown<T: Debug>(alloc: Global, value: &T) -> Mem<String> {
    Ok(format!(in alloc; "{value:?}")?)
}

/// What stands before a mark, and what behind it; nothing where it is missing.
pub fn parted<'a>(text: &'a str, mark: &str) -> (&'a str, &'a str) {
    text.split_once(mark).unwrap_or(("", ""))
}

/// A word's number; 0 for what is none.
pub fn number(word: &str) -> i64 {
    word.parse::<i64>().unwrap_or(0)
}

/// The first eight numbers between blanks; 0 where there are fewer.
pub fn numbers(text: &str) -> [i64; 8] {
    let mut numbers = [0i64; 8];
    let mut count = 0usize;
    for word in text.split_whitespace() {
        if count < 8 {
            numbers[count] = number(word);
            count += 1;
        }
    }
    numbers
}

/// Lines that end at bars.
pub fn lines(alloc: Global, text: &str) -> Mem<String> {
    Ok(text.replace(alloc, "|", "\n")?)
}

//! Answers as texts, and what stands in questions.

use ass_num::Mem;
use std::alloc::Global;
use std::fmt::Debug;

/// A value as it is printed.
pub fn shown<T: Debug>(alloc: Global, value: &T) -> Mem<String> {
    Ok(format!(in alloc; "{value:?}")?)
}

/// A word's number; 0 for what is none.
pub fn number(word: &str) -> u32 {
    word.parse::<u32>().unwrap_or(0)
}

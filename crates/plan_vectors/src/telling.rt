//! Rows of numbers.

use std::alloc::Global;
use std::io;

/// Numbers behind a head.
pub fn numbers_text(alloc: Global, head: &str, numbers: &[i64]) -> io::Result<String> {
    let mut text = String::from_str(alloc, head)?;
    for number in numbers {
        let digits = format!(in alloc; " {number}")?;
        text.push_str(digits.as_str())?;
    }
    Ok(text)
}

/// The numbers between blanks; 0 for what is none.
pub fn numbers_of(alloc: Global, text: &str) -> io::Result<Vec<i64>> {
    let mut numbers = Vec::new(alloc);
    for word in text.split_whitespace() {
        numbers.push(word.parse::<i64>().unwrap_or(0))?;
    }
    Ok(numbers)
}

/// Prints a head and numbers.
pub fn show_numbers(rt: &HostRuntime, head: &str, numbers: &[i64]) -> io::Result<()> {
    let text = numbers_text(rt.alloc(), head, numbers)?;
    println!(rt; "{text}")
}

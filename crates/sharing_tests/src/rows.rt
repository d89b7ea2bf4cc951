//! Rows of calls: a call, ` = `, and what it comes to.

use ass_num::Mem;
use std::alloc::Global;
use std::fmt::Debug;

/// A value as it is printed.
pub fn shown<T: Debug>(alloc: Global, value: &T) -> Mem<String> {
    Ok(format!(in alloc; "{value:?}")?)
}

/// The name of a call.
pub fn name_of(call: &str) -> &str {
    call.split_whitespace().next().unwrap_or("")
}

/// The first four numbers behind the name of a call; 0 where there are fewer.
pub fn numbers(call: &str) -> [u32; 4] {
    let mut numbers = [0u32; 4];
    let mut count = 0usize;
    for word in call.split_whitespace().skip(1) {
        if count < 4 {
            numbers[count] = word.parse::<u32>().unwrap_or(0);
            count += 1;
        }
    }
    numbers
}

/// The call of a row.
pub fn call_of(row: &str) -> &str {
    row.split_once(" = ").unwrap_or(("", "")).0
}

/// Adds what a row's call comes to, where that is something else than the row says.
pub fn add_other(others: &mut String, row: &str, found: &str) -> Mem<()> {
    let (call, wanted) = row.split_once(" = ").unwrap_or(("", ""));
    if found != wanted {
        others.push_str(call)?;
        others.push_str(" = ")?;
        others.push_str(found)?;
        others.push_str("\n")?;
    }
    Ok(())
}

/// Whether what each of two gives stands in its order: the one gives from 0 on, the other from 1000 on.
pub fn are_in_turn(numbers: &[u32]) -> bool {
    let mut next = [0u32, 1000];
    for number in numbers {
        let giver = usize::from(*number >= 1000);
        if *number != next[giver] {
            return false;
        }
        next[giver] = next[giver].wrapping_add(1);
    }
    true
}

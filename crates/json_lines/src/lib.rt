//! Lines of JSON (RFC 8259).
#![tactic(auto)]

mod members;

pub use members::{add_number, add_numbers, add_text, line_of, new_line};

//! Names and arguments of override tags.
#![tactic(auto)]

mod colours;
mod cut;
mod kinds;
mod laws;
mod names;
mod numbers;

pub use colours::{read_alpha_argument, read_colour_argument};
pub use cut::{bracketed, plain_argument, tag_len};
pub use kinds::{Num, Sung, TagName};
pub use laws::longest_counts;
pub use names::tag_name;
pub use numbers::{
    Numbers, bracketed_numbers, first_piece, number_list, read_front, read_number, read_unsigned,
};

//! What the texts of values say: numbers, sizes, places and rates.
#![tactic(auto)]

mod letters;
mod numbers;
mod places;
mod rates;
mod sizes;

pub use letters::letters_in;
pub use numbers::number_within;
pub use places::content_in;
pub use rates::rate_in;
pub use sizes::{aspect_in, size_in, storage_in};

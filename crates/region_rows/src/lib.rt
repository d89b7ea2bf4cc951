//! Regions row by row: runs that are joined, rows that are read, and a region that grows by its rows.
#![tactic(auto)]

mod growth;
mod laws;
mod rows;
mod runs;

pub use growth::{Growth, RowRange};
pub use laws::same_widened;
pub use rows::{end, row};
pub use runs::{add_run, join};

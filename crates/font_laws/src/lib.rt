//! The law that no byte outside a face's tables counts.
#![tactic(auto)]

mod laws;

pub use laws::bytes_behind_change_nothing;

//! What a play of feeders and renderers has to come to: its histories and its images, and laws of these. docs/PLAYS.md has the rules.
#![tactic(auto)]

pub mod laws;

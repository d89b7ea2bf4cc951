//! The whole program: plays, selftests, and what waits for nobody.
#![tactic(auto)]

mod help;
mod own_text;
mod playing;
mod reading;
mod run;
mod selftest;
mod word_runs;

pub use playing::play_headed;
pub use reading::play_inputs;
pub use run::top;
pub use selftest::do_selftest;
pub use word_runs::run_of_words;

//! Runs whose report is told as words ask for: in a form, to a file, line by line.
#![tactic(auto)]

mod asked;
mod changes;
mod check;
mod exit;
mod laws;
mod plays;
mod run;
mod selftests;
mod stills;
mod tale;
mod tell;
mod watch;
mod works;

pub use exit::exit_of_asked;
pub use laws::lines_are_report;
pub use run::run_asked;
pub use watch::{WatchedRun, watched};

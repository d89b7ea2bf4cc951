//! From the words to what both sinks get, of the jobs that wait for nobody.
#![tactic(auto)]

mod change_laws;
mod change_lines;
mod change_report;
mod changes;
mod check_lines;
mod outcome;
mod picture;
mod play;
mod report;
mod rewrite;
mod screen;
mod shown;
mod still_run;
mod task;
mod work;

pub use change_laws::same_draws_change_nothing;
pub use change_lines::{change_line, kind_number};
pub use change_report::changes_report;
pub use check_lines::check_report;
pub use outcome::Outcome;
pub use play::calm;
pub use report::{finish, give_up};
pub use run_status::{BadScript, Status, What, Which};
pub use screen::{Screen, ScreenChange, blank, find_change};
pub use shown::show;
pub use work::{Task, Work, work_in};

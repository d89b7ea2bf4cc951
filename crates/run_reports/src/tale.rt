//! What came of a run before anything is told of it.

use run_status::Ending;

/// What came of a run before anything is told of it.
#[derive(Debug, Drop)]
pub enum Tale {
    /// This is to be reported of a run that was done whole.
    Found(String),
    /// It ended so.
    Ends(Ending),
}

//! What came of a job before anything is reported.

use run_status::Status;

/// What came of a job before anything is reported.
#[derive(Debug, Drop)]
pub enum Outcome {
    /// It ended so.
    Ended(Status),
    /// This is to be reported.
    Found(String),
}

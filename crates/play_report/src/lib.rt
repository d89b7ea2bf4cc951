//! What a play and a selftest report.
#![tactic(auto)]

mod digest;
mod json_report;
mod json_summary;
mod report;
mod summary;

pub use digest::digest_after;
pub use json_report::report_json;
pub use json_summary::summary_json;
pub use report::{PlayReport, report_text};
pub use summary::summary_text;

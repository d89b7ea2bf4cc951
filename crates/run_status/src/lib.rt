//! How a run of the program ended: its exit status, and the line that says why.
#![tactic(auto)]

mod causes;
mod ending;
mod fields;
mod file_laws;
mod files;
mod font_fault;
mod inputs;
mod status;

pub use causes::script_status;
pub use ending::{Ending, memory_json};
pub use fields::field_name;
pub use file_laws::files_decide;
pub use font_fault::{FontFault, FontPlace};
pub use inputs::{Inputs, MAX_FONTS, read_inputs};
pub use status::{BadScript, Status, What, Which};

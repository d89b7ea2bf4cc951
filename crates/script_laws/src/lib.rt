//! The law that what a text spells is a script.
#![tactic(auto)]

mod generated_laws;
mod laws;

pub use generated_laws::generated_scripts_are_read;
pub use laws::texts_spell_scripts;

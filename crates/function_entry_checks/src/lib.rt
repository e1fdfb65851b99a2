//! The checks of an entry point besides its function: its stage (`stages.rt`), its task payload (`payloads.rt`), and its uses
//! of global variables (`variables.rt`, `bindings.rt`).
#![tactic(auto)]

mod bindings;
mod error;
mod payloads;
mod stages;
mod variables;

pub use error::EntryPointError;
pub use payloads::check_payload;
pub use stages::{check_stage, stage_set};
pub use variables::check_variables;

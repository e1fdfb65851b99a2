//! The checks of global variables by address space; the slots of immediate data, and which of them a value
//! overlaps.
#![tactic(auto)]

mod context;
mod error;
mod globals;
mod handles;
mod known;
pub mod laws;
mod leaves;
mod sizes;
pub mod slot_laws;
mod slots;
mod spaces;

pub use context::{Initializer, VariableContext};
pub use error::GlobalVariableError;
pub use globals::validate_variable;
pub use known::validate_global_var;
pub use slots::ImmediateSlots;

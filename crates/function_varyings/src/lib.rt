//! The check of the varyings of an entry point.
//!
//! `validate_arguments` and `validate_value` check all varyings of one direction: which they are and each by itself
//! (`function_varying_checks`), and all together (`validate.rt`). `KnownTypes` checks the members of a type once for all entry
//! points of a module.
#![tactic(auto)]

mod known;
pub mod laws;
mod marks;
mod shown;
mod validate;

pub use known::{KnownTypes, Shown};
pub use shown::{has_blend_sources, has_built_in};
pub use validate::{validate_arguments, validate_value};

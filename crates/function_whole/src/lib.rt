//! The check of a function and of an entry point, over any layer that infers the types of expressions, analyses functions and
//! has the `TypeInfo`s of types. For an entry point that is its stage (`function_entry_checks`), its function, its payload, and
//! its interface with other stages and with hosts (`function_entries`); and the names of earlier ones.
#![tactic(auto)]

mod answers;
mod body;
mod callees;
mod connect;
mod entry;
mod entry_names;
mod expressions;
mod forms;
mod globals;
mod parts;
mod uses;
mod validate;

pub use entry::{validate_entry_point, validate_entry_point_with};
pub use entry_names::SeenNames;
pub use function_entries;
pub use function_interface;
pub use globals::validate_global_var;
pub use validate::{Validated, validate_function, validate_function_with};

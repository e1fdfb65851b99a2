//! The check of the functions and the entry points of a module, over any layer; and all steps of a module ([`Validator`]), over the
//! layer of the type inference, the analysis and the expression checks of this repository ([`RealLower`]).
#![tactic(auto)]

mod entries;
mod functions;
pub mod laws;
mod real;
mod validator;
mod whole;

// Names of the crates beneath, for the crates above
pub use function_entry_checks::EntryPointError;
pub use function_errors;
pub use function_errors::module_steps::{InvalidGlobalVariable, ModuleError};
pub use function_errors::{
    InvalidEntryPoint, InvalidFunction, Named, ValidationError, module_steps,
};
pub use function_whole::function_interface::Lower;
pub use function_whole::{Validated, validate_entry_point, validate_function, validate_global_var};
pub use real::RealLower;
pub use validator::Validator;

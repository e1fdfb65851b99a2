//! The validation of functions, global variables and entry points, re-exported: what it requires of the layer below from
//! `function_interface` (`Lower`), that layer over the type inference and the checks of this repository from
//! `function_modules`, and a small second one from `function_tiny_lower`; the validator of functions, entry points and whole
//! modules from `function_modules` (`Validator`), with the errors of modules from `function_errors`; the attributes implied by
//! a mesh output from `function_entries`; and the errors of each.
//!
//! The `VaryingError` here is the full error. The one of the same name in `module_validator` is only the part that concerns
//! types.
//!
//! This crate defines nothing. To validate modules, depend on this crate, and on `shader_ir` for modules.
#![tactic(auto)]

pub mod laws;

pub use function_entries::{MeshAnalysis, MeshInfo};
pub use function_modules::{
    EntryPointError, InvalidEntryPoint, InvalidFunction, InvalidGlobalVariable, Lower, ModuleError,
    Named, RealLower, Validated, ValidationError, Validator, validate_entry_point,
    validate_function, validate_global_var,
};
pub use function_statement_checks::{BlockContext, descriptors_of, roots_of};
pub use function_statements::next_answers;
pub use function_tiny_lower::{TinyInfo, TinyLower};
pub use function_varying_checks::VaryingError;
pub use ir_flags::Settings;
pub use ir_places::Trail;
pub use module_globals::GlobalVariableError;
pub use typing_errors::{
    AtomicError, CallError, ExpressionError, FunctionError, LocalVariableError, SubgroupError,
};
pub use typing_infos::{FunctionInfo, ModuleInfo};

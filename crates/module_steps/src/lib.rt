//! The checks of a module up to its global variables: handles, types, global expressions, constants, overrides and
//! global variables, each as a separate step, with the errors of each. Also the `TypeInfo`s of the module's types: type flags
//! and layouts in uniform and storage buffers.
#![tactic(auto)]

mod error;
mod globals;
mod immediates;
mod info;
mod items;
mod listed_overrides;
mod steps;
mod storage;
mod uniform;
mod validate;
mod validator;
mod values;

pub use error::ModuleError;
pub use globals::{InvalidGlobalVariable, validate_globals};
pub use info::info_of;
pub use listed_overrides::{InvalidOverride, validate_overrides};
pub use module_constants::{InvalidConstant, InvalidGlobalExpression};
pub use module_globals::GlobalVariableError;
pub use steps::{check_handles, expression_types, lay_out, type_infos};
pub use storage::{Broken, storage_of_array, storage_of_struct};
pub use typing_infos::ModuleInfo;
pub use validate::{InvalidType, validate_type, validate_types};
pub use validator::ModuleValidator;
pub use values::check_values;

//! The validation of everything outside functions, re-exported: the check of handles and its errors from `module_handles`, the
//! validator of modules up to their overrides (`ModuleValidator`) from `module_steps`, the checks of literals from
//! `module_type_checks`, of `Compose`, constants and overrides from `module_constants`, and of immediate-data slots and
//! global variables from `module_globals`; the resulting info of a module from `typing_infos` and of its types from
//! `typing_layout`; and the errors of each.
//!
//! The `VaryingError` here is only the part that concerns types: invalid blend sources. The full error, for the varyings of
//! entry points, is the one of the same name in `function_validator`.
//!
//! It defines laws of contexts, and nothing else. To validate modules up to their overrides, depend on this crate, and on
//! `shader_ir` for modules.
#![tactic(auto)]

pub mod laws;

pub use ir_flags::Settings;
pub use module_constants::{
    ConstantError, GlobalContext, InvalidConstant, InvalidGlobalExpression, OverrideError,
    forms_given, validate_compose,
};
pub use module_context::CheckContext;
pub use module_globals::{GlobalVariableError, ImmediateSlots};
pub use module_handles::{FwdDepError, InvalidHandleError, validate_module_handles};
pub use module_steps::{
    InvalidGlobalVariable, InvalidOverride, InvalidType, ModuleError, ModuleValidator,
    validate_globals,
};
pub use module_type_checks::{TypeContext, check_literal_value};
pub use typing_errors::{ComposeError, ConstExpressionError, ExpressionError, ResolveError};
pub use typing_infos::{FunctionInfo, ModuleInfo};
pub use typing_layout::{
    Disalignment, ImmediateError, LayoutCompatibility, LayoutError, LayoutErrorInner, LiteralError,
    TypeError, TypeFlags, TypeInfo, TypeLayout, VaryingError, WidthError,
};

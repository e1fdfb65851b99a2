//! The checks of a module's global expressions, constants and overrides, after its types are checked and the types of its global
//! expressions are inferred. Overrides are checked in order, with the set of ids of the overrides before each.
//!
//! Also the check of `Compose` expressions by the types of their components, and the errors of global expressions, constants
//! and overrides with their handles.
#![tactic(auto)]

mod components;
mod compose;
mod constant_error;
mod constants;
mod context;
mod expressions;
mod given;
mod ids;
pub mod laws;
mod override_error;
mod overrides;

pub use components::Components;
pub use compose::{check_composition, validate_compose};
pub use constant_error::ConstantError;
pub use constants::{InvalidConstant, validate_constant, validate_constants};
pub use context::GlobalContext;
pub use expressions::{
    InvalidGlobalExpression, validate_const_expression, validate_const_expressions,
};
pub use given::forms_given;
pub use ids::OverrideIds;
pub use override_error::OverrideError;
pub use overrides::validate_override;

//! The context of the checks of expressions and of statements: the types of a function's expressions and their `TypeInner`
//! ([`CheckContext`]), shapes of values and images, the stages of called functions, and the error for a rule without a name.
#![tactic(auto)]

mod callees;
mod check_context;
mod refused;
mod shapes;

pub use callees::{CalleeStages, ListedStages};
pub use check_context::CheckContext;
pub use refused::refused_unless;
pub use shapes::{
    are_same, form_of_shape, image_type_of, is_floating, is_integer, is_integer_scalar, is_numeric,
    is_truth, pointee_of, sampler_of, shaped_of,
};

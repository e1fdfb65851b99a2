//! The rules of a whole body, in addition to the rule of each statement.
//!
//! Whether the operands of a function's statements are in scope, what they introduce is not in scope yet, and each call and each
//! atomic operation has a result of its own.
//!
//! Whether each break, continue and return is allowed where it occurs.
#![tactic(auto)]

mod allowed;
mod always;
mod answers;
mod bringing;
mod control;
mod control_function;
pub mod control_laws;
mod error;
pub mod laws;
mod list;
mod operands;
mod scope;
mod scope_function;
mod statement;

pub use control_function::check_control;
pub use list::ExpressionList;
pub use operands::{is_known, unknown_operand, unknown_place};
pub use scope_function::check_scope;

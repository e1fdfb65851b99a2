//! Requirement texts for invalid expressions and functions, from the error, the broken rule and the types of expressions.
#![tactic(auto)]

mod expressions;
mod functions;
mod kinds;
mod operations;
mod scene;
mod stores;

pub use expressions::{write_global_expression, write_width};
pub use functions::write_function;
pub use scene::Scene;

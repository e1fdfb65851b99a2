//! Lowers WGSL constructors and function calls, and dispatches all steps of expressions.
#![tactic(auto)]

mod calls;
mod constructors;
mod evaluated;
mod known;
mod math;
mod steps;

pub use calls::lower_call;
pub use steps::{lower_step, lower_steps};

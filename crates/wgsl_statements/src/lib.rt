//! Lowers WGSL statements to the IR.
#![tactic(auto)]

mod declarations;
mod effects;
mod flow;
mod loops;
mod steps;
mod switches;

pub use steps::lower_body;
pub use wgsl_functions;

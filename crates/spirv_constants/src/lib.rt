//! The constants of a SPIR-V module, in the IR, with those that operations compute.
#![tactic(auto)]

mod composites;
mod constants;
mod defaults;
mod known;
mod operations;
mod spec_ops;

pub use constants::{ConstantTable, Constants};
pub use known::{ExpressionHandle, Known, KnownConstants, Made, named};

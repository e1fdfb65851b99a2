//! Lowers WGSL expressions to the IR: names, types, operators, access and automatic conversions.
#![tactic(auto)]

mod constants;
mod conversions;
mod declared;
mod logical;
mod lowering;
mod names;
mod operators;
mod predeclared;
mod templates;
mod values;

pub use declared::{Declared, FunctionEntry};
pub use lowering::{Lowering, MAX_LEVEL, Skipped};
pub use values::{Operand, Value, handle_of, number_of};

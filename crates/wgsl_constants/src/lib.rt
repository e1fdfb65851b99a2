//! Constants of a WGSL module: vectors, matrices, arrays and structs of constant scalars, and the evaluation of operators
//! and built-in functions.
#![tactic(auto)]

mod lanes;
mod operations;
mod store;

pub use lanes::{Evaluated, Lanes};
pub use operations::{combine, every, functions, geometric, negate, select};
pub use store::{Known, Node, Store};

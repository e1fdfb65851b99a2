//! Computations of SPIR-V in the IR: functions of the extended set GLSL.std.450, conversions, selectors of switches, and the
//! structs that functions with two results return.
#![tactic(auto)]

mod extremes;
mod functions;
mod pairs;
mod selectors;
mod widths;

pub use extremes::trinary;
pub use functions::math;
pub use pairs::{Pair, pair_of};
pub use selectors::selector_of;
pub use widths::{cast, conversion, wide};

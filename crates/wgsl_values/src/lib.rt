//! Constant evaluation of scalars: conversions, operators and built-in functions.
#![tactic(auto)]

mod analytic;
mod convert;
mod elementary;
mod floats;
mod fold;
mod functions;
mod integers;
mod rounding;

pub use convert::{cast, concrete_scalar, converted, zero_of};
pub use fold::{Folded, fold_binary, fold_unary};
pub use functions::fold_math;
pub use rounding::{f32_of_f64, f64_of_integer};

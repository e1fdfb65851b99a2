// Operands: the values of expressions.

pub use wgsl_convert::{Operand, Value, handle_of, number_of};

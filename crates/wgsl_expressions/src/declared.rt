// The declarations of a module that are lowered so far.

pub use wgsl_convert::{Declared, FunctionEntry};

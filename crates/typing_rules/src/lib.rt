//! The rules of built-in math functions: their argument types, and their result types; sets of scalars and of constructors,
//! each a bit set; and the one bits of an integer.
#![tactic(auto)]

mod constructor_set;
pub mod laws;
mod one_bits;
mod patterns;
mod rules;
mod scalar_set;
pub mod set_laws;

pub use constructor_set::ConstructorSet;
pub use one_bits::{Members, OneBitsIter};
pub use patterns::Pattern;
pub use rules::{Arguments, Conclusion, ConstructorSize, Rule, ValueType};
pub use scalar_set::ScalarSet;

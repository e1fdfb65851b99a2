//! Overload sets: the rules of a built-in function that remain after some arguments are supplied.
#![tactic(auto)]

mod any;
mod functions;
mod list;
mod math_table;
mod overload_set;
mod product;
mod regular;
mod required;
mod rule_lists;

pub use any::AnyOverloadSet;
pub use functions::MathFunctionExt;
pub use list::List;
pub use overload_set::OverloadSet;
pub use regular::Regular;
pub use typing_rules::{
    Arguments, Conclusion, ConstructorSet, ConstructorSize, Members, OneBitsIter, Rule, ScalarSet,
    ValueType,
};

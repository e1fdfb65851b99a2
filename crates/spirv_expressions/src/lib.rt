//! Expressions of SPIR-V in the IR, by families, generic over the function under construction.
#![tactic(auto)]

mod builder;
mod composites;
mod operators;
mod words;

pub use builder::{
    Builder, Emits, ImageValue, Value, as_kind, binary, call, component_count, compose,
    compose_pair, compose_result, convert, keep, need, no_type, no_value, operand, operand_scalar,
    operand_shape, part_of, refuse, result_scalar, scalar_of, select, signed, splat,
};
pub use composites::{
    composite, matrices_of, packed_line, parts_from, plain_array, plain_line, plain_matrix,
    relaid_matrix,
};
pub use operators::{arithmetic, resized};
pub use words::Words;

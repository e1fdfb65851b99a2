//! The types of a WGSL module and their lowering to the IR.
#![tactic(auto)]

mod builder;
mod layout;
mod operators;
mod shapes;
mod table;

pub use builder::{
    Builder, ExpressionHandle, RayStruct, TypeHandle, no_expression, no_type, span_of,
};
pub use layout::{Layout, side_of};
pub use operators::{common, is_comparison, is_shift, result_of, splats};
pub use shapes::{Shape, vector_size};
pub use table::{Row, RowKind, TypeMember, TypeTable};

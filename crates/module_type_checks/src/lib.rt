//! The checks of types of any kind, given the `TypeInfo`s of the types they reference: valid scalars of types and literals,
//! struct members and their offsets, the validity of a type, and its type flags.
#![tactic(auto)]

mod blends;
mod check;
mod context;
mod facts;
mod flags;
mod images;
mod members;
mod references;
mod widths;

pub use blends::has_source;
pub use check::check_type;
pub use context::TypeContext;
pub use facts::{Facts, at_least_sixteen, facts_of, type_at};
pub use flags::{flags_of_array, flags_of_struct, whole_flags};
pub use members::{Placed, check_members, member_at, member_before};
pub use widths::{
    check_atomic, check_cooperative, check_literal_value, check_matrix, check_scalar, check_width,
    validate_literal,
};

//! Type resolutions of expressions, the canonical form by which types are compared, properties and sizes of types,
//! and equivalence of types.
#![tactic(auto)]

mod compare;
mod constructible;
mod conversions;
mod elements;
mod form;
mod index;
pub mod laws;
mod order;
mod ranks;
mod resolution;
pub mod rule_laws;
mod scalars;
mod sizes;
mod type_methods;

pub use compare::compare_types;
pub use form::{Form, form_in, form_of, form_of_type, inner_of};
pub use index::{IndexableLength, IndexableLengthError, ResolveArraySizeError};
pub use ir_sets::unique_arena::UniqueArena;
pub use ir_types;
pub use ir_types::ir_arena;
pub use order::types_go_back;
pub use ranks::{conversion_rank, converted_rank};
pub use resolution::TypeResolution;
pub use scalars::{ScalarExt, ScalarKindExt};
pub use sizes::MAX_TYPE_SIZE;
pub use type_methods::TypeInnerExt;

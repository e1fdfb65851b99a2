//! The requirements of expressions beyond their types: one module for each family, named as its definitions in
//! `spec_statements`. Images are in `module_expressions`. Math functions and subgroup results have no
//! requirements.
#![tactic(auto)]

mod access;
mod compose;
mod conversions;
mod cooperative_matrices;
mod derivatives;
mod exchanges;
mod literals;
mod loads;
mod operators;
mod ray_queries;
mod results;
mod selections;
mod shapes;
mod swizzles;

pub use access::{check_access, check_access_index};
pub use compose::check_compose;
pub use conversions::check_as;
pub use cooperative_matrices::{check_cooperative_load, check_multiply_add};
pub use derivatives::check_derivative;
pub use exchanges::exchanged_value;
pub use literals::{check_literal, check_zero};
pub use loads::{check_array_length, check_load};
pub use operators::{check_binary, check_unary};
pub use ray_queries::{check_intersection, check_vertex_positions, query_of};
pub use results::{check_atomic_result, check_uniform_load};
pub use selections::{check_relational, check_select};
pub use shapes::{is_alone, is_of_value};
pub use swizzles::check_swizzle;

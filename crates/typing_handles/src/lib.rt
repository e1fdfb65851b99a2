//! Whether the handles of a function are valid: what the analysis of a function requires. The tests allocate nothing.
//!
//! [`handles_in_range`], [`operands_precede`], [`callees_precede`], [`filter_parents_precede`], [`arities_match`]; and
//! [`arity_fault`], which reports the first call for which `arities_match` fails.
//!
//! What a module with valid handles guarantees to layout, typing and the analysis of functions
//! ([`laws`]): types refer to earlier types, filters come after their parents, and operands and callees precede.
#![tactic(auto)]

mod arities;
mod callees;
mod filters;
pub mod laws;
pub mod operand_laws;
mod precede;
mod range;

pub use arities::{ArityFault, arities_match, arity_fault};
pub use callees::callees_precede;
pub use filters::filter_parents_precede;
pub use precede::operands_precede;
pub use range::handles_in_range;

//! The types of expressions, computed from the types of their operands. The definitions are those of `spec_expressions`, and
//! each family of expressions has a module of the same name as its definitions there.
#![tactic(auto)]

mod access;
mod compositions;
mod context;
mod conversions;
mod cooperative_matrices;
mod image_loads;
mod image_samples;
mod literals;
mod loads;
mod maths;
mod operators;
mod ray_queries;
mod results;
mod selections;
mod subgroups;
mod typing;

pub use context::ResolveContext;

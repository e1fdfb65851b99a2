//! Facts about the expressions of a function, computed before its statements are walked: sources of non-uniformity, the
//! global variables at the roots of their access chains, and their uniformity requirements.
//!
//! Uniformity faults of functions: operations that require uniform control flow, in non-uniform control flow.
#![tactic(auto)]

mod body_fault;
mod facts;
mod first_requiring;
mod found;
mod function_fault;
mod requirements;
mod requiring;
mod severity;
mod sources;
mod uniformities;
mod walk;

pub use body_fault::{NonUniform, find_fault};
pub use facts::{Facts, facts_of};
pub use function_fault::{uniformity_fault, uniformity_fault_by};
pub use severity::{derivative_severity, derivative_severity_by, severities_of};

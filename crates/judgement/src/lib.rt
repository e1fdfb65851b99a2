//! The validation of a document, as definitions: the requirements on a module up to its overrides, step by step, and the first
//! failing step (`specs/judged/ModuleSteps.antt`); all steps (`specs/judged/Steps.antt`); the report of a valid module, with its
//! buffers and its entry points' resources, as lines (`specs/judged/Lines.antt`, `Reports.antt`); and the result for a document,
//! with its text (`specs/judged/Text.antt`). The contents of a buffer (`specs/judged/Leaves.antt`): the leaves of its type, which
//! are the scalars, vectors, matrices and atomics inside a value, each with its path and byte range; leaves are
//! aligned, disjoint and in bounds ([`buffer_laws`]).
//!
//! The functions do nothing: their contracts are the laws.
#![tactic(auto)]

pub mod buffer_laws;
pub mod buffer_worked;
mod finding;
pub mod module_laws;
pub mod report_laws;
pub mod report_worked;

pub use finding::{Finding, Step};

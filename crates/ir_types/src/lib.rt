//! The types and the expressions of the IR, and the tags of the arenas that handles index.
//!
//! Also errors with labelled spans, and the error type of validating calls. The names are those of naga's
//! `span`; [`refusal::Refusal`] is this project's own.
#![tactic(auto)]

mod contexts;
mod copies;
pub mod expression_laws;
mod expressions;
pub mod key;
pub mod laws;
mod literals;
pub mod refusal;
mod types;
pub mod with_span;

pub use expressions::{CooperativeData, Expression, ImageQuery, SampleLevel};
pub use ir_arena;
pub use ir_kinds;
pub use literals::LiteralExt;
pub use types::{ArraySize, IrType, StructMember, TypeInner, clone_name};

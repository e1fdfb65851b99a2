//! Arenas of values that are referenced by handles, from which a shader module is built.
//!
//! A [`handle::Handle`] is the index of a value in its arena, and an [`arena::Arena`] takes every value
//! that is appended. Each value has the [`span::Span`] of its source text. The
//! modules and names are those of naga's `arena` and `span`.
//!
//! In a contract a handle is a number, and an arena is the list of its values with their spans.
#![tactic(auto)]

pub mod arena;
pub mod copied;
pub mod drain;
pub mod handle;
pub mod iter;
pub mod iter_mut;
pub mod laws;
pub mod range;
pub mod span;
pub mod spanned;

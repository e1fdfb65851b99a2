//! Typing errors of a list of expressions.

use ir_arena::handle::Handle;
use ir_types::key;
use std::alloc::AllocError;
use typing_errors::ResolveError;

/// Why not all expressions of a list have a type.
#[derive(Debug, Drop)]
pub enum TypingRefusal {
    /// Out of memory.
    Memory(AllocError),
    /// An expression has no type, and each earlier one has one.
    Fault {
        /// The expression.
        expression: Handle<key::Expression>,
        /// The error.
        error: ResolveError,
    },
}

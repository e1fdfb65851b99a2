//! Causes of non-uniform control flow.

use ir_arena::handle::Handle;
use ir_types::key;
use thiserror::Error;

/// A cause of non-uniform control flow (naga's `UniformityDisruptor`).
#[derive(Clone, Copy, PartialEq, Debug, Error)]
pub enum UniformityDisruptor {
    /// A branch on a value that comes from this non-uniform expression.
    #[error("a branch on the non-uniform expression {0:?}")]
    Expression(Handle<key::Expression>),
    /// A return in non-uniform control flow.
    #[error("a return in non-uniform control flow")]
    Return,
    /// A discard in non-uniform control flow.
    #[error("a discard in non-uniform control flow")]
    Discard,
}

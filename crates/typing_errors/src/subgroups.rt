//! Subgroup errors.

use ir_arena::handle::Handle;
use ir_flags::SubgroupOperationSet;
use ir_types::key;
use thiserror::Error;

/// An error of a subgroup operation (naga's `SubgroupError`).
#[derive(Clone, Copy, PartialEq, Debug, Error)]
pub enum SubgroupError {
    /// The operand has a wrong type.
    #[error("operand {0:?} has the wrong type")]
    InvalidOperand(Handle<key::Expression>),
    /// The result has a wrong type.
    #[error("result expression {0:?} has another type than the statement's result")]
    ResultTypeMismatch(Handle<key::Expression>),
    /// The validator does not allow the operation.
    #[error("subgroup operation {0:?} is not supported")]
    UnsupportedOperation(SubgroupOperationSet),
    /// Unknown subgroup operation.
    #[error("unknown subgroup operation")]
    UnknownOperation,
    /// The invocation index is not constant.
    #[error("the invocation index {0:?} must be a const-expression")]
    InvalidInvocationIdExprType(Handle<key::Expression>),
}

//! Call errors.

use crate::ExpressionError;
use ir_arena::handle::Handle;
use ir_types::key;
use thiserror::Error;

/// An error of a call (naga's `CallError`).
#[derive(Clone, PartialEq, Debug, Drop, Error)]
pub enum CallError {
    /// An argument expression is invalid.
    #[error("argument {index} is invalid: {source}")]
    Argument {
        /// The argument, counted from 0.
        index: usize,
        /// The error.
        source: ExpressionError,
    },
    /// The result expression is in scope already.
    #[error("result expression {0:?} is already in scope")]
    ResultAlreadyInScope(Handle<key::Expression>),
    /// Another call already uses this result expression.
    #[error("result expression {0:?} is already the result of another call")]
    ResultAlreadyPopulated(Handle<key::Expression>),
    /// Wrong number of arguments.
    #[error("the function requires {required} arguments, but {seen} are provided")]
    ArgumentCount {
        /// The number of parameters.
        required: usize,
        /// The number of arguments.
        seen: usize,
    },
    /// An argument has a wrong type.
    #[error("argument {index} value {seen_expression:?} does not have the type {required:?}")]
    ArgumentType {
        /// The argument, counted from 0.
        index: usize,
        /// The parameter's type.
        required: Handle<key::IrType>,
        /// The argument expression.
        seen_expression: Handle<key::Expression>,
    },
    /// The result is no `CallResult` of the function, or is present exactly where there should be none.
    #[error("result expression {0:?} does not match the call")]
    ExpressionMismatch(Option<Handle<key::Expression>>),
}

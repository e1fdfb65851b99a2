//! Global expression errors.

use crate::ResolveError;
use crate::compose::ComposeError;
use spec_expressions::LiteralError;
use thiserror::Error;

/// An error of a global expression (naga's `ConstExpressionError`).
#[derive(Clone, PartialEq, Debug, Drop, Error)]
pub enum ConstExpressionError {
    /// The expression is neither const nor override.
    #[error("the expression is not a const-expression or an override-expression")]
    NonConstOrOverride,
    /// The expression is const, and was not evaluated.
    #[error("the constant is not fully evaluated")]
    NonFullyEvaluatedConst,
    /// Wraps a `ComposeError`.
    #[error("the composition is invalid: {0}")]
    Compose(ComposeError),
    /// Wraps a `LiteralError`.
    #[error("the literal is invalid: {0}")]
    Literal(LiteralError),
    /// It has no type (naga's `Type`).
    #[error("the type cannot be resolved: {0}")]
    Typing(ResolveError),
    /// Any other error.
    #[error("the expression is invalid")]
    Other,
}

//! The errors of constants.

use thiserror::Error;

/// The error of an invalid constant (naga's `ConstantError`).
#[derive(Clone, Copy, PartialEq, Debug, Error)]
pub enum ConstantError {
    /// Its initializer is not a const-expression.
    #[error("the initializer must be a const-expression")]
    InitializerExprType,
    /// Its initializer has a type other than the constant's.
    #[error("the initializer has another type than the constant")]
    InvalidType,
    /// Its type is not constructible.
    #[error("the type is not constructible")]
    NonConstructibleType,
}

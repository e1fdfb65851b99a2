//! The errors of overrides.

use thiserror::Error;

/// The error of an invalid override (naga's `OverrideError`).
#[derive(Clone, Copy, PartialEq, Debug, Error)]
pub enum OverrideError {
    /// It has neither a name nor an id, so no pipeline can give it a value.
    #[error("the override must have a name or an id")]
    MissingNameAndID,
    /// An earlier override has the same id.
    #[error("an earlier override has the same id")]
    DuplicateID,
    /// Its initializer is a runtime expression.
    #[error("the initializer must be a const-expression or an override-expression")]
    InitializerExprType,
    /// Its initializer has a type other than the override's.
    #[error("the initializer has another type than the override")]
    InvalidType,
    /// Its type is not constructible.
    #[error("the type is not constructible")]
    NonConstructibleType,
    /// Its type is not a scalar that a pipeline can set.
    #[error("the type of an override must be a scalar")]
    TypeNotScalar,
    /// Overrides are resolved, and it has no initializer.
    #[error("the override has no value")]
    UninitializedOverride,
}

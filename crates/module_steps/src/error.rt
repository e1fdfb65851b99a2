//! The errors of the check of a module up to its global variables.

use crate::{InvalidOverride, InvalidType};
use module_constants::{InvalidConstant, InvalidGlobalExpression};
use module_handles::InvalidHandleError;
use thiserror::Error;
use typing_layout::LayoutError;

/// The error of an invalid module (the variants of naga's `ValidationError` up to overrides, with their handles).
#[derive(Clone, PartialEq, Debug, Drop, Error)]
pub enum ModuleError {
    /// A handle is out of bounds or a forward dependency.
    #[error("{0}")]
    InvalidHandle(InvalidHandleError),
    /// A type has no layout.
    #[error("{0}")]
    Layouter(LayoutError),
    /// A type is invalid (naga's `ValidationError::Type`).
    #[error("{0}")]
    Typing(InvalidType),
    /// A global expression is invalid, or its type can't be inferred.
    #[error("{0}")]
    ConstExpression(InvalidGlobalExpression),
    /// A constant is invalid.
    #[error("{0}")]
    Constant(InvalidConstant),
    /// An override is invalid.
    #[error("{0}")]
    Override(InvalidOverride),
}

//! Expression errors.

use crate::ResolveError;
use crate::compose::ComposeError;
use ir_arena::handle::Handle;
use ir_flags::StorageAccess;
use ir_kinds::{ImageClass, ImageDimension, StorageFormat};
use ir_types::key;
use spec_expressions::LiteralError;
use thiserror::Error;

/// An error of an expression of a function (naga's `ExpressionError`).
#[derive(Clone, PartialEq, Debug, Drop, Error)]
pub enum ExpressionError {
    /// A statement uses the expression where it is not in scope.
    #[error("the expression is used before it is in scope")]
    NotInScope,
    /// It has no type (naga's `Type`).
    #[error("the type cannot be resolved: {0}")]
    Typing(ResolveError),
    /// Wraps a `LiteralError`.
    #[error("the literal is invalid: {0}")]
    Literal(LiteralError),
    /// Wraps a `ComposeError`.
    #[error("the composition is invalid: {0}")]
    Compose(ComposeError),
    /// The image or sampler is neither a global variable, nor an argument, nor an element of a global binding array.
    #[error("the image or sampler must be a global variable or a function argument")]
    ExpectedGlobalOrArgument,
    /// The image is neither a global variable nor an element of one.
    #[error("the image must be a global variable")]
    ExpectedGlobalVariable,
    /// The base of the access is no binding array.
    #[error("type {0:?} is not a binding array")]
    ExpectedBindingArrayType(Handle<key::IrType>),
    /// The stored-to expression is no image.
    #[error("type {0:?} is not an image")]
    ExpectedImageType(Handle<key::IrType>),
    /// The image class can't be stored to.
    #[error("image class {0:?} does not support the operation")]
    InvalidImageClass(ImageClass),
    /// The image's format doesn't allow the operation.
    #[error("image format {0:?} does not support the operation")]
    InvalidImageFormat(StorageFormat),
    /// The image's access flags don't allow the operation.
    #[error("storage access {0:?} does not support the operation")]
    InvalidImageStorageAccess(StorageAccess),
    /// An array index is given and the image is not arrayed, or the other way round.
    #[error("an array index must be present exactly when the image is arrayed")]
    InvalidImageArrayIndex,
    /// The array index is no integer scalar.
    #[error("array index {0:?} must be an integer scalar")]
    InvalidImageArrayIndexType(Handle<key::Expression>),
    /// The coordinate type does not match the image.
    #[error("coordinate {1:?} does not have the type that image dimension {0:?} requires")]
    InvalidImageCoordinateType(ImageDimension, Handle<key::Expression>),
    /// Any other error.
    #[error("the expression is invalid")]
    Other,
}

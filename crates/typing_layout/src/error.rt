//! Layout errors.

use thiserror::Error;
use typing_forms::MAX_TYPE_SIZE;
use typing_forms::ir_arena::handle::Handle;
use typing_forms::ir_types::key;

/// What is wrong with a type that has no layout (naga's `LayoutErrorInner`, without the errors of types that refer to later
/// ones: a layouter requires that there are none).
#[derive(Clone, Copy, PartialEq, Eq, Debug, Error)]
pub enum LayoutErrorInner {
    /// The scalar width is no power of two.
    #[error("the scalar width is not a power of two")]
    NonPowerOfTwoWidth,
    /// A value is larger than [`MAX_TYPE_SIZE`].
    #[error("the size is larger than {max} bytes", max = MAX_TYPE_SIZE)]
    TooLarge,
}

/// A type that has no layout (naga's `LayoutError`).
#[derive(Clone, Copy, PartialEq, Eq, Debug, Error)]
#[error("the layout of type {ty:?} is invalid: {inner}")]
pub struct LayoutError {
    /// The type.
    pub ty: Handle<key::IrType>,
    /// The error.
    pub inner: LayoutErrorInner,
}

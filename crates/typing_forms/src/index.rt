//! Lengths of indexable types.

ghost use Rattle.std.specs.Prelude.{◌≡◌};
ghost use Rattle.ir_types.specs.judged.Plain.{inner_view};
ghost use Rattle.typing_forms.specs.judged.Resolutions.{types_view};
ghost use Rattle.typing_forms.specs.found.Lengths.{array_length, elements_of, length_of};

use crate::inner_of;
use ir_sets::unique_arena::UniqueArena;
use ir_types::{ArraySize, IrType, TypeInner, key};
use thiserror::Error;

/// The number of elements of an indexable type (naga's `IndexableLength`).
#[derive(Clone, Copy, PartialEq, Eq, Debug)]
pub enum IndexableLength {
    /// Always this many.
    Known(u32),
    /// Known at run time only: a runtime-sized array.
    Dynamic,
}

/// Why the length of an array isn't known (naga's `ResolveArraySizeError`). It is for code that substitutes overrides;
/// no function of this crate returns it.
#[derive(Clone, Copy, PartialEq, Eq, Debug, Error)]
pub enum ResolveArraySizeError {
    /// The value is not a positive integer.
    #[error("an array length must be positive")]
    ExpectedPositiveArrayLength,
    /// The override has no known value.
    #[error("the array length is an override without a value")]
    NonConstArrayLength,
}

/// Why a type has no indexable length (naga's `IndexableLengthError`).
#[derive(Clone, Copy, PartialEq, Eq, Debug, Error)]
pub enum IndexableLengthError {
    /// The type can't be indexed.
    #[error("the type is not indexable")]
    TypeNotIndexable,
    /// The override's value gives no length.
    #[error(transparent)]
    ResolveArraySizeError(ResolveArraySizeError),
    /// The length depends on an override.
    #[error("the array length is an override that is not resolved yet")]
    Pending(ArraySize),
}

// The length of an array of this size.
fn array_length(size: ArraySize) -> Result<IndexableLength, IndexableLengthError>
    ensures { result ≡ array_length size }
{
    match size {
        ArraySize::Constant(count) => Ok(IndexableLength::Known(count)),
        ArraySize::Pending(_) => Err(IndexableLengthError::Pending(size)),
        ArraySize::Dynamic => Ok(IndexableLength::Dynamic),
    }
}

// The length of a type that has elements itself.
fn elements_of(inner: &TypeInner) -> Result<IndexableLength, IndexableLengthError>
    ensures { result ≡ elements_of (inner_view inner.now) }
{
    match *inner {
        TypeInner::Vector { size, .. } => Ok(IndexableLength::Known(u32::from(size))),
        TypeInner::Matrix { columns, .. } => Ok(IndexableLength::Known(u32::from(columns))),
        TypeInner::Array { size, .. } | TypeInner::BindingArray { size, .. } => array_length(size),
        _ => Err(IndexableLengthError::TypeNotIndexable),
    }
}

// The length of an indexable type, or of what a pointer points to.
pub(crate) fn length_of(
    types: &UniqueArena<IrType, key::IrType>,
    inner: &TypeInner,
) -> Result<IndexableLength, IndexableLengthError>
    ensures { result ≡ length_of (types_view types.now) (inner_view inner.now) }
{
    match *inner {
        TypeInner::ValuePointer {
            size: Some(size),
            ..
        } => Ok(IndexableLength::Known(u32::from(size))),
        TypeInner::Pointer { base, .. } => match inner_of(types, base) {
            Some(pointee) => elements_of(pointee),
            None => Err(IndexableLengthError::TypeNotIndexable),
        },
        _ => elements_of(inner),
    }
}

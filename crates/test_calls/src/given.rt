// Types and scalars as a line of the input gives them.
ghost use Rattle.std.specs.Prelude.{IsTrue};
ghost use Rattle.ir_types.specs.judged.Plain.{inner_view};
ghost use Rattle.typing_forms.specs.judged.Forms.{NoStructValue};
ghost use Rattle.typing_forms.specs.judged.Resolutions.{resolution_view};
ghost use Rattle.typing_forms.specs.found.Canonical.{NotBothStructs};

use document_items::TypeForm;
use document_words::find_word;
use ir_kinds::Scalar;
use ir_sets::unique_arena::UniqueArena;
use ir_types::{IrType, TypeInner, key};
use serde_json::Value;
use std::alloc::{AllocError, Global};
use test_support::call::{found, handle, text};
use typing_forms::TypeResolution;

pub type Types = UniqueArena<IrType, key::IrType>;

/// The inner type at an index, or `None`.
pub fn inner(alloc: Global, call: &Value, place: usize) -> Result<Option<TypeInner>, AllocError> {
    let Some(value) = call.get(place) else {
        return Ok(None);
    };
    match found::<TypeForm>(alloc, value)? {
        Some(ty) => Ok(Some(ty.inner)),
        None => Ok(None),
    }
}

/// A type by its handle, if a number is at the index, or by its inner type.
pub fn resolution(
    alloc: Global,
    call: &Value,
    place: usize,
) -> Result<Option<TypeResolution>, AllocError> {
    match call.get(place) {
        Some(value) if value.is_u64() => Ok(Some(TypeResolution::Handle(handle(call, place)))),
        _ => match inner(alloc, call, place)? {
            Some(inner) => Ok(Some(TypeResolution::Value(inner))),
            None => Ok(None),
        },
    }
}

/// The scalar at an index, by its word.
pub fn scalar(call: &Value, place: usize) -> Scalar {
    find_word(text(call, place)).unwrap_or(Scalar::ABSTRACT_FLOAT)
}

/// Whether a type is not a struct given by value.
pub fn is_no_struct(resolution: &TypeResolution) -> bool
    ensures { IsTrue result → NoStructValue (resolution_view resolution.now) }
{
    match resolution {
        TypeResolution::Handle(_) => true,
        TypeResolution::Value(inner) => !matches!(inner, TypeInner::Struct { .. }),
    }
}

/// Whether one of two types is not a struct.
pub fn are_not_structs(left: &TypeInner, right: &TypeInner) -> bool
    ensures { IsTrue result → NotBothStructs (inner_view left.now) (inner_view right.now) }
{
    !matches!(left, TypeInner::Struct { .. }) || !matches!(right, TypeInner::Struct { .. })
}

//! The value types.

ghost use Rattle.std.specs.Prelude.{◌≡◌};
ghost use Rattle.function_tiny_lower.specs.Values.{resolution_of, scalar_of, type_of_form, type_of_inner, type_of_scalar};
ghost use Rattle.ir_types.specs.judged.Plain.{inner_view};

use ir_kinds::{Scalar, ScalarKind};
use ir_types::TypeInner;
use typing_forms::{Form, TypeResolution};

/// A value type.
#[derive(Clone, Copy)]
pub(crate) enum ValueType {
    /// `u32`.
    U32,
    /// `bool`.
    Bool,
    /// `f32`.
    F32,
}

// The value type of a scalar.
fn type_of_scalar(scalar: Scalar) -> Option<ValueType>
    ensures { result ≡ type_of_scalar scalar }
{
    match scalar.kind {
        ScalarKind::Uint => if scalar.width == 4 {
            Some(ValueType::U32)
        } else {
            None
        },
        ScalarKind::Bool => if scalar.width == 1 {
            Some(ValueType::Bool)
        } else {
            None
        },
        ScalarKind::Float => if scalar.width == 4 {
            Some(ValueType::F32)
        } else {
            None
        },
        ScalarKind::Sint | ScalarKind::AbstractInt | ScalarKind::AbstractFloat => None,
    }
}

/// The value type of an inner type.
pub(crate) fn type_of_inner(inner: &TypeInner) -> Option<ValueType>
    ensures { result ≡ type_of_inner (inner_view inner.now) }
{
    match *inner {
        TypeInner::Scalar(scalar) => type_of_scalar(scalar),
        TypeInner::Vector { .. }
        | TypeInner::Matrix { .. }
        | TypeInner::CooperativeMatrix { .. }
        | TypeInner::Atomic(_)
        | TypeInner::Pointer { .. }
        | TypeInner::ValuePointer { .. }
        | TypeInner::Array { .. }
        | TypeInner::Struct { .. }
        | TypeInner::Image { .. }
        | TypeInner::Sampler { .. }
        | TypeInner::AccelerationStructure { .. }
        | TypeInner::RayQuery { .. }
        | TypeInner::BindingArray { .. } => None,
    }
}

/// The value type of a form.
pub(crate) fn type_of_form(form: &Form) -> Option<ValueType>
    ensures { result ≡ type_of_form form.now }
{
    match *form {
        Form::Scalar(scalar) => type_of_scalar(scalar),
        Form::Vector { .. }
        | Form::Matrix { .. }
        | Form::CooperativeMatrix { .. }
        | Form::Atomic(_)
        | Form::Pointer { .. }
        | Form::ValuePointer { .. }
        | Form::Array { .. }
        | Form::Struct(_)
        | Form::Image { .. }
        | Form::Sampler { .. }
        | Form::AccelerationStructure { .. }
        | Form::RayQuery { .. }
        | Form::BindingArray { .. }
        | Form::Nothing => None,
    }
}

// Its scalar.
fn scalar_of(ty: ValueType) -> Scalar
    ensures { result ≡ scalar_of ty }
{
    match ty {
        ValueType::U32 => Scalar {
            kind: ScalarKind::Uint,
            width: 4,
        },
        ValueType::Bool => Scalar {
            kind: ScalarKind::Bool,
            width: 1,
        },
        ValueType::F32 => Scalar {
            kind: ScalarKind::Float,
            width: 4,
        },
    }
}

/// Its `TypeResolution`.
pub(crate) fn resolution_of(ty: ValueType) -> TypeResolution
    ensures { result ≡ resolution_of ty }
{
    TypeResolution::Value(TypeInner::Scalar(scalar_of(ty)))
}

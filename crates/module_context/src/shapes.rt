//! Tests and parts of types.

ghost use Rattle.std.specs.Prelude.{◌≡◌, ◌↔◌, IsTrue};
ghost use Rattle.spec_statements.specs.judged.Shapes.{IsInteger, IsFloating, IsBool, IsNumeric, IsIntegerScalar, shaped_of, form_of_shape, image_type_of, sampler_of};
ghost use Rattle.spec_statements.specs.found.Pointers.{pointee_of};

use ir_arena::handle::Handle;
use ir_kinds::{Scalar, ScalarKind};
use ir_types::key;
use spec_statements::{ImageType, Shape, Shaped};
use typing_forms::Form;

/// Whether a scalar kind is an integer kind.
pub const fn is_integer(kind: ScalarKind) -> bool
    ensures { IsTrue result ↔ IsInteger kind }
{
    match kind {
        ScalarKind::Sint | ScalarKind::Uint => true,
        ScalarKind::Float
        | ScalarKind::Bool
        | ScalarKind::AbstractInt
        | ScalarKind::AbstractFloat => false,
    }
}

/// Whether a scalar kind is `Float`.
pub const fn is_floating(kind: ScalarKind) -> bool
    ensures { IsTrue result ↔ IsFloating kind }
{
    match kind {
        ScalarKind::Float => true,
        ScalarKind::Sint
        | ScalarKind::Uint
        | ScalarKind::Bool
        | ScalarKind::AbstractInt
        | ScalarKind::AbstractFloat => false,
    }
}

/// Whether the scalar kind is `Bool`.
pub const fn is_truth(kind: ScalarKind) -> bool
    ensures { IsTrue result ↔ IsBool kind }
{
    match kind {
        ScalarKind::Bool => true,
        ScalarKind::Sint
        | ScalarKind::Uint
        | ScalarKind::Float
        | ScalarKind::AbstractInt
        | ScalarKind::AbstractFloat => false,
    }
}

/// Whether a scalar kind is numeric.
pub const fn is_numeric(kind: ScalarKind) -> bool
    ensures { IsTrue result ↔ IsNumeric kind }
{
    match kind {
        ScalarKind::Bool => false,
        ScalarKind::Sint
        | ScalarKind::Uint
        | ScalarKind::Float
        | ScalarKind::AbstractInt
        | ScalarKind::AbstractFloat => true,
    }
}

/// The shape and the scalar of a scalar, vector or matrix type.
pub const fn shaped_of(of: Form) -> Option<Shaped>
    ensures { result ≡ shaped_of of }
{
    match of {
        Form::Scalar(scalar) => Some(Shaped {
            shape: Shape::Scalar,
            scalar,
        }),
        Form::Vector { size, scalar } => Some(Shaped {
            shape: Shape::Vector(size),
            scalar,
        }),
        Form::Matrix {
            columns,
            rows,
            scalar,
        } => Some(Shaped {
            shape: Shape::Matrix { columns, rows },
            scalar,
        }),
        Form::CooperativeMatrix {
            columns,
            rows,
            scalar,
            role,
        } => Some(Shaped {
            shape: Shape::CooperativeMatrix {
                columns,
                rows,
                role,
            },
            scalar,
        }),
        Form::Atomic(_)
        | Form::Pointer { .. }
        | Form::ValuePointer { .. }
        | Form::Array { .. }
        | Form::Struct(_)
        | Form::Image { .. }
        | Form::Sampler { .. }
        | Form::AccelerationStructure { .. }
        | Form::RayQuery { .. }
        | Form::BindingArray { .. }
        | Form::Nothing => None,
    }
}

/// The type of a shape and a scalar.
pub const fn form_of_shape(shape: Shape, scalar: Scalar) -> Form
    ensures { result ≡ form_of_shape shape scalar }
{
    match shape {
        Shape::Scalar => Form::Scalar(scalar),
        Shape::Vector(size) => Form::Vector { size, scalar },
        Shape::Matrix { columns, rows } => Form::Matrix {
            columns,
            rows,
            scalar,
        },
        Shape::CooperativeMatrix {
            columns,
            rows,
            role,
        } => Form::CooperativeMatrix {
            columns,
            rows,
            scalar,
            role,
        },
    }
}

/// The image, if a type is one.
pub const fn image_type_of(of: Form) -> Option<ImageType>
    ensures { result ≡ image_type_of of }
{
    match of {
        Form::Image {
            dim,
            arrayed,
            class,
        } => Some(ImageType {
            dim,
            arrayed,
            class,
        }),
        Form::Scalar(_)
        | Form::Vector { .. }
        | Form::Matrix { .. }
        | Form::CooperativeMatrix { .. }
        | Form::Atomic(_)
        | Form::Pointer { .. }
        | Form::ValuePointer { .. }
        | Form::Array { .. }
        | Form::Struct(_)
        | Form::Sampler { .. }
        | Form::AccelerationStructure { .. }
        | Form::RayQuery { .. }
        | Form::BindingArray { .. }
        | Form::Nothing => None,
    }
}

/// Whether a sampler type is a comparison sampler.
pub const fn sampler_of(of: Form) -> Option<bool>
    ensures { result ≡ sampler_of of }
{
    match of {
        Form::Sampler { comparison } => Some(comparison),
        Form::Scalar(_)
        | Form::Vector { .. }
        | Form::Matrix { .. }
        | Form::CooperativeMatrix { .. }
        | Form::Atomic(_)
        | Form::Pointer { .. }
        | Form::ValuePointer { .. }
        | Form::Array { .. }
        | Form::Struct(_)
        | Form::Image { .. }
        | Form::AccelerationStructure { .. }
        | Form::RayQuery { .. }
        | Form::BindingArray { .. }
        | Form::Nothing => None,
    }
}

/// The base type of a pointer, if it is neither a scalar nor a vector.
pub const fn pointee_of(of: Form) -> Option<Handle<key::IrType>>
    ensures { result ≡ pointee_of of }
{
    match of {
        Form::Pointer { base, .. } => Some(base),
        Form::Scalar(_)
        | Form::Vector { .. }
        | Form::Matrix { .. }
        | Form::CooperativeMatrix { .. }
        | Form::Atomic(_)
        | Form::ValuePointer { .. }
        | Form::Array { .. }
        | Form::Struct(_)
        | Form::Image { .. }
        | Form::Sampler { .. }
        | Form::AccelerationStructure { .. }
        | Form::RayQuery { .. }
        | Form::BindingArray { .. }
        | Form::Nothing => None,
    }
}

/// Whether a type is an integer scalar.
pub const fn is_integer_scalar(of: Form) -> bool
    ensures { IsTrue result ↔ IsIntegerScalar of }
{
    match of {
        Form::Scalar(scalar) => is_integer(scalar.kind),
        Form::Vector { .. }
        | Form::Matrix { .. }
        | Form::CooperativeMatrix { .. }
        | Form::Atomic(_)
        | Form::Pointer { .. }
        | Form::ValuePointer { .. }
        | Form::Array { .. }
        | Form::Struct(_)
        | Form::Image { .. }
        | Form::Sampler { .. }
        | Form::AccelerationStructure { .. }
        | Form::RayQuery { .. }
        | Form::BindingArray { .. }
        | Form::Nothing => false,
    }
}

/// Whether two types are equal.
#[tactic(auto, using(typing_forms::proofs::FormEquality::form_eq))]
pub fn are_same(left: Form, right: Form) -> bool
    ensures { IsTrue result ↔ (left ≡ right) }
{
    left == right
}

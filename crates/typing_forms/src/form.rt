//! Canonical forms of types.

ghost use Rattle.std.specs.Prelude.{◌≡◌, option_map};
ghost use Rattle.ir_types.specs.judged.Plain.{inner_view};
ghost use Rattle.typing_forms.specs.judged.Resolutions.{types_view, resolution_view, inner_at};
ghost use Rattle.typing_forms.specs.judged.Forms.{pointing, struct_at, form_in, form_of_type, form_of};

use crate::resolution::TypeResolution;
use ir_kinds::{
    AddressSpace, CooperativeRole, CooperativeSize, ImageClass, ImageDimension, Scalar, VectorSize,
};
use ir_sets::unique_arena::UniqueArena;
use ir_types::ir_arena::handle::Handle;
use ir_types::{ArraySize, IrType, TypeInner, key};

/// The canonical form of a type: two types are equivalent exactly if their forms are equal.
///
/// It is the inner type, except for a struct, which is its handle, and for a pointer to a scalar or a vector,
/// which is its value pointer. Names don't matter, nor whether the type is one of the module's.
#[derive(Clone, Copy, PartialEq, Eq, Debug)]
pub enum Form {
    /// A scalar.
    Scalar(Scalar),
    /// A vector.
    Vector {
        size: VectorSize,
        scalar: Scalar,
    },
    /// A matrix.
    Matrix {
        columns: VectorSize,
        rows: VectorSize,
        scalar: Scalar,
    },
    /// A cooperative matrix.
    CooperativeMatrix {
        columns: CooperativeSize,
        rows: CooperativeSize,
        scalar: Scalar,
        role: CooperativeRole,
    },
    /// An atomic scalar.
    Atomic(Scalar),
    /// A pointer to a value of a type that is neither a scalar nor a vector.
    Pointer {
        base: Handle<key::IrType>,
        space: AddressSpace,
    },
    /// A pointer to a scalar or a vector.
    ValuePointer {
        size: Option<VectorSize>,
        scalar: Scalar,
        space: AddressSpace,
    },
    /// An array.
    Array {
        base: Handle<key::IrType>,
        size: ArraySize,
        stride: u32,
    },
    /// The struct with this handle.
    Struct(Handle<key::IrType>),
    /// An image.
    Image {
        dim: ImageDimension,
        arrayed: bool,
        class: ImageClass,
    },
    /// A sampler.
    Sampler {
        comparison: bool,
    },
    /// An acceleration structure.
    AccelerationStructure {
        vertex_return: bool,
    },
    /// A ray query.
    RayQuery {
        vertex_return: bool,
    },
    /// A binding array.
    BindingArray {
        base: Handle<key::IrType>,
        size: ArraySize,
    },
    /// No type: a handle without a type, or a struct given without a handle.
    Nothing,
}

/// The inner type at a handle, if there is one.
#[tactic(auto, using(crate::proofs::Lookups::inner_found, crate::proofs::Lookups::inner_past))]
pub fn inner_of(
    types: &UniqueArena<IrType, key::IrType>,
    handle: Handle<key::IrType>,
) -> Option<&TypeInner>
    ensures { option_map (λ found. inner_view found.now) result ≡ inner_at (types_view types.now) handle }
{
    match types.get_handle(handle) {
        Ok(found) => Some(&found.inner),
        Err(_) => None,
    }
}

// The form of a pointer to the type at a handle.
fn pointer_form(
    types: &UniqueArena<IrType, key::IrType>,
    base: Handle<key::IrType>,
    space: AddressSpace,
) -> Form
    ensures { result ≡ pointing base space (inner_at (types_view types.now) base) }
{
    match inner_of(types, base) {
        Some(TypeInner::Scalar(scalar)) => Form::ValuePointer {
            size: None,
            scalar: *scalar,
            space,
        },
        Some(TypeInner::Vector { size, scalar }) => Form::ValuePointer {
            size: Some(*size),
            scalar: *scalar,
            space,
        },
        _ => Form::Pointer { base, space },
    }
}

// A struct by its handle, if it has one.
const fn struct_form(handle: Option<Handle<key::IrType>>) -> Form
    ensures { result ≡ struct_at handle }
{
    match handle {
        Some(handle) => Form::Struct(handle),
        None => Form::Nothing,
    }
}

/// The form of the inner type `inner` with the given handle, if any. Without a handle it is no struct.
pub fn form_in(
    types: &UniqueArena<IrType, key::IrType>,
    handle: Option<Handle<key::IrType>>,
    inner: &TypeInner,
) -> Form
    ensures { result ≡ form_in (types_view types.now) handle (inner_view inner.now) }
{
    match *inner {
        TypeInner::Scalar(scalar) => Form::Scalar(scalar),
        TypeInner::Vector { size, scalar } => Form::Vector { size, scalar },
        TypeInner::Matrix {
            columns,
            rows,
            scalar,
        } => Form::Matrix {
            columns,
            rows,
            scalar,
        },
        TypeInner::CooperativeMatrix {
            columns,
            rows,
            scalar,
            role,
        } => Form::CooperativeMatrix {
            columns,
            rows,
            scalar,
            role,
        },
        TypeInner::Atomic(scalar) => Form::Atomic(scalar),
        TypeInner::Pointer { base, space } => pointer_form(types, base, space),
        TypeInner::ValuePointer {
            size,
            scalar,
            space,
        } => Form::ValuePointer {
            size,
            scalar,
            space,
        },
        TypeInner::Array { base, size, stride } => Form::Array { base, size, stride },
        TypeInner::Struct { .. } => struct_form(handle),
        TypeInner::Image {
            dim,
            arrayed,
            class,
        } => Form::Image {
            dim,
            arrayed,
            class,
        },
        TypeInner::Sampler { comparison } => Form::Sampler { comparison },
        TypeInner::AccelerationStructure { vertex_return } => {
            Form::AccelerationStructure { vertex_return }
        }
        TypeInner::RayQuery { vertex_return } => Form::RayQuery { vertex_return },
        TypeInner::BindingArray { base, size } => Form::BindingArray { base, size },
    }
}

/// The form of the type at a handle, [`Form::Nothing`] if there is none.
pub fn form_of_type(types: &UniqueArena<IrType, key::IrType>, handle: Handle<key::IrType>) -> Form
    ensures { result ≡ form_of_type (types_view types.now) handle }
{
    match inner_of(types, handle) {
        Some(inner) => form_in(types, Some(handle), inner),
        None => Form::Nothing,
    }
}

/// The form of a resolution. If its handle has a type, and no struct is given by value, it is not
/// [`Form::Nothing`].
pub fn form_of(types: &UniqueArena<IrType, key::IrType>, resolution: &TypeResolution) -> Form
    ensures { result ≡ form_of (types_view types.now) (resolution_view resolution.now) }
{
    match *resolution {
        TypeResolution::Handle(handle) => form_of_type(types, handle),
        TypeResolution::Value(ref inner) => form_in(types, None, inner),
    }
}

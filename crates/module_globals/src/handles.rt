//! Resources that are bound by handles.

ghost use Rattle.std.specs.Prelude.{◌≡◌, Some};
ghost use Rattle.ir_types.specs.judged.Plain.{inner_view};
ghost use Rattle.ir_kinds.specs.judged.Images.{is_norm_16};
ghost use Rattle.spec_interface.specs.judged.Handles.{is_handle, handle_capability, class_array_capability, handle_array_capability};
ghost use Rattle.spec_interface.specs.judged.Spaces.{array_base};

use ir_arena::handle::Handle;
use ir_flags::Capabilities;
use ir_kinds::{ImageClass, StorageFormat};
use ir_types::{TypeInner, key};

/// Whether a type is bound by a handle.
pub(crate) fn is_handle(inner: &TypeInner) -> bool
    ensures { result ≡ is_handle (Some (inner_view inner.now)) }
{
    match inner {
        TypeInner::Image { .. }
        | TypeInner::Sampler { .. }
        | TypeInner::AccelerationStructure { .. }
        | TypeInner::RayQuery { .. } => true,
        TypeInner::Scalar(_)
        | TypeInner::Vector { .. }
        | TypeInner::Matrix { .. }
        | TypeInner::CooperativeMatrix { .. }
        | TypeInner::Atomic(_)
        | TypeInner::Pointer { .. }
        | TypeInner::ValuePointer { .. }
        | TypeInner::Array { .. }
        | TypeInner::Struct { .. }
        | TypeInner::BindingArray { .. } => false,
    }
}

// Whether a storage format has 16-bit normalized channels.
const fn is_norm_16(format: StorageFormat) -> bool
    ensures { result ≡ is_norm_16 format }
{
    matches!(
        format,
        StorageFormat::R16Unorm
            | StorageFormat::R16Snorm
            | StorageFormat::Rg16Unorm
            | StorageFormat::Rg16Snorm
            | StorageFormat::Rgba16Unorm
            | StorageFormat::Rgba16Snorm
    )
}

/// The capability that a handle binding of this type requires, if any.
pub(crate) fn handle_capability(inner: &TypeInner) -> Option<Capabilities>
    ensures { result ≡ handle_capability (Some (inner_view inner.now)) }
{
    match inner {
        TypeInner::Image {
            class: ImageClass::Storage { format, .. },
            ..
        } => {
            if is_norm_16(*format) {
                Some(Capabilities::STORAGE_TEXTURE_16BIT_NORM_FORMATS)
            } else {
                None
            }
        }
        TypeInner::Image {
            class: ImageClass::Sampled { .. } | ImageClass::Depth { .. } | ImageClass::External,
            ..
        }
        | TypeInner::Sampler { .. }
        | TypeInner::AccelerationStructure { .. }
        | TypeInner::BindingArray { .. }
        | TypeInner::Scalar(_)
        | TypeInner::Vector { .. }
        | TypeInner::Matrix { .. }
        | TypeInner::CooperativeMatrix { .. }
        | TypeInner::Atomic(_)
        | TypeInner::Pointer { .. }
        | TypeInner::ValuePointer { .. }
        | TypeInner::Array { .. }
        | TypeInner::Struct { .. }
        | TypeInner::RayQuery { .. } => None,
    }
}

// The capability that binding arrays of images of this class require; `None` if they are not allowed.
const fn class_array_capability(class: ImageClass) -> Option<Capabilities>
    ensures { result ≡ class_array_capability class }
{
    match class {
        ImageClass::Sampled { .. } | ImageClass::Depth { .. } => {
            Some(Capabilities::TEXTURE_AND_SAMPLER_BINDING_ARRAY)
        }
        ImageClass::Storage { .. } => Some(Capabilities::STORAGE_TEXTURE_BINDING_ARRAY),
        ImageClass::External => None,
    }
}

/// The capability that binding arrays of this handle type require; `None` if they are not allowed.
pub(crate) fn handles_capability(inner: &TypeInner) -> Option<Capabilities>
    ensures { result ≡ handle_array_capability (Some (inner_view inner.now)) }
{
    match inner {
        TypeInner::Image { class, .. } => class_array_capability(*class),
        TypeInner::Sampler { .. } => Some(Capabilities::TEXTURE_AND_SAMPLER_BINDING_ARRAY),
        TypeInner::AccelerationStructure { .. } => {
            Some(Capabilities::ACCELERATION_STRUCTURE_BINDING_ARRAY)
        }
        TypeInner::Scalar(_)
        | TypeInner::Vector { .. }
        | TypeInner::Matrix { .. }
        | TypeInner::CooperativeMatrix { .. }
        | TypeInner::Atomic(_)
        | TypeInner::Pointer { .. }
        | TypeInner::ValuePointer { .. }
        | TypeInner::Array { .. }
        | TypeInner::Struct { .. }
        | TypeInner::RayQuery { .. }
        | TypeInner::BindingArray { .. } => None,
    }
}

/// The element type of a binding array; `None` for any other type.
pub(crate) fn array_base(inner: &TypeInner) -> Option<Handle<key::IrType>>
    ensures { result ≡ array_base (Some (inner_view inner.now)) }
{
    match inner {
        TypeInner::BindingArray { base, .. } => Some(*base),
        _ => None,
    }
}

//! The requirements of address spaces.

ghost use Rattle.std.specs.Prelude.{◌≡◌, Some};
ghost use Rattle.module_globals.specs.Faults.{required_bits};
ghost use Rattle.ir_types.specs.judged.Plain.{inner_view};
ghost use Rattle.spec_interface.specs.judged.Spaces.{array_capability, space_capability, is_storage, space_row};

use crate::handles::{handle_capability, handles_capability};
use ir_flags::Capabilities;
use ir_kinds::AddressSpace;
use ir_types::TypeInner;
use typing_layout::TypeFlags;

/// The capability that a binding array of this type requires in an address space; `None` if it is not allowed.
pub(crate) fn array_capability(space: AddressSpace, base: &TypeInner) -> Option<Capabilities>
    ensures { result ≡ array_capability space (Some (inner_view base.now)) }
{
    match space {
        AddressSpace::Storage { .. } => Some(Capabilities::STORAGE_BUFFER_BINDING_ARRAY),
        AddressSpace::Uniform => Some(Capabilities::BUFFER_BINDING_ARRAY),
        AddressSpace::Handle => handles_capability(base),
        AddressSpace::Function
        | AddressSpace::Private
        | AddressSpace::WorkGroup
        | AddressSpace::Immediate
        | AddressSpace::TaskPayload
        | AddressSpace::RayPayload
        | AddressSpace::IncomingRayPayload => None,
    }
}

/// The capability that a variable of this type requires in an address space, if any.
pub(crate) fn space_capability(space: AddressSpace, inner: &TypeInner) -> Option<Capabilities>
    ensures { result ≡ space_capability space (Some (inner_view inner.now)) }
{
    match space {
        AddressSpace::Handle => handle_capability(inner),
        AddressSpace::Immediate => Some(Capabilities::IMMEDIATES),
        AddressSpace::TaskPayload => Some(Capabilities::MESH_SHADER),
        AddressSpace::RayPayload | AddressSpace::IncomingRayPayload => {
            Some(Capabilities::RAY_TRACING_PIPELINE)
        }
        AddressSpace::Function
        | AddressSpace::Private
        | AddressSpace::WorkGroup
        | AddressSpace::Uniform
        | AddressSpace::Storage { .. } => None,
    }
}

const STORED: TypeFlags = TypeFlags(TypeFlags::DATA.0 | TypeFlags::SIZED.0);

const COMPOSED: TypeFlags = TypeFlags(TypeFlags::CONSTRUCTIBLE.0 | TypeFlags::CREATION_RESOLVED.0);

const STORAGE: TypeFlags = TypeFlags(
    TypeFlags::DATA.0 | TypeFlags::HOST_SHAREABLE.0 | TypeFlags::CREATION_RESOLVED.0,
);

const IMMEDIATE: TypeFlags = TypeFlags(STORED.0 | TypeFlags::COPY.0 | TypeFlags::HOST_SHAREABLE.0);

const UNIFORM: TypeFlags = TypeFlags(IMMEDIATE.0 | TypeFlags::CREATION_RESOLVED.0);

/// The type flags that an address space requires.
pub(crate) const fn required(space: AddressSpace) -> TypeFlags
    ensures { result.0 ≡ required_bits space }
{
    match space {
        AddressSpace::Storage { .. } => STORAGE,
        AddressSpace::Uniform => UNIFORM,
        AddressSpace::Private => COMPOSED,
        AddressSpace::WorkGroup
        | AddressSpace::TaskPayload
        | AddressSpace::RayPayload
        | AddressSpace::IncomingRayPayload => STORED,
        AddressSpace::Immediate => IMMEDIATE,
        AddressSpace::Function | AddressSpace::Handle => TypeFlags(0),
    }
}

/// Whether an address space requires a binding.
pub(crate) const fn is_resource(space: AddressSpace) -> bool
    ensures { result ≡ (space_row space).bound }
{
    match space {
        AddressSpace::Storage { .. } | AddressSpace::Uniform | AddressSpace::Handle => true,
        AddressSpace::Function
        | AddressSpace::Private
        | AddressSpace::WorkGroup
        | AddressSpace::Immediate
        | AddressSpace::TaskPayload
        | AddressSpace::RayPayload
        | AddressSpace::IncomingRayPayload => false,
    }
}

/// Whether an address space is `Storage`.
pub(crate) const fn is_storage(space: AddressSpace) -> bool
    ensures { result ≡ is_storage space }
{
    matches!(space, AddressSpace::Storage { .. })
}

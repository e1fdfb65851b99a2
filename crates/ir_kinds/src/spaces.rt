//! Address spaces.

ghost use Rattle.std.specs.Prelude.{◌≡◌, ◌↔◌, ◌⊎◌, IsTrue};
ghost use Rattle.ir_kinds.specs.judged.Spaces.{access_of};

use bitflags::Flags;
use ir_flags::StorageAccess;

/// The address space of a variable (naga's `AddressSpace`).
#[derive(Clone, Copy, PartialEq, Eq, Hash, Debug)]
pub enum AddressSpace {
    /// Function-local variables.
    Function,
    /// Private variables of an invocation.
    Private,
    /// Workgroup memory.
    WorkGroup,
    /// Uniform buffers.
    Uniform,
    /// Storage buffers, with their access mode.
    Storage { access: StorageAccess },
    /// Opaque handles: images, samplers and the like.
    Handle,
    /// Immediate data.
    Immediate,
    /// The payload from a task shader to its mesh shaders.
    TaskPayload,
    /// The payload of a ray that this shader traces.
    RayPayload,
    /// The incoming payload: that of the ray for which this shader runs.
    IncomingRayPayload,
}

impl AddressSpace {
    /// The access that the space allows: for storage buffers their access mode, for uniforms, handles and
    /// immediates `LOAD`, and otherwise `LOAD` and `STORE` (naga's `AddressSpace::access`).
    pub fn access(self) -> StorageAccess
        ensures { result ≡ access_of self }
    {
        match self {
            AddressSpace::Function
            | AddressSpace::Private
            | AddressSpace::WorkGroup
            | AddressSpace::TaskPayload
            | AddressSpace::RayPayload
            | AddressSpace::IncomingRayPayload => StorageAccess::LOAD.union(StorageAccess::STORE),
            AddressSpace::Uniform | AddressSpace::Handle | AddressSpace::Immediate => {
                StorageAccess::LOAD
            }
            AddressSpace::Storage { access } => access,
        }
    }

    /// Whether a workgroup shares the memory: workgroup memory, or a task payload (naga's
    /// `AddressSpace::is_workgroup_like`).
    pub const fn is_workgroup_like(self) -> bool
        ensures { IsTrue result ↔ ((self ≡ AddressSpace.WorkGroup) ⊎ (self ≡ AddressSpace.TaskPayload)) }
    {
        matches!(self, AddressSpace::WorkGroup | AddressSpace::TaskPayload)
    }
}

//! Look-ups by the handles of a module.

ghost use Rattle.std.specs.Prelude.{◌≡◌, ◌<◌, ◌↔◌, IsTrue, MatchOption, None, Some, length, map, slice_get, unwrap_or};
ghost use Rattle.ir_items.specs.found.View.{module_view};
ghost use Rattle.ir_kinds.specs.declared.spaces.AddressSpace.TheVariants.{Immediate, TaskPayload, WorkGroup};
ghost use Rattle.ir_types.specs.judged.Plain.{inner_view, member_view};
ghost use Rattle.spec_statements.specs.SpecExpressions.{no_use};
ghost use Rattle.spec_interface.specs.judged.Members.{members_at, members_in};
ghost use Rattle.spec_interface.specs.judged.Payloads.{binding_at, space_at};
ghost use Rattle.typing_forms.specs.judged.Resolutions.{inner_at};

use ir_arena::handle::Handle;
use ir_items::Module;
use ir_kinds::{AddressSpace, ResourceBinding};
use ir_types::{StructMember, TypeInner, key};
use spec_statements::spec_expressions::GlobalUse;

/// The inner type at a handle, if there is one.
pub fn inner_at(module: &Module, ty: Handle<key::IrType>) -> Option<&TypeInner>
    ensures { MatchOption result
        (inner_at (module_view «module».now).types ty ≡ None)
        (λ i. inner_at (module_view «module».now).types ty ≡ Some (inner_view i.now)) }
{
    match module.types.get_handle(ty) {
        Ok(found) => Some(&found.inner),
        Err(_) => None,
    }
}

// The members of a struct.
fn members_in(inner: &TypeInner) -> Option<&[StructMember]>
    ensures { MatchOption result
        (members_in (Some (inner_view inner.now)) ≡ None)
        (λ members. members_in (Some (inner_view inner.now)) ≡ Some (map member_view members.now)) }
{
    match inner {
        TypeInner::Struct { members, .. } => Some(members),
        TypeInner::Scalar(_)
        | TypeInner::Vector { .. }
        | TypeInner::Matrix { .. }
        | TypeInner::CooperativeMatrix { .. }
        | TypeInner::Atomic(_)
        | TypeInner::Pointer { .. }
        | TypeInner::ValuePointer { .. }
        | TypeInner::Array { .. }
        | TypeInner::Image { .. }
        | TypeInner::Sampler { .. }
        | TypeInner::AccelerationStructure { .. }
        | TypeInner::RayQuery { .. }
        | TypeInner::BindingArray { .. } => None,
    }
}

/// The members of the struct type at a handle.
pub fn members_at(module: &Module, ty: Handle<key::IrType>) -> Option<&[StructMember]>
    ensures { MatchOption result
        (members_at (module_view «module».now).types ty ≡ None)
        (λ members. members_at (module_view «module».now).types ty ≡ Some (map member_view members.now)) }
{
    match inner_at(module, ty) {
        Some(inner) => members_in(inner),
        None => None,
    }
}

/// The address space of a global variable.
pub fn space_at(module: &Module, global: Handle<key::GlobalVariable>) -> AddressSpace
    requires { global < length (module_view «module».now).globals }
    ensures { space_at (module_view «module».now) global ≡ Some result }
{
    module.global_variables[global].space
}

/// The resource binding of a global variable, if it has one.
pub fn binding_at(module: &Module, global: Handle<key::GlobalVariable>) -> Option<ResourceBinding>
    requires { global < length (module_view «module».now).globals }
    ensures { result ≡ binding_at (module_view «module».now) global }
{
    module.global_variables[global].binding
}

/// The use of a global variable, given the uses of all.
pub fn use_at(uses: &[GlobalUse], global: Handle<key::GlobalVariable>) -> GlobalUse
    ensures { result ≡ unwrap_or (slice_get uses.now global) no_use }
{
    match uses.get(global.index()) {
        Some(kinds) => *kinds,
        None => GlobalUse(0),
    }
}

/// Whether the space is `Immediate`.
pub const fn is_immediate(space: AddressSpace) -> bool
    ensures { IsTrue result ↔ (space ≡ Immediate) }
{
    matches!(space, AddressSpace::Immediate)
}

/// Whether the space is `TaskPayload`.
pub const fn is_task_payload(space: AddressSpace) -> bool
    ensures { IsTrue result ↔ (space ≡ TaskPayload) }
{
    matches!(space, AddressSpace::TaskPayload)
}

/// Whether the space is `WorkGroup`.
pub const fn is_workgroup(space: AddressSpace) -> bool
    ensures { IsTrue result ↔ (space ≡ WorkGroup) }
{
    matches!(space, AddressSpace::WorkGroup)
}

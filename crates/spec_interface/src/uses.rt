//! Allowed uses of global variables, by address space.

ghost use Rattle.std.specs.Prelude.{◌≡◌, ℕ, List, Some};
ghost use Rattle.ir_items.specs.found.View.{module_view};
ghost use Rattle.ir_types.specs.judged.Plain.{inner_view};
ghost use Rattle.spec_interface.specs.judged.Uses.{access_uses, all_but_atomic, allowed_uses, class_uses, handle_uses, payload_uses, read_uses, use_if};
ghost use Rattle.spec_interface.specs.judged.Spaces.{array_base, effective_type};
ghost use Rattle.spec_interface.specs.judged.Stages.{stage_row};
ghost use Rattle.typing_forms.specs.judged.Resolutions.{inner_at};

use crate::lookups::inner_at;
use bitflags::Flags;
use ir_arena::handle::Handle;
use ir_flags::StorageAccess;
use ir_items::Module;
use ir_kinds::{AddressSpace, ImageClass, ShaderStage};
use ir_types::{TypeInner, key};
use spec_statements::spec_expressions::GlobalUse;

const READ: GlobalUse = GlobalUse(GlobalUse::READ.0 | GlobalUse::QUERY.0);

const ALL_BUT_ATOMIC: GlobalUse = GlobalUse(READ.0 | GlobalUse::WRITE.0);

// A use that requires one of these accesses.
fn use_if(access: StorageAccess, needed: StorageAccess, kind: GlobalUse) -> GlobalUse
    ensures { result.0 ≡ use_if access needed kind }
{
    if access.contains(needed) {
        kind
    } else {
        GlobalUse(0)
    }
}

// The allowed uses of storage with some access.
fn access_uses(access: StorageAccess) -> GlobalUse
    ensures { result ≡ access_uses access }
{
    let read = use_if(access, StorageAccess::LOAD, GlobalUse::READ);
    let written = use_if(access, StorageAccess::STORE, GlobalUse::WRITE);
    let changed = use_if(access, StorageAccess::ATOMIC, GlobalUse::ATOMIC);
    GlobalUse(GlobalUse::QUERY.0 | read.0 | written.0 | changed.0)
}

// The allowed uses of images of a class.
fn class_uses(class: ImageClass) -> GlobalUse
    ensures { result ≡ class_uses class }
{
    match class {
        ImageClass::Sampled { .. } | ImageClass::Depth { .. } | ImageClass::External => READ,
        ImageClass::Storage { access, .. } => access_uses(access),
    }
}

// The allowed uses of a variable of this inner type in the handle space.
fn handle_uses(inner: &TypeInner) -> GlobalUse
    ensures { result ≡ handle_uses (Some (inner_view inner.now)) }
{
    match inner {
        TypeInner::Image { class, .. } => class_uses(*class),
        _ => READ,
    }
}

// The allowed uses of a variable of the type at a handle, in the handle space.
fn uses_at(module: &Module, ty: Handle<key::IrType>) -> GlobalUse
    ensures { result ≡ handle_uses (inner_at (module_view «module».now).types ty) }
{
    match inner_at(module, ty) {
        Some(inner) => handle_uses(inner),
        None => READ,
    }
}

// The element type of a binding array.
fn array_base(inner: &TypeInner) -> Option<Handle<key::IrType>>
    ensures { result ≡ array_base (Some (inner_view inner.now)) }
{
    match inner {
        TypeInner::BindingArray { base, .. } => Some(*base),
        _ => None,
    }
}

// The element type of the binding array type at a handle.
fn base_at(module: &Module, ty: Handle<key::IrType>) -> Option<Handle<key::IrType>>
    ensures { result ≡ array_base (inner_at (module_view «module».now).types ty) }
{
    match inner_at(module, ty) {
        Some(inner) => array_base(inner),
        None => None,
    }
}

// The effective type: the element type of a binding array, and otherwise the type itself.
fn counted(module: &Module, ty: Handle<key::IrType>) -> Handle<key::IrType>
    ensures { result ≡ effective_type (module_view «module».now).types ty }
{
    match base_at(module, ty) {
        Some(base) => base,
        None => ty,
    }
}

// The allowed uses of a task payload in a stage.
const fn payload_uses(stage: ShaderStage) -> GlobalUse
    ensures { result ≡ payload_uses stage }
{
    match stage {
        ShaderStage::Task => ALL_BUT_ATOMIC,
        ShaderStage::Vertex
        | ShaderStage::Fragment
        | ShaderStage::Compute
        | ShaderStage::Mesh
        | ShaderStage::RayGeneration
        | ShaderStage::AnyHit
        | ShaderStage::ClosestHit
        | ShaderStage::Miss => READ,
    }
}

/// The allowed uses of a variable of a type in a space, in a stage.
pub fn allowed_uses(
    stage: ShaderStage,
    space: AddressSpace,
    module: &Module,
    ty: Handle<key::IrType>,
) -> GlobalUse
    ensures { let types = (module_view «module».now).types in
        result ≡ allowed_uses stage space (inner_at types (effective_type types ty)) }
{
    match space {
        AddressSpace::Function => GlobalUse(0),
        AddressSpace::Private
        | AddressSpace::WorkGroup
        | AddressSpace::RayPayload
        | AddressSpace::IncomingRayPayload => ALL_BUT_ATOMIC,
        AddressSpace::Uniform | AddressSpace::Immediate => READ,
        AddressSpace::Storage { access } => access_uses(access),
        AddressSpace::Handle => uses_at(module, counted(module, ty)),
        AddressSpace::TaskPayload => payload_uses(stage),
    }
}

/// Whether a stage has ray payloads (`RayPayload`).
pub const fn traces_rays(stage: ShaderStage) -> bool
    ensures { result ≡ (stage_row stage).traces }
{
    match stage {
        ShaderStage::RayGeneration | ShaderStage::ClosestHit | ShaderStage::Miss => true,
        ShaderStage::Vertex
        | ShaderStage::Fragment
        | ShaderStage::Compute
        | ShaderStage::Mesh
        | ShaderStage::Task
        | ShaderStage::AnyHit => false,
    }
}

/// Whether a stage has incoming ray payloads (`IncomingRayPayload`).
pub const fn is_run_for_rays(stage: ShaderStage) -> bool
    ensures { result ≡ (stage_row stage).incoming }
{
    match stage {
        ShaderStage::AnyHit | ShaderStage::ClosestHit | ShaderStage::Miss => true,
        ShaderStage::Vertex
        | ShaderStage::Fragment
        | ShaderStage::Compute
        | ShaderStage::Mesh
        | ShaderStage::Task
        | ShaderStage::RayGeneration => false,
    }
}

//! The checks of types that reference one other type.

ghost use Rattle.std.specs.Prelude.{◌≡◌, ◌<◌, ◌↔◌, ℕ, IsTrue, length, MatchResult};
ghost use Rattle.ir_flags.specs.Sets.{Has};
ghost use Rattle.ir_types.specs.judged.Plain.{inner_view};
ghost use Rattle.typing_layout.specs.judged.Flags.{HasFlag, Data, Sized};
ghost use Rattle.typing_layout.specs.judged.Rules.{IsStorageSpace, PointerOK, ArrayOK, BindingArrayOK, CountIsResolved, IsBindingArrayBase};
ghost use Rattle.typing_layout.specs.judged.Tree.{Tree};
ghost use Rattle.typing_layout.specs.judged.View.{tree_by};
ghost use Rattle.module_type_checks.specs.Known.{IsKnown, tree_in, types_in};
ghost use Rattle.typing_layout.specs.found.Faults.{IsPointerFault, IsArrayFault, IsBindingArrayFault};

use crate::{TypeContext, facts_of, type_at};
use bitflags::Flags;
use ir_arena::handle::Handle;
use ir_kinds::{AddressSpace, ImageClass};
use ir_types::{ArraySize, TypeInner, key};
use typing_layout::{TypeError, TypeFlags};

// Whether an earlier type has the `DATA` flag.
fn is_data(context: &TypeContext<'_>, ty: Handle<key::IrType>) -> bool
    requires known { IsKnown context.now }
    requires before { ty < length context.now.infos.now }
    ensures { IsTrue result ↔ HasFlag Data (tree_in context.now ty) }
{
    facts_of(context, ty).info.flags.contains(TypeFlags::DATA)
}

// Whether an earlier type has the `SIZED` flag.
fn is_sized(context: &TypeContext<'_>, ty: Handle<key::IrType>) -> bool
    requires known { IsKnown context.now }
    requires before { ty < length context.now.infos.now }
    ensures { IsTrue result ↔ HasFlag Sized (tree_in context.now ty) }
{
    facts_of(context, ty).info.flags.contains(TypeFlags::SIZED)
}

// Whether an address space is `Storage`.
const fn is_storage(space: AddressSpace) -> bool
    ensures { IsTrue result ↔ IsStorageSpace space }
{
    match space {
        AddressSpace::Storage { .. } => true,
        AddressSpace::Function
        | AddressSpace::Private
        | AddressSpace::WorkGroup
        | AddressSpace::Uniform
        | AddressSpace::Handle
        | AddressSpace::Immediate
        | AddressSpace::TaskPayload
        | AddressSpace::RayPayload
        | AddressSpace::IncomingRayPayload => false,
    }
}

/// Whether pointers to a type are valid.
pub(crate) fn check_pointer(
    context: &TypeContext<'_>,
    base: Handle<key::IrType>,
    space: AddressSpace,
) -> Result<(), TypeError>
    requires known { IsKnown context.now }
    requires before { base < length context.now.infos.now }
    ensures { MatchResult result (λ _. PointerOK (tree_in context.now base) space) (IsPointerFault (types_in context.now) base space) }
{
    if !is_data(context, base) {
        return Err(TypeError::InvalidPointerBase(base));
    }
    if !is_storage(space) && !is_sized(context, base) {
        return Err(TypeError::InvalidPointerToUnsized { base, space });
    }
    Ok(())
}

// Whether an array size is not `Pending`, if overrides are resolved.
const fn is_known_count(resolved: bool, size: ArraySize) -> bool
    ensures { IsTrue result ↔ CountIsResolved resolved size }
{
    match size {
        ArraySize::Constant(_) | ArraySize::Dynamic => true,
        ArraySize::Pending(_) => !resolved,
    }
}

/// Whether arrays of this element type are valid.
pub(crate) fn check_array(
    context: &TypeContext<'_>,
    handle: Handle<key::IrType>,
    base: Handle<key::IrType>,
    size: ArraySize,
) -> Result<(), TypeError>
    requires known { IsKnown context.now }
    requires before { base < length context.now.infos.now }
    ensures { MatchResult result
        (λ _. ArrayOK context.now.overrides_resolved (tree_in context.now base) size)
        (IsArrayFault context.now.overrides_resolved (types_in context.now) handle base size) }
{
    if !is_data(context, base) || !is_sized(context, base) {
        return Err(TypeError::InvalidArrayBaseType(base));
    }
    if !is_known_count(context.overrides_resolved, size) {
        return Err(TypeError::UnresolvedOverride(handle));
    }
    Ok(())
}

// Whether a type is allowed as the element type of a binding array.
fn is_bound(inner: &TypeInner) -> bool
    ensures { (tree : ℕ → Tree) → IsTrue result ↔ IsBindingArrayBase (tree_by tree (inner_view inner.now)) }
{
    match *inner {
        TypeInner::Struct { .. }
        | TypeInner::Sampler { .. }
        | TypeInner::AccelerationStructure { .. } => true,
        TypeInner::Image { class, .. } => class != ImageClass::External,
        TypeInner::Scalar(_)
        | TypeInner::Vector { .. }
        | TypeInner::Matrix { .. }
        | TypeInner::CooperativeMatrix { .. }
        | TypeInner::Atomic(_)
        | TypeInner::Pointer { .. }
        | TypeInner::ValuePointer { .. }
        | TypeInner::Array { .. }
        | TypeInner::RayQuery { .. }
        | TypeInner::BindingArray { .. } => false,
    }
}

// Whether an earlier type is allowed as the element type of a binding array.
fn is_in_array(context: &TypeContext<'_>, base: Handle<key::IrType>) -> bool
    requires known { IsKnown context.now }
    requires before { base < length context.now.infos.now }
    ensures { IsTrue result ↔ IsBindingArrayBase (tree_in context.now base) }
{
    is_bound(type_at(context.types, base))
}

/// Whether binding arrays of this element type are valid.
pub(crate) fn check_binding_array(
    context: &TypeContext<'_>,
    base: Handle<key::IrType>,
    size: ArraySize,
) -> Result<(), TypeError>
    requires known { IsKnown context.now }
    requires before { base < length context.now.infos.now }
    ensures { MatchResult result (λ _. BindingArrayOK (tree_in context.now base) size) (IsBindingArrayFault (types_in context.now) base size) }
{
    if !is_in_array(context, base) {
        return Err(TypeError::Other);
    }
    if !is_known_count(true, size) {
        return Err(TypeError::Other);
    }
    Ok(())
}

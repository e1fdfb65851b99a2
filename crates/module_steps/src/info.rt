//! The `TypeInfo` of a type, given those of earlier types.

ghost use Rattle.std.specs.Prelude.{◌≡◌, ◌<◌, ◌≤◌, ℕ, Some, All, length, map, MatchResult};
ghost use Rattle.ir_types.specs.judged.Plain.{inner_view, member_view};
ghost use Rattle.module_steps.specs.Layouts.{IsStructOf};
ghost use Rattle.module_steps.specs.Whole.{IsWhole};
ghost use Rattle.typing_layout.specs.judged.Buffers.{FitsStorageBuffer, FitsUniformBuffer, uniform_alignment};
ghost use Rattle.typing_layout.specs.judged.Layout.{alignment};
ghost use Rattle.typing_layout.specs.judged.Tree.{array};
ghost use Rattle.typing_layout.specs.judged.View.{tree_by};
ghost use Rattle.module_type_checks.specs.Known.{IsKnown, tree_in, types_in};
ghost use Rattle.typing_layout.specs.found.BufferFaults.{BreaksStorage, BreaksUniform, IsBroken};
ghost use Rattle.typing_layout.specs.found.Infos.{AreFlags, HasInfo};
ghost use Rattle.typing_forms.specs.judged.Order.{named_types};
ghost use Rattle.typing_forms.specs.judged.Resolutions.{inner_at};

use crate::immediates::{immediates_of_struct, immediates_of_whole};
use crate::uniform::{uniform_of_array, uniform_of_struct};
use crate::{storage_of_array, storage_of_struct};
use bitflags::Flags;
use ir_arena::handle::Handle;
use ir_types::{ArraySize, StructMember, TypeInner, key};
use module_type_checks::{
    TypeContext, facts_of, flags_of_array, flags_of_struct, type_at, whole_flags,
};
use typing_layout::{Alignment, Disalignment, LayoutCompatibility, TypeFlags, TypeInfo};

// The layouts in uniform and storage buffers of a type without elements or members.
fn layout_of_whole(
    context: &TypeContext<'_>,
    handle: Handle<key::IrType>,
    flags: TypeFlags,
    own: Alignment,
) -> LayoutCompatibility
    requires whole { IsWhole (tree_in context.now handle) }
    requires flags { AreFlags flags (tree_in context.now handle) }
    requires aligned { own ≡ alignment (tree_in context.now handle) }
    ensures storage { MatchResult result
        (λ a. FitsStorageBuffer (tree_in context.now handle) × (a ≡ alignment (tree_in context.now handle)))
        (IsBroken BreaksStorage (types_in context.now) (tree_in context.now handle)) }
    ensures uniform { MatchResult result
        (λ a. FitsUniformBuffer (tree_in context.now handle) × (a ≡ uniform_alignment (tree_in context.now handle)))
        (IsBroken BreaksUniform (types_in context.now) (tree_in context.now handle)) }
{
    if flags.contains(TypeFlags::HOST_SHAREABLE) {
        Ok(own)
    } else {
        Err((handle, Disalignment::NonHostShareable))
    }
}

// The `TypeInfo` of a type without elements or members.
fn info_of_whole(
    context: &TypeContext<'_>,
    handle: Handle<key::IrType>,
    inner: &TypeInner,
    own: Alignment,
) -> TypeInfo
    requires known { IsKnown context.now }
    requires at { Some (inner_view inner.now) ≡ inner_at (types_in context.now) handle }
    requires whole { IsWhole (tree_by (tree_in context.now) (inner_view inner.now)) }
    requires aligned { own ≡ alignment (tree_in context.now handle) }
    ensures { HasInfo (types_in context.now) (tree_in context.now handle) result }
{
    let flags = whole_flags(inner);
    let layout = layout_of_whole(context, handle, flags, own);
    let storage_layout = layout;
    TypeInfo {
        flags,
        uniform_layout: layout,
        storage_layout,
        immediates_compatibility: immediates_of_whole(inner),
    }
}

// The `TypeInfo` of an array.
fn info_of_array(
    context: &TypeContext<'_>,
    handle: Handle<key::IrType>,
    base: Handle<key::IrType>,
    size: ArraySize,
    stride: u32,
) -> TypeInfo
    requires known { IsKnown context.now }
    requires before { base < length context.now.infos.now }
    requires own { tree_in context.now handle ≡ array (tree_in context.now base) size stride }
    ensures { HasInfo (types_in context.now) (tree_in context.now handle) result }
{
    let facts = facts_of(context, base);
    TypeInfo {
        flags: flags_of_array(facts.info.flags, size),
        uniform_layout: uniform_of_array(context, handle, &facts, stride),
        storage_layout: storage_of_array(context, handle, &facts, stride),
        immediates_compatibility: facts.info.immediates_compatibility,
    }
}

// The `TypeInfo` of a struct.
fn info_of_struct(
    context: &TypeContext<'_>,
    handle: Handle<key::IrType>,
    members: &[StructMember],
    span: u32,
    own: Alignment,
) -> TypeInfo
    requires known { IsKnown context.now }
    requires named { All (λ m. m.ty < length context.now.infos.now) members.now }
    requires own { IsStructOf context.now (map member_view members.now) span handle }
    requires aligned { own ≡ alignment (tree_in context.now handle) }
    ensures { HasInfo (types_in context.now) (tree_in context.now handle) result }
{
    let flags = flags_of_struct(context, members);
    TypeInfo {
        flags,
        uniform_layout: uniform_of_struct(context, handle, members, span, flags, own),
        storage_layout: storage_of_struct(context, handle, members, span, flags, own),
        immediates_compatibility: immediates_of_struct(context, handle, members),
    }
}

// The `TypeInfo` of a `TypeInner`.
fn info_of_inner(
    context: &TypeContext<'_>,
    handle: Handle<key::IrType>,
    inner: &TypeInner,
    own: Alignment,
) -> TypeInfo
    requires known { IsKnown context.now }
    requires at { Some (inner_view inner.now) ≡ inner_at (types_in context.now) handle }
    requires named { All (λ named. named < length context.now.infos.now) (named_types (inner_view inner.now)) }
    requires aligned { own ≡ alignment (tree_in context.now handle) }
    ensures { HasInfo (types_in context.now) (tree_in context.now handle) result }
{
    match *inner {
        TypeInner::Array { base, size, stride } => {
            info_of_array(context, handle, base, size, stride)
        }
        TypeInner::Struct {
            ref members,
            ref span,
        } => info_of_struct(context, handle, members.as_slice(), *span, own),
        TypeInner::Scalar(_)
        | TypeInner::Vector { .. }
        | TypeInner::Matrix { .. }
        | TypeInner::CooperativeMatrix { .. }
        | TypeInner::Atomic(_)
        | TypeInner::Pointer { .. }
        | TypeInner::ValuePointer { .. }
        | TypeInner::Image { .. }
        | TypeInner::Sampler { .. }
        | TypeInner::AccelerationStructure { .. }
        | TypeInner::RayQuery { .. }
        | TypeInner::BindingArray { .. } => info_of_whole(context, handle, inner, own),
    }
}

/// The `TypeInfo` of the type at a handle, given those of earlier types. It is defined for every type, also for an invalid
/// one.
pub fn info_of(context: &TypeContext<'_>, handle: Handle<key::IrType>) -> TypeInfo
    requires known { IsKnown context.now }
    requires before { handle ≤ length context.now.infos.now }
    requires laid { handle < length context.now.layouter.now }
    requires within { handle < length context.now.types.now }
    ensures { HasInfo (types_in context.now) (tree_in context.now handle) result }
{
    let own = context.layouter[handle].alignment;
    info_of_inner(context, handle, type_at(context.types, handle), own)
}

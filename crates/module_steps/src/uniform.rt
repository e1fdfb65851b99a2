//! Layouts of types in uniform buffers.

ghost use Rattle.std.specs.Prelude.{◌≡◌, ◌<◌, All, length, map, MatchResult};
ghost use Rattle.ir_types.specs.judged.Plain.{member_view};
ghost use Rattle.module_steps.specs.Layouts.{IsArrayAt, IsStructAt, IsStructOf, IsUniformAlignment, UniformPart, free_before};
ghost use Rattle.typing_layout.specs.judged.Buffers.{FitsUniformBuffer, uniform_alignment};
ghost use Rattle.typing_layout.specs.judged.Parts.{item_before};
ghost use Rattle.typing_layout.specs.judged.Layout.{alignment};
ghost use Rattle.module_type_checks.specs.Known.{IsKnown, tree_in, types_in};
ghost use Rattle.module_type_checks.specs.Placed.{parts_in, AtPlace, IsPlaced};
ghost use Rattle.typing_layout.specs.found.BufferFaults.{BreaksUniform, IsBroken};
ghost use Rattle.typing_layout.specs.found.Infos.{AreFlags};

use crate::Broken;
use bitflags::Flags;
use ir_arena::handle::Handle;
use ir_types::{StructMember, key};
use module_type_checks::{Facts, Placed, TypeContext, at_least_sixteen, member_at, member_before};
use typing_layout::{Alignment, Disalignment, LayoutCompatibility, TypeFlags};

// The minimum offset of the next member, given the member before an index.
fn free_before(context: &TypeContext<'_>, members: &[StructMember], place: usize) -> u64
    requires known { IsKnown context.now }
    requires named { All (λ m. m.ty < length context.now.infos.now) members.now }
    requires within { place < length members.now }
    ensures { result ≡ free_before (item_before (parts_in context.now (map member_view members.now)) place) }
{
    match member_before(context, members, place) {
        None => 0,
        Some(before) => {
            if before.facts.is_struct {
                (before.end() + 15) / 16 * 16
            } else {
                0
            }
        }
    }
}

// Whether a member's offset is aligned and leaves enough space after a preceding struct.
fn check_uniform_offset(
    context: &TypeContext<'_>,
    handle: Handle<key::IrType>,
    members: &[StructMember],
    place: usize,
    member: Placed,
    alignment: Alignment,
) -> Result<(), Broken>
    requires known { IsKnown context.now }
    requires named { All (λ m. m.ty < length context.now.infos.now) members.now }
    requires within { place < length members.now }
    requires own { IsStructAt context.now (map member_view members.now) handle }
    requires placed { IsPlaced context.now (map member_view members.now) place member }
    requires aligned { IsUniformAlignment context.now member.ty alignment }
    ensures { MatchResult result
        (λ _. AtPlace (UniformPart (parts_in context.now (map member_view members.now))) (parts_in context.now (map member_view members.now)) place)
        (IsBroken BreaksUniform (types_in context.now) (tree_in context.now handle)) }
{
    let offset = member.offset;
    if !alignment.is_aligned(offset) {
        return Err((
            handle,
            Disalignment::MemberOffset {
                index: place,
                offset,
                alignment,
            },
        ));
    }
    let expected = free_before(context, members, place);
    if u64::from(offset) < expected {
        return Err((
            handle,
            Disalignment::MemberOffsetAfterStruct {
                index: place,
                offset,
                expected,
            },
        ));
    }
    Ok(())
}

// Whether a member's offset is valid for its type in uniform buffers.
fn check_uniform_member(
    context: &TypeContext<'_>,
    handle: Handle<key::IrType>,
    members: &[StructMember],
    place: usize,
) -> Result<(), Broken>
    requires known { IsKnown context.now }
    requires named { All (λ m. m.ty < length context.now.infos.now) members.now }
    requires within { place < length members.now }
    requires own { IsStructAt context.now (map member_view members.now) handle }
    ensures { MatchResult result
        (λ _. AtPlace (UniformPart (parts_in context.now (map member_view members.now))) (parts_in context.now (map member_view members.now)) place)
        (IsBroken BreaksUniform (types_in context.now) (tree_in context.now handle)) }
{
    let member = member_at(context, members, place);
    match member.facts.info.uniform_layout {
        Err(broken) => Err(broken),
        Ok(alignment) => {
            check_uniform_offset(context, handle, members, place, member, alignment)
        }
    }
}

/// The uniform layout of a struct with these members, flags and alignment.
pub(crate) fn uniform_of_struct(
    context: &TypeContext<'_>,
    handle: Handle<key::IrType>,
    members: &[StructMember],
    span: u32,
    flags: TypeFlags,
    own_alignment: Alignment,
) -> LayoutCompatibility
    requires known { IsKnown context.now }
    requires named { All (λ m. m.ty < length context.now.infos.now) members.now }
    requires own { IsStructOf context.now (map member_view members.now) span handle }
    requires flags { AreFlags flags (tree_in context.now handle) }
    requires aligned { own_alignment ≡ alignment (tree_in context.now handle) }
    ensures { MatchResult result
        (λ a. FitsUniformBuffer (tree_in context.now handle) × (a ≡ uniform_alignment (tree_in context.now handle)))
        (IsBroken BreaksUniform (types_in context.now) (tree_in context.now handle)) }
{
    if !flags.contains(TypeFlags::HOST_SHAREABLE) {
        return Err((handle, Disalignment::NonHostShareable));
    }
    for place in 0..members.len() {
        check_uniform_member(context, handle, members, place)?;
    }
    if own_alignment.is_aligned(span) {
        Ok(at_least_sixteen(own_alignment))
    } else {
        Err((
            handle,
            Disalignment::StructSpan {
                span,
                alignment: own_alignment,
            },
        ))
    }
}

/// The uniform layout of an array of such elements.
pub(crate) fn uniform_of_array(
    context: &TypeContext<'_>,
    handle: Handle<key::IrType>,
    base: &Facts,
    stride: u32,
) -> LayoutCompatibility
    requires own { IsArrayAt context.now base.now stride handle }
    ensures { MatchResult result
        (λ a. FitsUniformBuffer (tree_in context.now handle) × (a ≡ uniform_alignment (tree_in context.now handle)))
        (IsBroken BreaksUniform (types_in context.now) (tree_in context.now handle)) }
{
    match base.info.uniform_layout {
        Err(broken) => Err(broken),
        Ok(alignment) => {
            if !alignment.is_aligned(stride) {
                return Err((handle, Disalignment::ArrayStride { stride, alignment }));
            }
            if !Alignment::SIXTEEN.is_aligned(stride) {
                return Err((
                    handle,
                    Disalignment::ArrayStride {
                        stride,
                        alignment: Alignment::SIXTEEN,
                    },
                ));
            }
            Ok(at_least_sixteen(base.alignment))
        }
    }
}

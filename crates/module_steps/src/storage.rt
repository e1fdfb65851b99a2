//! Layouts of types in storage buffers.

ghost use Rattle.std.specs.Prelude.{◌≡◌, ◌<◌, All, length, map, MatchResult};
ghost use Rattle.ir_types.specs.judged.Plain.{member_view};
ghost use Rattle.module_steps.specs.Layouts.{IsArrayAt, IsStructAt, IsStructOf, StoragePart};
ghost use Rattle.typing_layout.specs.judged.Buffers.{FitsStorageBuffer};
ghost use Rattle.typing_layout.specs.judged.Layout.{alignment};
ghost use Rattle.module_type_checks.specs.Known.{IsKnown, tree_in, types_in};
ghost use Rattle.module_type_checks.specs.Placed.{parts_in, AtPlace};
ghost use Rattle.typing_layout.specs.found.BufferFaults.{BreaksStorage, IsBroken};
ghost use Rattle.typing_layout.specs.found.Infos.{AreFlags};

use bitflags::Flags;
use ir_arena::handle::Handle;
use ir_types::{StructMember, key};
use module_type_checks::{Facts, TypeContext, member_at};
use typing_layout::{Alignment, Disalignment, LayoutCompatibility, TypeFlags};

/// The reason why the layout of a type is invalid, with the handle of that type.
pub type Broken = (Handle<key::IrType>, Disalignment);

// Whether a member's offset is valid for its type in storage buffers.
fn check_storage_member(
    context: &TypeContext<'_>,
    handle: Handle<key::IrType>,
    members: &[StructMember],
    place: usize,
) -> Result<(), Broken>
    requires known { IsKnown context.now }
    requires named { All (λ m. m.ty < length context.now.infos.now) members.now }
    requires within { place < length members.now }
    requires own { IsStructAt context.now (map member_view members.now) handle }
    ensures { MatchResult result
        (λ _. AtPlace StoragePart (parts_in context.now (map member_view members.now)) place)
        (IsBroken BreaksStorage (types_in context.now) (tree_in context.now handle)) }
{
    let member = member_at(context, members, place);
    match member.facts.info.storage_layout {
        Err(broken) => Err(broken),
        Ok(alignment) => {
            if alignment.is_aligned(member.offset) {
                return Ok(());
            }
            let offset = member.offset;
            Err((
                handle,
                Disalignment::MemberOffset {
                    index: place,
                    offset,
                    alignment,
                },
            ))
        }
    }
}

/// The storage layout of a struct with these members, flags and alignment.
pub fn storage_of_struct(
    context: &TypeContext<'_>,
    handle: Handle<key::IrType>,
    members: &[StructMember],
    span: u32,
    flags: TypeFlags,
    own_alignment: Alignment,
) -> LayoutCompatibility
    requires known { IsKnown context.now }
    requires named { All (λ m. m.ty < length context.now.infos.now) members.now }
    requires own { IsStructOf context.now (map member_view members.now) span handle }
    requires flags { AreFlags flags (tree_in context.now handle) }
    requires aligned { own_alignment ≡ alignment (tree_in context.now handle) }
    ensures { MatchResult result
        (λ a. FitsStorageBuffer (tree_in context.now handle) × (a ≡ alignment (tree_in context.now handle)))
        (IsBroken BreaksStorage (types_in context.now) (tree_in context.now handle)) }
{
    if !flags.contains(TypeFlags::HOST_SHAREABLE) {
        return Err((handle, Disalignment::NonHostShareable));
    }
    for place in 0..members.len() {
        check_storage_member(context, handle, members, place)?;
    }
    if own_alignment.is_aligned(span) {
        Ok(own_alignment)
    } else {
        Err((
            handle,
            Disalignment::StructSpan {
                span,
                alignment: own_alignment,
            },
        ))
    }
}

/// The storage layout of an array of such elements.
pub fn storage_of_array(
    context: &TypeContext<'_>,
    handle: Handle<key::IrType>,
    base: &Facts,
    stride: u32,
) -> LayoutCompatibility
    requires own { IsArrayAt context.now base.now stride handle }
    ensures { MatchResult result
        (λ a. FitsStorageBuffer (tree_in context.now handle) × (a ≡ alignment (tree_in context.now handle)))
        (IsBroken BreaksStorage (types_in context.now) (tree_in context.now handle)) }
{
    match base.info.storage_layout {
        Err(broken) => Err(broken),
        Ok(alignment) => {
            if alignment.is_aligned(stride) {
                return Ok(alignment);
            }
            Err((handle, Disalignment::ArrayStride { stride, alignment }))
        }
    }
}

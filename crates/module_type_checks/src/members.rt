//! Struct members with their offsets.

ghost use Rattle.std.specs.Prelude.{◌≡◌, ◌<◌, ◌≤◌, ◌+◌, ◌⊎◌, ℕ, suc, All, length, map, MatchOption, MatchResult};
ghost use Rattle.typing_layout.specs.judged.Flags.{HasFlag, Sized};
ghost use Rattle.ir_types.specs.judged.Plain.{member_view};
ghost use Rattle.typing_layout.specs.judged.Parts.{item_before};
ghost use Rattle.typing_layout.specs.judged.Structs.{StructOK};
ghost use Rattle.module_type_checks.specs.Known.{IsKnown, types_in, tree_in};
ghost use Rattle.module_type_checks.specs.Placed.{parts_in, IsPlaced, IsBefore, end_after, PlacedOK};
ghost use Rattle.typing_layout.specs.found.MemberFaults.{IsStructFault};

use crate::context::TypeContext;
use crate::facts::{Facts, facts_of};
use bitflags::Flags;
use ir_arena::handle::Handle;
use ir_types::{StructMember, key};
use typing_layout::{TypeError, TypeFlags};

/// A member, with the facts about its type.
#[derive(Clone, Copy)]
pub struct Placed {
    /// Its type.
    pub ty: Handle<key::IrType>,
    /// Its offset in bytes.
    pub offset: u32,
    /// The facts about its type.
    pub facts: Facts,
}

impl Placed {
    /// The end offset of the member.
    pub fn end(&self) -> u64
        ensures { result ≡ self.now.offset + self.now.facts.size }
    {
        u64::from(self.offset) + u64::from(self.facts.size)
    }
}

/// The member at an index.
pub fn member_at(context: &TypeContext<'_>, members: &[StructMember], place: usize) -> Placed
    requires known { IsKnown context.now }
    requires named { All (λ m. m.ty < length context.now.infos.now) members.now }
    requires within { place < length members.now }
    ensures { IsPlaced context.now (map member_view members.now) place result }
{
    let member = &members[place];
    Placed {
        ty: member.ty,
        offset: member.offset,
        facts: facts_of(context, member.ty),
    }
}

/// The member before an index, if there is one.
pub fn member_before(
    context: &TypeContext<'_>,
    members: &[StructMember],
    place: usize,
) -> Option<Placed>
    requires known { IsKnown context.now }
    requires named { All (λ m. m.ty < length context.now.infos.now) members.now }
    requires within { place < length members.now }
    ensures { MatchOption result (place ≡ 0) (IsBefore context.now (map member_view members.now) place) }
{
    if place == 0 {
        return None;
    }
    Some(member_at(context, members, place - 1))
}

// Whether a member is the last one or has a fixed size.
fn check_sized(
    context: &TypeContext<'_>,
    members: &[StructMember],
    place: usize,
    member: Placed,
) -> Result<(), TypeError>
    requires within { place < length members.now }
    requires placed { IsPlaced context.now (map member_view members.now) place member }
    ensures { (span : ℕ) → MatchResult result
        (λ _. suc place < length members.now → HasFlag Sized (tree_in context.now member.ty))
        (IsStructFault (types_in context.now) (map member_view members.now) span) }
{
    if place + 1 == members.len() || member.facts.info.flags.contains(TypeFlags::SIZED) {
        return Ok(());
    }
    Err(TypeError::InvalidDynamicArray {
        index: place,
        ty: member.ty,
    })
}

// Whether a member's offset is 0, or at or after the end of the previous member.
fn check_ordered(
    context: &TypeContext<'_>,
    members: &[StructMember],
    place: usize,
    member: Placed,
) -> Result<(), TypeError>
    requires known { IsKnown context.now }
    requires named { All (λ m. m.ty < length context.now.infos.now) members.now }
    requires within { place < length members.now }
    requires placed { IsPlaced context.now (map member_view members.now) place member }
    ensures { (span : ℕ) → MatchResult result
        (λ _. (member.offset ≡ 0) ⊎ (end_after (item_before (parts_in context.now (map member_view members.now)) place) ≤ member.offset))
        (IsStructFault (types_in context.now) (map member_view members.now) span) }
{
    if member.offset == 0 {
        return Ok(());
    }
    match member_before(context, members, place) {
        None => Ok(()),
        Some(before) => {
            if u64::from(member.offset) < before.end() {
                return Err(TypeError::MemberOverlap {
                    index: place,
                    offset: member.offset,
                });
            }
            Ok(())
        }
    }
}

// Whether a member is valid at its index.
fn check_member(
    context: &TypeContext<'_>,
    members: &[StructMember],
    span: u32,
    place: usize,
) -> Result<(), TypeError>
    requires known { IsKnown context.now }
    requires named { All (λ m. m.ty < length context.now.infos.now) members.now }
    requires within { place < length members.now }
    ensures { MatchResult result
        (λ _. PlacedOK context.now (map member_view members.now) span place)
        (IsStructFault (types_in context.now) (map member_view members.now) span) }
{
    let member = member_at(context, members, place);
    if !member.facts.info.flags.contains(TypeFlags::DATA) {
        return Err(TypeError::InvalidData {
            index: place,
            ty: member.ty,
        });
    }
    check_sized(context, members, place, member)?;
    check_ordered(context, members, place, member)?;
    if u64::from(span) < member.end() {
        return Err(TypeError::MemberOutOfBounds {
            index: place,
            offset: member.offset,
            size: member.facts.size,
            span,
        });
    }
    Ok(())
}

/// Whether a struct may have these members and this span. The error is that of one of its members, or that it is empty.
pub fn check_members(
    context: &TypeContext<'_>,
    members: &[StructMember],
    span: u32,
) -> Result<(), TypeError>
    requires known { IsKnown context.now }
    requires named { All (λ m. m.ty < length context.now.infos.now) members.now }
    ensures { MatchResult result
        (λ _. StructOK (parts_in context.now (map member_view members.now)) span)
        (IsStructFault (types_in context.now) (map member_view members.now) span) }
{
    if members.is_empty() {
        return Err(TypeError::EmptyStruct);
    }
    for place in 0..members.len() {
        check_member(context, members, span, place)?;
    }
    Ok(())
}

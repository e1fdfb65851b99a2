//! Structs with blend sources (dual-source blending).

ghost use Rattle.std.specs.Prelude.{◌≡◌, ◌<◌, ◌+◌, ◌↔◌, Some, None, IsTrue, All, length, map, MatchOption, MatchResult};
ghost use Rattle.ir_types.specs.judged.Plain.{inner_view, member_view};
ghost use Rattle.typing_layout.specs.judged.Blends.{HasSource, BlendLocationOK, BlendOK, binding_location};
ghost use Rattle.typing_layout.specs.judged.Flags.{HasFlag, IoShareable, blend_source};
ghost use Rattle.module_type_checks.specs.Blends.{AreLocated, IsLocationFault, IsLocationFaultIn, IsSole, IsSoleBelow, IsCollision, IsOnlyType, PairOK, IsPairFault, SourcesOK};
ghost use Rattle.module_type_checks.specs.Known.{IsKnown, types_in, tree_in};
ghost use Rattle.typing_layout.specs.found.BlendFaults.{IsAbsent, IsVaryingFault, IsBlendFault};

use crate::{TypeContext, facts_of, type_at};
use bitflags::Flags;
use ir_arena::handle::Handle;
use ir_flags::Capabilities;
use ir_kinds::Binding;
use ir_types::{StructMember, TypeInner, key};
use typing_layout::{TypeError, TypeFlags, VaryingError};

// The location of a member, if it has one.
const fn location_of(binding: Option<Binding>) -> Option<u32>
    ensures { result ≡ binding_location binding }
{
    match binding {
        Some(Binding::Location { location, .. }) => Some(location),
        Some(Binding::BuiltIn(_)) | None => None,
    }
}

// The blend source of a member, if it has one.
const fn source_of(binding: Option<Binding>) -> Option<u32>
    ensures { result ≡ blend_source binding }
{
    match binding {
        Some(Binding::Location { blend_src, .. }) => blend_src,
        Some(Binding::BuiltIn(_)) | None => None,
    }
}

/// Whether a member has a blend source.
pub fn has_source(members: &[StructMember]) -> bool
    ensures { IsTrue result ↔ HasSource (map member_view members.now) }
{
    for place in 0..members.len() {
        if source_of(members[place].binding).is_some() {
            return true;
        }
    }
    false
}

// Whether a member has no location, or has a blend source at location 0.
fn check_location(member: &StructMember) -> Result<(), VaryingError>
    ensures { MatchResult result (λ _. BlendLocationOK (member_view member.now)) (IsLocationFault (member_view member.now)) }
{
    let Some(location) = location_of(member.binding) else {
        return Ok(());
    };
    match source_of(member.binding) {
        None => Err(VaryingError::InvalidBlendSrcWithOtherBindings { location }),
        Some(blend_src) => {
            if location == 0 && blend_src <= 1 {
                return Ok(());
            }
            Err(VaryingError::InvalidBlendSrcIndex {
                location,
                blend_src,
            })
        }
    }
}

// Whether each member has no location, or has a blend source at location 0.
fn check_locations(members: &[StructMember]) -> Result<(), VaryingError>
    ensures { MatchResult result (λ _. AreLocated (map member_view members.now)) (IsLocationFaultIn (map member_view members.now)) }
{
    for place in 0..members.len() {
        check_location(&members[place])?;
    }
    Ok(())
}

// Whether a member has this blend source.
const fn is_source(binding: Option<Binding>, blend_src: u32) -> bool
    ensures { IsTrue result ↔ (blend_source binding ≡ Some blend_src) }
{
    match source_of(binding) {
        Some(source) => source == blend_src,
        None => false,
    }
}

// The index of the only member with a blend source, with one more member considered.
fn sole_with(
    members: &[StructMember],
    blend_src: u32,
    found: Option<usize>,
    place: usize,
) -> Result<Option<usize>, VaryingError>
    requires within { place < length members.now }
    requires sole { IsSoleBelow (map member_view members.now) blend_src found place }
    ensures { MatchResult result
        (λ new. IsSoleBelow (map member_view members.now) blend_src new (place + 1))
        (IsCollision (map member_view members.now) blend_src) }
{
    if !is_source(members[place].binding, blend_src) {
        return Ok(found);
    }
    if found.is_some() {
        return Err(VaryingError::BindingCollisionBlendSrc { blend_src });
    }
    Ok(Some(place))
}

// The index of the only member with this blend source, if there is one.
fn sole_source(members: &[StructMember], blend_src: u32) -> Result<Option<usize>, VaryingError>
    ensures { MatchResult result (IsSole (map member_view members.now) blend_src) (IsCollision (map member_view members.now) blend_src) }
{
    let mut found = None;
    for place in 0..members.len() {
        found = sole_with(members, blend_src, found, place)?;
    }
    Ok(found)
}

// The type of the only member with this blend source, if there is one.
fn sole_type(
    members: &[StructMember],
    blend_src: u32,
) -> Result<Option<Handle<key::IrType>>, VaryingError>
    ensures { MatchResult result
        (λ found. MatchOption found (IsAbsent (map member_view members.now) blend_src) (IsOnlyType (map member_view members.now) blend_src))
        (IsCollision (map member_view members.now) blend_src) }
{
    match sole_source(members, blend_src)? {
        Some(place) => Ok(Some(members[place].ty)),
        None => Ok(None),
    }
}

// Whether two types have equal `TypeInner`s.
fn is_same(left: &TypeInner, right: &TypeInner) -> bool
    ensures { IsTrue result ↔ (inner_view left.now ≡ inner_view right.now) }
{
    *left == *right
}

// Whether an earlier type has the `IO_SHAREABLE` flag.
fn is_shared(context: &TypeContext<'_>, ty: Handle<key::IrType>) -> bool
    requires known { IsKnown context.now }
    requires before { ty < length context.now.infos.now }
    ensures { IsTrue result ↔ HasFlag IoShareable (tree_in context.now ty) }
{
    facts_of(context, ty)
        .info
        .flags
        .contains(TypeFlags::IO_SHAREABLE)
}

// Whether two types are allowed for the two blend sources.
fn check_pair(
    context: &TypeContext<'_>,
    first: Handle<key::IrType>,
    second: Handle<key::IrType>,
) -> Result<(), VaryingError>
    requires known { IsKnown context.now }
    requires first { first < length context.now.infos.now }
    requires second { second < length context.now.infos.now }
    ensures { MatchResult result (λ _. PairOK context.now first second) (IsPairFault context.now first second) }
{
    if !is_same(
        type_at(context.types, first),
        type_at(context.types, second),
    ) {
        return Err(VaryingError::BlendSrcOutputTypeMismatch {
            blend_src_0_type: first,
            blend_src_1_type: second,
        });
    }
    if !is_shared(context, first) {
        return Err(VaryingError::NotIOShareableType(first));
    }
    if !is_shared(context, second) {
        return Err(VaryingError::NotIOShareableType(second));
    }
    Ok(())
}

// Whether each blend source occurs once, and no other member has a location.
fn check_sources(context: &TypeContext<'_>, members: &[StructMember]) -> Result<(), VaryingError>
    requires known { IsKnown context.now }
    requires named { All (λ m. m.ty < length context.now.infos.now) members.now }
    requires has { HasSource (map member_view members.now) }
    ensures { MatchResult result
        (λ _. SourcesOK context.now (map member_view members.now))
        (IsVaryingFault (types_in context.now) (map member_view members.now)) }
{
    check_locations(members)?;
    let Some(first) = sole_type(members, 0)? else {
        return Err(VaryingError::IncompleteBlendSrcUsage {
            present_blend_src: 1,
        });
    };
    let Some(second) = sole_type(members, 1)? else {
        return Err(VaryingError::IncompleteBlendSrcUsage {
            present_blend_src: 0,
        });
    };
    check_pair(context, first, second)
}

/// Whether the blend sources of a struct's members are valid, if there are any.
pub(crate) fn check_blend(
    context: &TypeContext<'_>,
    members: &[StructMember],
) -> Result<(), TypeError>
    requires known { IsKnown context.now }
    requires named { All (λ m. m.ty < length context.now.infos.now) members.now }
    ensures { MatchResult result
        (λ _. HasSource (map member_view members.now) → BlendOK context.now.capabilities (types_in context.now) (map member_view members.now))
        (IsBlendFault context.now.capabilities (types_in context.now) (map member_view members.now)) }
{
    if !has_source(members) {
        return Ok(());
    }
    if !context
        .capabilities
        .contains(Capabilities::DUAL_SOURCE_BLENDING)
    {
        return Err(TypeError::MissingCapability(Capabilities::DUAL_SOURCE_BLENDING));
    }
    match check_sources(context, members) {
        Ok(()) => Ok(()),
        Err(error) => Err(TypeError::InvalidBlendSrc(error)),
    }
}

//! The varyings of an entry point.

ghost use Rattle.std.specs.Prelude.{◌≡◌, ◌<◌, ◌+◌, ◌↔◌, IfOk, IsTrue, MatchOption, MatchResult, length, map, min};
ghost use Rattle.ir_flags.specs.Sets.{Has};
ghost use Rattle.ir_flags.specs.declared.settings.TheConstants.ValidationFlags.{BINDINGS};
ghost use Rattle.ir_items.specs.found.View.{argument_view};
ghost use Rattle.spec_interface.specs.judged.Locations.{LocationOK};
ghost use Rattle.spec_interface.specs.judged.Varyings.{BoundOK, VaryingsOK, argument_varyings, built_in_of, location_of, varyings_of};
ghost use Rattle.spec_interface.specs.declared.varyings.Bound.TheVariants.{BlendSources};
ghost use Rattle.spec_interface.specs.declared.varyings.Direction.TheVariants.{Output};
ghost use Rattle.function_varying_checks.specs.Faults.{IsBlendFault, IsLocationFault, IsMemberFault, IsOwnFault, IsRefusal, IsUnboundFault};
ghost use Rattle.function_varying_checks.specs.View.{IsReported, context_view};
ghost use Rattle.function_varyings.specs.Places.{AreNoted, IsBuiltInAgain, IsFaultAt, IsFine, IsNew, IsTakenAgain};

use crate::shown::{location_of, shows_before};
use bitflags::Flags;
use function_varying_checks::{
    VaryingContext, VaryingError, VaryingRefusal, add_value, argument_varyings, built_in_fault,
    check_location, is_fragment,
};
use ir_arena::handle::Handle;
use ir_flags::ValidationFlags;
use ir_items::FunctionArgument;
use ir_kinds::{Binding, BuiltIn};
use ir_types::key;
use spec_interface::{Bound, Direction, Location, Varying};
use std::alloc::{AllocError, Global};
use std::collections::BTreeSet;

// The error of a value at a location.
fn location_fault(
    context: &VaryingContext<'_>,
    ty: Handle<key::IrType>,
    at: &Location,
) -> Option<VaryingError>
    requires { IsReported context.now }
    ensures { MatchOption result
        (LocationOK (context_view context.now) ty at.now)
        (IsLocationFault (context_view context.now) ty at.now) }
{
    match check_location(context, ty, at) {
        Ok(()) => None,
        Err(error) => Some(error),
    }
}

// Whether varyings of this direction are results.
const fn is_output(direction: Direction) -> bool
    ensures { IsTrue result ↔ (direction ≡ Output) }
{
    match direction {
        Direction::Output => true,
        Direction::Input | Direction::VertexOutput | Direction::PrimitiveOutput => false,
    }
}

// The error of blend sources: only fragment results have them.
fn blend_fault(context: &VaryingContext<'_>) -> Option<VaryingError>
    ensures { MatchOption result
        (BoundOK (context_view context.now) BlendSources)
        (IsBlendFault (context_view context.now)) }
{
    if !is_fragment(context.stage) {
        return Some(VaryingError::InvalidAttributeInStage("blend_src", context.stage));
    }
    if !is_output(context.direction) {
        return Some(VaryingError::InvalidInputAttributeInStage("blend_src", context.stage));
    }
    None
}

// The error of a missing binding, if one is required.
fn unbound_fault(flags: ValidationFlags) -> Option<VaryingError>
    ensures { MatchOption result
        (¬ Has flags.0 BINDINGS.0)
        (IsUnboundFault flags) }
{
    if flags.contains(ValidationFlags::BINDINGS) {
        Some(VaryingError::MissingBinding)
    } else {
        None
    }
}

// An index as `u32`, saturating.
const fn short(place: usize) -> u32
    ensures { result ≡ min place 4294967295 }
{
    if place < 4294967295 {
        place as u32
    } else {
        4294967295
    }
}

// The error of a member without a binding, if one is required.
fn member_fault(flags: ValidationFlags, place: usize) -> Option<VaryingError>
    ensures { MatchOption result
        (¬ Has flags.0 BINDINGS.0)
        (IsMemberFault flags place) }
{
    if flags.contains(ValidationFlags::BINDINGS) {
        Some(VaryingError::MemberMissingBinding(short(place)))
    } else {
        None
    }
}

// The error of a varying by itself. The error in its place is out of memory.
fn own_fault(
    alloc: Global,
    context: &VaryingContext<'_>,
    bound: &Bound,
) -> Result<Option<VaryingError>, AllocError>
    requires { IsReported context.now }
    ensures { IfOk result (λ found. MatchOption found
        (BoundOK (context_view context.now) bound.now)
        (IsOwnFault (context_view context.now) bound.now)) }
{
    match bound {
        Bound::BuiltIn { ty, built_in } => built_in_fault(alloc, context, *ty, *built_in),
        Bound::Location { ty, at } => Ok(location_fault(context, *ty, at)),
        Bound::BlendSources => Ok(blend_fault(context)),
        Bound::Nothing => Ok(unbound_fault(context.flags)),
        Bound::NoMember { place } => Ok(member_fault(context.flags, *place)),
    }
}

// The built-in at an index, if it occurs before.
fn built_in_again(varyings: &[Varying], place: usize) -> Option<BuiltIn>
    requires { place < length varyings.now }
    ensures { MatchOption result (IsNew built_in_of varyings.now place) (IsBuiltInAgain varyings.now place) }
{
    match varyings[place].bound {
        Bound::BuiltIn { ty: _, built_in } => {
            if shows_before(varyings, place, built_in) {
                Some(built_in)
            } else {
                None
            }
        }
        Bound::Location { .. } | Bound::BlendSources | Bound::Nothing | Bound::NoMember { .. } => {
            None
        }
    }
}

// Notes the location at an index, and returns it if it was noted before. The error is out of memory.
fn note_location(
    noted: &mut BTreeSet<u32>,
    varyings: &[Varying],
    place: usize,
) -> Result<Option<u32>, AllocError>
    requires within { place < length varyings.now }
    requires noted { AreNoted noted.old varyings.now place }
    ensures { IfOk result (λ again. MatchOption again
        (IsNew location_of varyings.now place × AreNoted noted.new varyings.now (place + 1))
        (IsTakenAgain varyings.now place)) }
{
    let Some(location) = location_of(&varyings[place].bound) else {
        return Ok(None);
    };
    if noted.insert(location)? {
        Ok(None)
    } else {
        Ok(Some(location))
    }
}

// The error of the varying at an index. The error in its place is out of memory.
fn fault_at(
    alloc: Global,
    context: &VaryingContext<'_>,
    noted: &mut BTreeSet<u32>,
    varyings: &[Varying],
    place: usize,
) -> Result<Option<VaryingError>, AllocError>
    requires told { IsReported context.now }
    requires within { place < length varyings.now }
    requires noted { Has context.now.flags.0 BINDINGS.0 → AreNoted noted.old varyings.now place }
    ensures { IfOk result (λ found. MatchOption found
        (IsFine (context_view context.now) varyings.now place × (Has context.now.flags.0 BINDINGS.0 → AreNoted noted.new varyings.now (place + 1)))
        (IsFaultAt (context_view context.now) varyings.now place)) }
{
    match own_fault(alloc, context, &varyings[place].bound) {
        Ok(None) => {}
        Ok(Some(error)) => return Ok(Some(error)),
        Err(error) => return Err(error),
    }
    if let Some(built_in) = built_in_again(varyings, place) {
        return Ok(Some(VaryingError::DuplicateBuiltIn(built_in)));
    }
    if !context.flags.contains(ValidationFlags::BINDINGS) {
        return Ok(None);
    }
    match note_location(noted, varyings, place) {
        Ok(None) => Ok(None),
        Ok(Some(location)) => Ok(Some(VaryingError::BindingCollision { location })),
        Err(error) => Err(error),
    }
}

// Whether varyings are valid.
fn check_varyings(
    alloc: Global,
    context: &VaryingContext<'_>,
    varyings: &[Varying],
) -> Result<(), VaryingRefusal>
    requires { IsReported context.now }
    ensures { MatchResult result
        (λ _. VaryingsOK (context_view context.now) varyings.now)
        (IsRefusal (context_view context.now) varyings.now) }
{
    let mut noted = BTreeSet::new(alloc);
    for place in 0..varyings.len() {
        match fault_at(alloc, context, &mut noted, varyings, place) {
            Ok(None) => {}
            Ok(Some(error)) => {
                return Err(VaryingRefusal::Fault {
                    index: varyings[place].index,
                    error,
                });
            }
            Err(error) => return Err(VaryingRefusal::Memory(error)),
        }
    }
    Ok(())
}

// These varyings, if they are valid.
fn accepted(
    alloc: Global,
    context: &VaryingContext<'_>,
    varyings: Vec<Varying>,
) -> Result<Vec<Varying>, VaryingRefusal>
    requires { IsReported context.now }
    ensures { MatchResult result
        (λ found. (found.items ≡ varyings.items) × VaryingsOK (context_view context.now) found.items)
        (IsRefusal (context_view context.now) varyings.items) }
{
    match check_varyings(alloc, context, &varyings) {
        Ok(()) => Ok(varyings),
        Err(refusal) => Err(refusal),
    }
}

/// The varyings of an entry point's arguments, if they are valid (naga's `VaryingContext::validate` for each). The direction of
/// the context is that of inputs.
///
/// # Errors
///
/// [`VaryingRefusal::Fault`] for an invalid one (the first, which no clause states), with the index of its argument;
/// [`VaryingRefusal::Memory`] if there is no memory for the varyings, their locations or the details of an error.
pub fn validate_arguments(
    alloc: Global,
    context: &VaryingContext<'_>,
    arguments: &[FunctionArgument],
) -> Result<Vec<Varying>, VaryingRefusal>
    requires { IsReported context.now }
    ensures { MatchResult result
        (λ found. (found.items ≡ argument_varyings (context_view context.now).types (map argument_view arguments.now)) × VaryingsOK (context_view context.now) found.items)
        (IsRefusal (context_view context.now) (argument_varyings (context_view context.now).types (map argument_view arguments.now))) }
{
    match argument_varyings(alloc, context.types, arguments) {
        Ok(varyings) => accepted(alloc, context, varyings),
        Err(error) => Err(VaryingRefusal::Memory(error)),
    }
}

/// The varyings of a value or the members of its type, if they are valid: of a result or, without a binding, of the vertices or
/// primitives of a mesh shader (naga's `VaryingContext::validate`).
///
/// # Errors
///
/// [`VaryingRefusal::Fault`] for an invalid one (the first, which no clause states); [`VaryingRefusal::Memory`] if there is no
/// memory for the varyings, their locations or the details of an error.
pub fn validate_value(
    alloc: Global,
    context: &VaryingContext<'_>,
    ty: Handle<key::IrType>,
    binding: Option<Binding>,
) -> Result<Vec<Varying>, VaryingRefusal>
    requires { IsReported context.now }
    ensures { MatchResult result
        (λ found. (found.items ≡ varyings_of (context_view context.now).types 0 ty binding) × VaryingsOK (context_view context.now) found.items)
        (IsRefusal (context_view context.now) (varyings_of (context_view context.now).types 0 ty binding)) }
{
    let mut varyings = Vec::new(alloc);
    match add_value(context.types, &mut varyings, 0, ty, binding) {
        Ok(()) => accepted(alloc, context, varyings),
        Err(error) => Err(VaryingRefusal::Memory(error)),
    }
}

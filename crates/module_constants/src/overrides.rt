//! The checks of one override.

ghost use Rattle.std.specs.Prelude.{◌≡◌, ◌<◌, ◌+◌, ◌↔◌, ℕ, IsTrue, Contains, Some, length, IfOk, IfErr, OnOk, OnErr, MatchResult};
ghost use Rattle.module_constants.specs.Overrides.{IsFaultOf};
ghost use Rattle.ir_items.specs.found.GlobalView.{override_view};
ghost use Rattle.module_constants.specs.Ids.{AreIds, AreIdsOrMore, IsNotedIf, IsSeen};
ghost use Rattle.module_constants.specs.Known.{IsKnown, module_in};
ghost use Rattle.module_constants.specs.Kinds.{integer_scalars, float_scalars};
ghost use Rattle.module_constants.specs.Refusals.{IsDefaultFault, IsFineBesideId, IsOverrideRefusal};
ghost use Rattle.spec_expressions.specs.judged.Overrides.{override_scalars, IsOverrideType, DefaultOK, OverrideOK};
ghost use Rattle.typing_forms.specs.judged.Resolutions.{types_view};

use crate::OverrideError;
use crate::context::{GlobalContext, has_type, is_composed, known_kind};
use crate::ids::OverrideIds;
use ir_arena::handle::Handle;
use ir_items::Override;
use ir_kinds::Scalar;
use ir_sets::unique_arena::UniqueArena;
use ir_types::refusal::Refusal;
use ir_types::with_span::WithSpan;
use ir_types::{IrType, TypeInner, key};
use std::alloc::{AllocError, Global};
use typing_forms::inner_of;
use typing_layout::ExpressionKind;

// Whether a scalar is a bool or an integer that a pipeline can set.
fn is_override_integer(scalar: Scalar) -> bool
    ensures { IsTrue result ↔ Contains integer_scalars scalar }
{
    scalar == Scalar::BOOL || scalar == Scalar::I32 || scalar == Scalar::U32
}

// Whether a scalar is a float that a pipeline can set.
fn is_override_float(scalar: Scalar) -> bool
    ensures { IsTrue result ↔ Contains float_scalars scalar }
{
    scalar == Scalar::F16 || scalar == Scalar::F32 || scalar == Scalar::F64
}

// Whether a pipeline can set a value of this scalar.
#[tactic(auto, using(crate::proofs::ScalarLemmas::either_kind, crate::proofs::ScalarLemmas::of_integers, crate::proofs::ScalarLemmas::of_floats))]
fn is_override_scalar(scalar: Scalar) -> bool
    ensures { IsTrue result ↔ Contains override_scalars scalar }
{
    is_override_integer(scalar) || is_override_float(scalar)
}

// Whether the type at a handle is a scalar that a pipeline can set.
fn is_override_type(types: &UniqueArena<IrType, key::IrType>, ty: Handle<key::IrType>) -> bool
    ensures { IsTrue result ↔ IsOverrideType (types_view types.now) ty }
{
    let Some(inner) = inner_of(types, ty) else {
        return false;
    };
    match *inner {
        TypeInner::Scalar(scalar) => is_override_scalar(scalar),
        TypeInner::Vector { .. }
        | TypeInner::Matrix { .. }
        | TypeInner::CooperativeMatrix { .. }
        | TypeInner::Atomic(_)
        | TypeInner::Pointer { .. }
        | TypeInner::ValuePointer { .. }
        | TypeInner::Array { .. }
        | TypeInner::Struct { .. }
        | TypeInner::Image { .. }
        | TypeInner::Sampler { .. }
        | TypeInner::AccelerationStructure { .. }
        | TypeInner::RayQuery { .. }
        | TypeInner::BindingArray { .. } => false,
    }
}

// Whether an override of a type may have this initializer.
fn check_default(
    context: &GlobalContext<'_>,
    ty: Handle<key::IrType>,
    init: Option<Handle<key::Expression>>,
) -> Result<(), OverrideError>
    requires known { IsKnown context.now }
    requires within { (e : ℕ) → init ≡ Some e → e < length context.now.forms.now }
    ensures { MatchResult result
        (λ _. DefaultOK context.now.overrides_resolved (module_in context.now) ty init)
        (IsDefaultFault context.now.overrides_resolved (module_in context.now) ty init) }
{
    let Some(value) = init else {
        if context.overrides_resolved {
            return Err(OverrideError::UninitializedOverride);
        }
        return Ok(());
    };
    if known_kind(context, value) == ExpressionKind::Runtime {
        return Err(OverrideError::InitializerExprType);
    }
    if !has_type(context, value, ty) {
        return Err(OverrideError::InvalidType);
    }
    Ok(())
}

// Whether an override is valid, its id aside.
fn check_beside_id(context: &GlobalContext<'_>, item: &Override) -> Result<(), OverrideError>
    requires known { IsKnown context.now }
    requires ty { item.now.ty < length context.now.infos.now }
    requires init { (e : ℕ) → item.now.init ≡ Some e → e < length context.now.forms.now }
    ensures { MatchResult result
        (λ _. IsFineBesideId context.now.overrides_resolved (module_in context.now) (override_view item.now))
        (λ e. (handle : ℕ) → IsFaultOf context.now.overrides_resolved (module_in context.now) handle (override_view item.now) e) }
{
    if item.name.is_none() && item.id.is_none() {
        return Err(OverrideError::MissingNameAndID);
    }
    if !is_composed(context, item.ty) {
        return Err(OverrideError::NonConstructibleType);
    }
    if !is_override_type(&context.module.types, item.ty) {
        return Err(OverrideError::TypeNotScalar);
    }
    check_default(context, item.ty, item.init)
}

// Inserts the id of an override, if it has one, and returns whether it is new. The error is out of memory.
fn note_id(ids: &mut OverrideIds, id: Option<u16>) -> Result<bool, AllocError>
    ensures noted { IfOk result (IsNotedIf ids.old ids.new id) }
    ensures err { OnErr result ((other : ℕ) → IsSeen ids.new other ↔ IsSeen ids.old other) }
{
    match id {
        Some(id) => {
            let own = ids.insert(id)?;
            Ok(own)
        }
        None => Ok(true),
    }
}

/// Whether the override at a handle is valid (naga's `validate_override`). `ids` are those of the overrides before
/// it; its own is inserted.
///
/// # Errors
///
/// It has neither a name nor an id, an earlier override has its id, its type is not a scalar that an override may have, its
/// initializer is a runtime expression or has another type, or it has none and overrides are resolved: each is returned
/// only if its condition holds, with no span. Or out of memory. After an error the ids are those of the overrides before it,
/// possibly with its own.
pub fn validate_override(
    alloc: Global,
    context: &GlobalContext<'_>,
    ids: &mut OverrideIds,
    handle: Handle<key::Override>,
) -> Result<(), Refusal<OverrideError>>
    requires known { IsKnown context.now }
    requires within { handle < length context.now.«module».now.overrides }
    requires ids { AreIds (module_in context.now).overrides handle ids.old }
    ensures accepted { IfOk result (λ _. OverrideOK context.now.overrides_resolved (module_in context.now) handle) }
    ensures added { OnOk result (AreIds (module_in context.now).overrides (handle + 1) ids.new) }
    ensures refused { IfErr result (IsOverrideRefusal context.now.overrides_resolved (module_in context.now) handle) }
    ensures left { OnErr result (AreIdsOrMore (module_in context.now).overrides handle ids.new) }
{
    let item = &context.module.overrides[handle];
    if !note_id(ids, item.id)? {
        return Err(Refusal::Fault(WithSpan::new(alloc, OverrideError::DuplicateID)));
    }
    match check_beside_id(context, item) {
        Ok(()) => Ok(()),
        Err(error) => Err(Refusal::Fault(WithSpan::new(alloc, error))),
    }
}

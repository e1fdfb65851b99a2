//! The check of all types of a module.

ghost use Rattle.std.specs.Prelude.{◌≡◌, ◌<◌, ◌≤◌, length, IfOk, IfErr, MatchResult};
ghost use Rattle.module_context.specs.AcceptedTypes.{IsAccepted, AreAcceptedBelow, AreAccepted};
ghost use Rattle.module_steps.specs.Validated.{IsRefusedFor, IsNextRefused, IsRefusal};
ghost use Rattle.module_type_checks.specs.Known.{IsKnown, types_in};
ghost use Rattle.typing_forms.specs.judged.Order.{TypesGoBack};
ghost use Rattle.typing_forms.specs.judged.Resolutions.{types_view};
ghost use Rattle.typing_layout.specs.found.Held.{AreLayouts};

use crate::info::info_of;
use ir_arena::handle::Handle;
use ir_flags::Capabilities;
use ir_sets::unique_arena::UniqueArena;
use ir_types::refusal::Refusal;
use ir_types::with_span::WithSpan;
use ir_types::{IrType, key};
use module_type_checks::{TypeContext, check_type};
use std::alloc::Global;
use thiserror::Error;
use typing_layout::{Layouter, TypeError, TypeInfo};

/// An invalid type (naga's `ValidationError::Type`).
#[derive(Clone, Copy, PartialEq, Debug, Error)]
#[error("type {ty:?} is invalid: {error}")]
pub struct InvalidType {
    /// The handle of the type.
    pub ty: Handle<key::IrType>,
    /// Its error.
    pub error: TypeError,
}

/// The `TypeInfo` of the type at a handle if it is valid, given those of earlier types (naga's
/// `validate_type`).
///
/// # Errors
///
/// An error of the type, returned only if its condition holds, with its details. If several hold, it is one of
/// them.
pub fn validate_type(
    context: &TypeContext<'_>,
    handle: Handle<key::IrType>,
) -> Result<TypeInfo, TypeError>
    requires known { IsKnown context.now }
    requires before { handle ≤ length context.now.infos.now }
    requires laid { handle < length context.now.layouter.now }
    requires within { handle < length context.now.types.now }
    ensures { MatchResult result
        (IsAccepted context.now.capabilities context.now.overrides_resolved (types_in context.now) handle)
        (IsRefusedFor context.now.capabilities context.now.overrides_resolved (types_in context.now) handle) }
{
    match check_type(context, handle) {
        Ok(()) => Ok(info_of(context, handle)),
        Err(error) => Err(error),
    }
}

// The `TypeInfo` of the next type.
fn validate_next(
    capabilities: Capabilities,
    overrides_resolved: bool,
    types: &UniqueArena<IrType, key::IrType>,
    layouter: &Layouter,
    infos: &[TypeInfo],
    ty: Handle<key::IrType>,
) -> Result<TypeInfo, InvalidType>
    requires back { TypesGoBack (types_view types.now) }
    requires held { AreLayouts (types_view types.now) layouter.now }
    requires all { length layouter.now ≡ length types.now }
    requires within { ty < length types.now }
    requires accepted { AreAcceptedBelow capabilities overrides_resolved (types_view types.now) infos.now ty }
    ensures { MatchResult result
        (IsAccepted capabilities overrides_resolved (types_view types.now) ty)
        (IsNextRefused capabilities overrides_resolved (types_view types.now) ty) }
{
    let context = TypeContext {
        capabilities,
        overrides_resolved,
        types,
        layouter,
        infos,
    };
    match validate_type(&context, ty) {
        Ok(info) => Ok(info),
        Err(error) => Err(InvalidType { ty, error }),
    }
}

/// The `TypeInfo`s of a module's types, for these capabilities, with overrides resolved or not. Each type is
/// visited once, with its members.
///
/// # Errors
///
/// The first invalid type, with one of its errors and no span; or out of memory.
pub fn validate_types(
    alloc: Global,
    capabilities: Capabilities,
    overrides_resolved: bool,
    types: &UniqueArena<IrType, key::IrType>,
    layouter: &Layouter,
) -> Result<Vec<TypeInfo>, Refusal<InvalidType>>
    requires back { TypesGoBack (types_view types.now) }
    requires held { AreLayouts (types_view types.now) layouter.now }
    requires all { length layouter.now ≡ length types.now }
    ensures accepted { IfOk result (λ infos. AreAccepted capabilities overrides_resolved (types_view types.now) infos.items) }
    ensures refused { IfErr result (IsRefusal capabilities overrides_resolved (types_view types.now)) }
{
    let mut infos = Vec::with_capacity(alloc, types.len())?;
    for place in 0..types.len() {
        let next = validate_next(
            capabilities,
            overrides_resolved,
            types,
            layouter,
            infos.as_slice(),
            Handle::at(place),
        );
        match next {
            Ok(info) => infos.push(info)?,
            Err(error) => return Err(Refusal::Fault(WithSpan::new(alloc, error))),
        }
    }
    Ok(infos)
}

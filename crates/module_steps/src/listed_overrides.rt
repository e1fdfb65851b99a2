//! The check of all overrides of a module.

ghost use Rattle.std.specs.Prelude.{length, IfOk, IfErr};
ghost use Rattle.module_constants.specs.Firsts.{AreAccepted};
ghost use Rattle.module_constants.specs.Known.{IsKnown, module_in};
ghost use Rattle.module_steps.specs.OverrideRefusals.{IsReportedAt, IsRefusal};
ghost use Rattle.spec_expressions.specs.judged.Overrides.{OverrideOK};

use ir_arena::handle::Handle;
use ir_types::key;
use ir_types::refusal::Refusal;
use ir_types::with_span::WithSpan;
use module_constants::{GlobalContext, OverrideError, OverrideIds, validate_override};
use std::alloc::Global;
use thiserror::Error;

/// An invalid override (naga's `ValidationError::Override`).
#[derive(Clone, Copy, PartialEq, Debug, Error)]
#[error("override {id:?} is invalid: {error}")]
pub struct InvalidOverride {
    /// The handle of the override.
    pub id: Handle<key::Override>,
    /// Its error.
    pub error: OverrideError,
}

// The error of an override, as the error of the list.
fn refusal_at(
    alloc: Global,
    id: Handle<key::Override>,
    refusal: Refusal<OverrideError>,
) -> Refusal<InvalidOverride>
    ensures { IsReportedAt id refusal result }
{
    match refusal {
        Refusal::Memory(error) => Refusal::Memory(error),
        Refusal::Fault(fault) => Refusal::Fault(WithSpan::new(
            alloc,
            InvalidOverride {
                id,
                error: fault.into_inner(),
            },
        )),
    }
}

/// Whether all overrides of a module are valid. Each is visited once; ids are kept in a bitset.
///
/// # Errors
///
/// The first invalid override, with one of its errors and no span; or out of memory.
pub fn validate_overrides(
    alloc: Global,
    context: &GlobalContext<'_>,
) -> Result<(), Refusal<InvalidOverride>>
    requires known { IsKnown context.now }
    ensures accepted { IfOk result (λ _. AreAccepted
        (OverrideOK context.now.overrides_resolved (module_in context.now))
        (length (module_in context.now).overrides)) }
    ensures refused { IfErr result (IsRefusal context.now.overrides_resolved (module_in context.now)) }
{
    let mut ids = OverrideIds::new(alloc);
    for place in 0..context.module.overrides.len() {
        let id = Handle::at(place);
        match validate_override(alloc, context, &mut ids, id) {
            Ok(()) => {}
            Err(refusal) => return Err(refusal_at(alloc, id, refusal)),
        }
    }
    Ok(())
}

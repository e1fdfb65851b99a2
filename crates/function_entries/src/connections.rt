//! The interface of an entry point: with other stages, and with hosts.

ghost use Rattle.std.specs.Prelude.{◌≡◌, ◌<◌, ◌↔◌, IfSome, IsTrue, MatchResult, OnOk, length};
ghost use Rattle.function_entry_checks.specs.Faults.{IsRefusedFor};
ghost use Rattle.function_entries.specs.ConnectionFaults.{IsConnectionFault};
ghost use Rattle.function_entries.specs.Contexts.{AreSharedIn, IsKnown, entry_in, module_in};
ghost use Rattle.ir_items.specs.declared.entries.MeshStageInfo.{MeshStageInfo};
ghost use Rattle.spec_expressions.specs.judged.Summaries.{HasUseBit};
ghost use Rattle.spec_interface.specs.judged.Entries.{ConnectionsOK};
ghost use Rattle.spec_interface.specs.judged.Varyings.{HasBlendSources, result_varyings};

use crate::context::EntryContext;
use crate::known::KnownInterfaces;
use crate::outputs::check_mesh;
use crate::varyings::{check_arguments, check_result};
use function_entry_checks::{EntryPointError, check_variables};
use ir_types::refusal::Refusal;
use spec_expressions::GlobalUse;
use std::alloc::Global;

/// Whether the interface of an entry point with other stages and with hosts is valid, given its uses of global variables; then
/// whether its results have two blend sources.
///
/// Requires uses for all global variables, and that the output variable of a mesh shader exists.
///
/// # Errors
///
/// [`Refusal::Fault`] with an error whose condition holds: of the arguments, the result, the used variables, or the mesh output
/// (the first of these, which no clause states); [`Refusal::Memory`] if out of memory.
pub fn check_connections(
    alloc: Global,
    context: &EntryContext<'_>,
    uses: &[GlobalUse],
) -> Result<bool, Refusal<EntryPointError>>
    requires known { IsKnown context.now }
    requires many { length uses.now ≡ length (module_in context.now).globals }
    requires output { IfSome (entry_in context.now).mesh (λ (i : MeshStageInfo). i.output_variable < length (module_in context.now).globals) }
    ensures { let m = module_in context.now in
        let e = entry_in context.now in
        MatchResult result
        (λ blended. ConnectionsOK context.now.flags context.now.capabilities m e (HasUseBit uses.now) × (IsTrue blended ↔ HasBlendSources (result_varyings m.types e.function.result)))
        (IsRefusedFor (IsConnectionFault context.now.flags context.now.capabilities m e (HasUseBit uses.now))) }
{
    let mut known = KnownInterfaces::new(alloc);
    check_connections_with(alloc, context, uses, &mut known)
}

/// The same, where `known` has the facts found for earlier entry points of the module, under the same flags and capabilities;
/// new facts are added.
///
/// # Errors
///
/// Those of [`check_connections`].
pub fn check_connections_with(
    alloc: Global,
    context: &EntryContext<'_>,
    uses: &[GlobalUse],
    known: &mut KnownInterfaces,
) -> Result<bool, Refusal<EntryPointError>>
    requires told { IsKnown context.now }
    requires known { AreSharedIn context.now known.old }
    requires many { length uses.now ≡ length (module_in context.now).globals }
    requires output { IfSome (entry_in context.now).mesh (λ (i : MeshStageInfo). i.output_variable < length (module_in context.now).globals) }
    ensures known { OnOk result (AreSharedIn context.now known.new) }
    ensures judged { let m = module_in context.now in
        let e = entry_in context.now in
        MatchResult result
        (λ blended. ConnectionsOK context.now.flags context.now.capabilities m e (HasUseBit uses.now) × (IsTrue blended ↔ HasBlendSources (result_varyings m.types e.function.result)))
        (IsRefusedFor (IsConnectionFault context.now.flags context.now.capabilities m e (HasUseBit uses.now))) }
{
    match check_arguments(alloc, context, &mut known.varyings) {
        Ok(()) => {}
        Err(refusal) => return Err(refusal),
    }
    let blended = match check_result(alloc, context, &mut known.varyings) {
        Ok(blended) => blended,
        Err(refusal) => return Err(refusal),
    };
    match check_variables(alloc, context.flags, context.module, context.entry, uses) {
        Ok(()) => {}
        Err(refusal) => return Err(refusal),
    }
    match &context.entry.mesh_info {
        None => Ok(blended),
        Some(mesh) => match check_mesh(alloc, context, known, mesh) {
            Ok(()) => Ok(blended),
            Err(refusal) => Err(refusal),
        },
    }
}

//! Whether an entry point is valid.

ghost use Rattle.std.specs.Prelude.{◌<◌, ◌↔◌, IfErr, IfOk, IfSome, IsTrue, MatchResult, OnOk, length, map};
ghost use Rattle.function_entry_checks.specs.Faults.{IsRefusedFor};
ghost use Rattle.function_entries.specs.Interfaces.{AreInterfacesKnown};
ghost use Rattle.function_whole.specs.EntryFaults.{IsEntryPointFaultAt, IsRefusedAs, IsRefusedAt, IsReportedAs};
ghost use Rattle.function_whole.specs.Validated.{IsEntryValidated};
ghost use Rattle.function_interface.specs.Question.{question};
ghost use Rattle.ir_flags.specs.Sets.{Has};
ghost use Rattle.ir_items.specs.found.View.{entry_view, module_view};
ghost use Rattle.ir_items.specs.declared.entries.MeshStageInfo.{MeshStageInfo};
ghost use Rattle.ir_items.specs.found.Filters.{ParentsPrecede};
ghost use Rattle.spec_expressions.specs.judged.CallChains.{HasUse};
ghost use Rattle.spec_expressions.specs.judged.Summaries.{CalleesKnown};
ghost use Rattle.spec_expressions.specs.judged.FunctionHandles.{HandlesInRange, OperandsPrecede};
ghost use Rattle.spec_interface.specs.judged.Contexts.{stage_set};
ghost use Rattle.function_statement_checks.specs.Descriptors.{AreDescriptors};

use crate::connect::connect;
use crate::validate::{Validated, validate_function_with};
use bitflags::Flags;
use function_entries::KnownInterfaces;
use function_entry_checks::{EntryPointError, check_payload, check_stage, stage_set};
use function_interface::Lower;
use ir_arena::handle::Handle;
use ir_flags::Settings;
use ir_items::{EntryPoint, Module};
use ir_kinds::ShaderStage;
use ir_places::Trail;
use ir_types::key;
use ir_types::refusal::Refusal;
use ir_types::with_span::WithSpan;
use std::alloc::Global;
use typing_errors::FunctionError;

// Wraps a refusal of its function as one of an entry point.
fn reported_of_function(alloc: Global, refusal: Refusal<FunctionError>) -> Refusal<EntryPointError>
    ensures { IsReportedAs refusal result }
{
    match refusal {
        Refusal::Memory(error) => Refusal::Memory(error),
        Refusal::Fault(fault) => Refusal::Fault(WithSpan::new(
            alloc,
            EntryPointError::Function(fault.into_inner()),
        )),
    }
}

// Whether a stage may run a function, by its information.
fn allows_stage<L: Lower>(lower: &L, info: &L::Info, stage: ShaderStage) -> bool
    ensures { IsTrue result ↔ Has (L.noted lower.now info.now).0 (stage_set stage).0 }
{
    lower.stages(info).contains(stage_set(stage))
}

/// Whether an entry point is valid, and the information on it (naga's `validate_entry_point`); that no earlier one of the stage
/// has its name is checked elsewhere. `callees` has the results of [`validate_function`](crate::validate_function) for the
/// functions of the module, in order, in which stages and uses may have been noted since. `held` is the payload type of the
/// functions and the entry points before it, if any.
///
/// Requires that the layer was made for the module, and that its handles are in order, as in a module that
/// `validate_module_handles` accepts.
///
/// # Errors
///
/// [`Refusal::Fault`] exactly if the entry point is invalid, with an error whose condition holds and no span, of the first
/// invalid part, which no clause states: its stage, its function ([`EntryPointError::Function`]), its payload, operations that
/// its stage forbids ([`EntryPointError::ForbiddenStageOperations`]), its arguments, its result, the global variables that it
/// uses, and its mesh output. The trail is that of its function. [`Refusal::Memory`] if out of memory.
pub fn validate_entry_point<L: Lower>(
    lower: &L,
    alloc: Global,
    trail: &mut Trail,
    settings: Settings,
    held: Option<Handle<key::IrType>>,
    module: &Module,
    entry: &EntryPoint,
    callees: &[L::Info],
) -> Result<Validated<L::Info>, Refusal<EntryPointError>>
    requires made { L.is_for lower.now (module_view «module».now) }
    requires handles { HandlesInRange (module_view «module».now) (entry_view entry.now).function }
    requires precede { OperandsPrecede (entry_view entry.now).function.expressions }
    requires parents { ParentsPrecede (module_view «module».now).filters }
    requires payload { IfSome entry.now.task_payload (λ g. g < length (module_view «module».now).globals) }
    requires output { IfSome entry.now.mesh_info (λ (i : MeshStageInfo). i.output_variable < length (module_view «module».now).globals) }
    requires known { CalleesKnown (module_view «module».now) (entry_view entry.now).function (map (L.summary lower.now) callees.now) }
    ensures judged { let m = module_view «module».now in
        let e = entry_view entry.now in
        let q = question m e.function (map (L.summary lower.now) callees.now) (map (L.noted lower.now) callees.now) in
        MatchResult result
        (λ v. IsEntryValidated (L.reading lower.now q) q.stages settings held m e (L.summary lower.now v.info) (L.noted lower.now v.info) (L.blending lower.now v.info) v.held)
        (IsRefusedFor (IsRefusedAs (L.reading lower.now q) (L.faults lower.now q) q.stages (HasUse m e.function) settings held m e)) }
    ensures placed { let m = module_view «module».now in
        let e = entry_view entry.now in
        let q = question m e.function (map (L.summary lower.now) callees.now) (map (L.noted lower.now) callees.now) in
        IfErr result (IsRefusedAt trail.new (IsEntryPointFaultAt (L.reading lower.now q) (L.faults lower.now q) q.stages (HasUse m e.function) settings held m e)) }
    ensures own { IfOk result (λ v. L.own lower.now (module_view «module».now) (entry_view entry.now).function v.info) }
{
    let mut known = KnownInterfaces::new(alloc);
    validate_entry_point_with(
        lower,
        alloc,
        trail,
        settings,
        held,
        module,
        entry,
        callees,
        &[],
        &mut known,
    )
}

/// The same, where `descriptors` marks the types equivalent to the module's ray descriptor type, found once for all its entry
/// points (`descriptors_of` of `function_statement_checks`), and `known` has the facts found for the interfaces of earlier
/// ones, under the same flags and capabilities.
///
/// # Errors
///
/// Those of [`validate_entry_point`].
pub fn validate_entry_point_with<L: Lower>(
    lower: &L,
    alloc: Global,
    trail: &mut Trail,
    settings: Settings,
    held: Option<Handle<key::IrType>>,
    module: &Module,
    entry: &EntryPoint,
    callees: &[L::Info],
    descriptors: &[bool],
    known: &mut KnownInterfaces,
) -> Result<Validated<L::Info>, Refusal<EntryPointError>>
    requires made { L.is_for lower.now (module_view «module».now) }
    requires handles { HandlesInRange (module_view «module».now) (entry_view entry.now).function }
    requires precede { OperandsPrecede (entry_view entry.now).function.expressions }
    requires parents { ParentsPrecede (module_view «module».now).filters }
    requires marked { AreDescriptors (module_view «module».now).types (module_view «module».now).special.ray_desc descriptors.now }
    requires interfaces { AreInterfacesKnown settings.flags settings.capabilities (module_view «module».now).types known.old }
    requires payload { IfSome entry.now.task_payload (λ g. g < length (module_view «module».now).globals) }
    requires output { IfSome entry.now.mesh_info (λ (i : MeshStageInfo). i.output_variable < length (module_view «module».now).globals) }
    requires known { CalleesKnown (module_view «module».now) (entry_view entry.now).function (map (L.summary lower.now) callees.now) }
    ensures interfaces { OnOk result (AreInterfacesKnown settings.flags settings.capabilities (module_view «module».now).types known.new) }
    ensures judged { let m = module_view «module».now in let e = entry_view entry.now in
        let q = question m e.function (map (L.summary lower.now) callees.now) (map (L.noted lower.now) callees.now) in MatchResult result
        (λ v. IsEntryValidated (L.reading lower.now q) q.stages settings held m e (L.summary lower.now v.info) (L.noted lower.now v.info) (L.blending lower.now v.info) v.held)
        (IsRefusedFor (IsRefusedAs (L.reading lower.now q) (L.faults lower.now q) q.stages (HasUse m e.function) settings held m e)) }
    ensures placed { let m = module_view «module».now in
        let e = entry_view entry.now in
        let q = question m e.function (map (L.summary lower.now) callees.now) (map (L.noted lower.now) callees.now) in
        IfErr result (IsRefusedAt trail.new (IsEntryPointFaultAt (L.reading lower.now q) (L.faults lower.now q) q.stages (HasUse m e.function) settings held m e)) }
    ensures own { IfOk result (λ v. L.own lower.now (module_view «module».now) (entry_view entry.now).function v.info) }
{
    match check_stage(settings.capabilities, entry) {
        Ok(()) => {}
        Err(error) => return Err(Refusal::Fault(WithSpan::new(alloc, error))),
    }
    let validated = match validate_function_with(
        lower,
        alloc,
        trail,
        settings,
        true,
        held,
        module,
        &entry.function,
        callees,
        descriptors,
    ) {
        Ok(validated) => validated,
        Err(refusal) => return Err(reported_of_function(alloc, refusal)),
    };
    match check_payload(module, entry) {
        Ok(()) => {}
        Err(error) => return Err(Refusal::Fault(WithSpan::new(alloc, error))),
    }
    if !allows_stage(lower, &validated.info, entry.stage) {
        let error = EntryPointError::ForbiddenStageOperations;
        return Err(Refusal::Fault(WithSpan::new(alloc, error)));
    }
    match connect(lower, alloc, settings, module, entry, validated.info, known) {
        Ok(info) => Ok(Validated {
            info,
            held: validated.held,
        }),
        Err(refusal) => Err(refusal),
    }
}

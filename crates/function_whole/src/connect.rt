//! The interface of an entry point with other stages and with hosts, given the information on its function.

ghost use Rattle.std.specs.Prelude.{◌≡◌, ◌<◌, ◌↔◌, ◌||◌, IfOk, IfSome, IsTrue, MatchResult, OnOk, false, length};
ghost use Rattle.function_entry_checks.specs.Faults.{IsRefusedFor};
ghost use Rattle.function_entries.specs.Interfaces.{AreInterfacesKnown};
ghost use Rattle.function_whole.specs.EntryFaults.{IsUnconnected};
ghost use Rattle.function_whole.specs.Validated.{AddsOwnUses, ReportsSame};
ghost use Rattle.ir_items.specs.judged.Plain.{PlainFunction, PlainModule};
ghost use Rattle.ir_items.specs.found.View.{entry_view, module_view};
ghost use Rattle.ir_items.specs.declared.entries.MeshStageInfo.{MeshStageInfo};
ghost use Rattle.spec_expressions.specs.judged.Summaries.{HasUseBit};
ghost use Rattle.spec_interface.specs.judged.Entries.{ConnectionsOK};
ghost use Rattle.spec_interface.specs.judged.Uses.{EntryUses, mesh_output};
ghost use Rattle.spec_interface.specs.judged.Varyings.{HasBlendSources, result_varyings};

use crate::uses::{note_own, uses_of};
use function_entries::{EntryContext, KnownInterfaces, check_connections_with};
use function_entry_checks::EntryPointError;
use function_interface::Lower;
use ir_flags::Settings;
use ir_items::{EntryPoint, Module};
use ir_types::refusal::Refusal;
use std::alloc::Global;

// Whether it is valid, with these uses by the entry point; then whether its results have two blend sources.
fn judge<L: Lower>(
    lower: &L,
    alloc: Global,
    settings: Settings,
    module: &Module,
    entry: &EntryPoint,
    info: &L::Info,
    known: &mut KnownInterfaces,
) -> Result<bool, Refusal<EntryPointError>>
    requires made { L.is_for lower.now (module_view «module».now) }
    requires many { length (L.summary lower.now info.now).uses ≡ length (module_view «module».now).globals }
    requires output { IfSome entry.now.mesh_info (λ (i : MeshStageInfo). i.output_variable < length (module_view «module».now).globals) }
    requires known { AreInterfacesKnown settings.flags settings.capabilities (module_view «module».now).types known.old }
    ensures known { OnOk result (AreInterfacesKnown settings.flags settings.capabilities (module_view «module».now).types known.new) }
    ensures judged { let m = module_view «module».now in
        let e = entry_view entry.now in
        let Uses = HasUseBit (L.summary lower.now info.now).uses in
        MatchResult result
        (λ blended. ConnectionsOK settings.flags settings.capabilities m e Uses × (IsTrue blended ↔ HasBlendSources (result_varyings m.types e.function.result)))
        (IsRefusedFor (IsUnconnected settings.flags settings.capabilities m e Uses)) }
{
    let uses = match uses_of(lower, alloc, info, module.global_variables.len()) {
        Ok(uses) => uses,
        Err(error) => return Err(Refusal::Memory(error)),
    };
    let context = EntryContext {
        flags: settings.flags,
        capabilities: settings.capabilities,
        module,
        infos: lower.type_infos(),
        entry,
    };
    match check_connections_with(alloc, &context, &uses, known) {
        Ok(blended) => Ok(blended),
        Err(refusal) => Err(refusal),
    }
}

// The information with the uses by the entry point besides its function noted.
fn with_own<L: Lower>(lower: &L, info: L::Info, entry: &EntryPoint) -> L::Info
    requires payload { IfSome entry.now.task_payload (λ g. g < length (L.summary lower.now info).uses) }
    requires output { IfSome (mesh_output (entry_view entry.now)) (λ g. g < length (L.summary lower.now info).uses) }
    ensures added { AddsOwnUses (entry_view entry.now) (L.summary lower.now info) (L.summary lower.now result) }
    ensures stages { (L.noted lower.now result).0 ≡ (L.noted lower.now info).0 }
    ensures blending { L.blending lower.now result ≡ L.blending lower.now info }
    ensures own { (m : PlainModule) (f : PlainFunction) → L.own lower.now m f info → L.own lower.now m f result }
{
    let mut info = info;
    note_own(lower, &mut info, entry);
    info
}

// The information with dual source blending noted.
fn with_blending<L: Lower>(lower: &L, info: L::Info, blended: bool) -> L::Info
    ensures same { ReportsSame (L.summary lower.now info) (L.summary lower.now result) }
    ensures stages { (L.noted lower.now result).0 ≡ (L.noted lower.now info).0 }
    ensures blending { L.blending lower.now result ≡ (L.blending lower.now info || blended) }
    ensures own { (m : PlainModule) (f : PlainFunction) → L.own lower.now m f info → L.own lower.now m f result }
{
    let mut info = info;
    let stages = lower.stages(&info);
    lower.note(&mut info, stages, &[], blended);
    info
}

/// Whether the interface of an entry point with other stages and with hosts is valid, given the information on its function;
/// returns the information with its own uses and dual source blending noted.
///
/// Requires that the layer was made for the module, that the payload and mesh output variables exist, uses for all global
/// variables, and that no dual source blending is noted yet.
///
/// # Errors
///
/// An error of the interface, returned only if its condition holds; or out of memory.
pub(crate) fn connect<L: Lower>(
    lower: &L,
    alloc: Global,
    settings: Settings,
    module: &Module,
    entry: &EntryPoint,
    info: L::Info,
    known: &mut KnownInterfaces,
) -> Result<L::Info, Refusal<EntryPointError>>
    requires made { L.is_for lower.now (module_view «module».now) }
    requires payload { IfSome entry.now.task_payload (λ g. g < length (module_view «module».now).globals) }
    requires output { IfSome entry.now.mesh_info (λ (i : MeshStageInfo). i.output_variable < length (module_view «module».now).globals) }
    requires many { length (L.summary lower.now info).uses ≡ length (module_view «module».now).globals }
    requires unblended { L.blending lower.now info ≡ false }
    requires known { AreInterfacesKnown settings.flags settings.capabilities (module_view «module».now).types known.old }
    ensures known { OnOk result (AreInterfacesKnown settings.flags settings.capabilities (module_view «module».now).types known.new) }
    ensures judged { let m = module_view «module».now in
        let e = entry_view entry.now in
        let Uses = EntryUses e (HasUseBit (L.summary lower.now info).uses) in
        MatchResult result
        (λ kept. ConnectionsOK settings.flags settings.capabilities m e Uses × AddsOwnUses e (L.summary lower.now info) (L.summary lower.now kept))
        (IsRefusedFor (IsUnconnected settings.flags settings.capabilities m e Uses)) }
    ensures stages { IfOk result (λ kept. (L.noted lower.now kept).0 ≡ (L.noted lower.now info).0) }
    ensures blended { IfOk result (λ kept. IsTrue (L.blending lower.now kept) ↔ HasBlendSources (result_varyings (module_view «module».now).types (entry_view entry.now).function.result)) }
    ensures own { (m : PlainModule) (f : PlainFunction) → L.own lower.now m f info → IfOk result (L.own lower.now m f) }
{
    let info = with_own(lower, info, entry);
    match judge(lower, alloc, settings, module, entry, &info, known) {
        Ok(blended) => Ok(with_blending(lower, info, blended)),
        Err(refusal) => Err(refusal),
    }
}

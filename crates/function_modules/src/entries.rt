//! All entry points of a module, in order.

ghost use Rattle.std.specs.Prelude.{◌≡◌, ◌<◌, ◌+◌, ◌++◌, ◌∷◌, [], MatchResult, OnOk, Some, length, map, slice_get};
ghost use Rattle.function_whole.specs.FunctionEntries.{AreInterfacesKnown};
ghost use Rattle.function_whole.specs.EntryNames.{AreNamesBelow};
ghost use Rattle.function_modules.specs.JudgedEntries.{AreEntriesJudgedWith, EntryKeeps, IsConflictReported, IsEntryRefusal, IsEntryReportedAt, note_of};
ghost use Rattle.ir_items.specs.judged.Plain.{PlainEntry};
ghost use Rattle.ir_items.specs.found.View.{module_view};
ghost use Rattle.spec_expressions.specs.judged.Summaries.{AreSummaries};
ghost use Rattle.spec_interface.specs.judged.EarlierPayloads.{IsPayloadBeforeEntry};
ghost use Rattle.spec_interface.specs.judged.EntryNames.{IsConflict};
ghost use Rattle.spec_expressions.specs.judged.ModuleHandles.{HandlesOK};
ghost use Rattle.function_statement_checks.specs.Descriptors.{AreDescriptors};

use crate::functions::Judged;
use crate::validator::Validator;
use function_entry_checks::EntryPointError;
use function_errors::InvalidEntryPoint;
use function_whole::function_entries::KnownInterfaces;
use function_whole::function_interface::Lower;
use function_whole::{SeenNames, Validated, validate_entry_point_with};
use ir_arena::handle::Handle;
use ir_items::{EntryPoint, Module};
use ir_places::Trail;
use ir_types::key;
use ir_types::refusal::Refusal;
use ir_types::with_span::WithSpan;
use std::alloc::Global;

// The refusal of the entry point at an index, as one of all entry points, with its place.
fn refusal_at(
    alloc: Global,
    index: usize,
    trail: Trail,
    refusal: Refusal<EntryPointError>,
) -> Refusal<InvalidEntryPoint>
    ensures { IsEntryReportedAt index trail refusal result }
{
    match refusal {
        Refusal::Memory(error) => Refusal::Memory(error),
        Refusal::Fault(fault) => Refusal::Fault(WithSpan::new(
            alloc,
            InvalidEntryPoint {
                index,
                error: fault.into_inner(),
                trail,
            },
        )),
    }
}

// Whether no earlier entry point has the stage and the name of the one at an index; both are noted.
fn check_name(
    alloc: Global,
    module: &Module,
    names: &mut SeenNames,
    index: usize,
) -> Result<(), Refusal<InvalidEntryPoint>>
    requires within { index < length (module_view «module».now).entries }
    requires before { AreNamesBelow (module_view «module».now) index names.old }
    ensures apart { MatchResult result
        (λ _. (e : PlainEntry) → slice_get (module_view «module».now).entries index ≡ Some e → ¬ IsConflict (module_view «module».now) index e)
        (IsConflictReported index ((e : PlainEntry) → slice_get (module_view «module».now).entries index ≡ Some e → IsConflict (module_view «module».now) index e)) }
    ensures noted { OnOk result (AreNamesBelow (module_view «module».now) (index + 1) names.new) }
{
    match names.note(alloc, &module.entry_points[index]) {
        Ok(true) => Ok(()),
        Ok(false) => Err(Refusal::Fault(WithSpan::new(
            alloc,
            InvalidEntryPoint {
                index,
                error: EntryPointError::Conflict,
                trail: Trail::new(alloc),
            },
        ))),
        Err(error) => Err(Refusal::Memory(error)),
    }
}

// The information on the entry point at an index, given that on the functions and the payload type so far.
fn judge_next<L: Lower>(
    validator: &Validator<L>,
    module: &Module,
    index: usize,
    callees: &[L::Info],
    kept: &[L::Info],
    held: Option<Handle<key::IrType>>,
    descriptors: &[bool],
    known: &mut KnownInterfaces,
) -> Result<Validated<L::Info>, Refusal<InvalidEntryPoint>>
    requires made { L.is_for validator.now.lower (module_view «module».now) }
    requires handles { HandlesOK (module_view «module».now) }
    requires within { index < length (module_view «module».now).entries }
    requires marked { AreDescriptors (module_view «module».now).types (module_view «module».now).special.ray_desc descriptors.now }
    requires many { length callees.now ≡ length (module_view «module».now).functions }
    requires known { AreSummaries (module_view «module».now) (map (L.summary validator.now.lower) callees.now) }
    requires apart { (e : PlainEntry) → slice_get (module_view «module».now).entries index ≡ Some e → ¬ IsConflict (module_view «module».now) index e }
    requires interfaces { AreInterfacesKnown validator.now.settings.flags validator.now.settings.capabilities (module_view «module».now).types known.old }
    requires before { AreEntriesJudgedWith (L.reading validator.now.lower) validator.now.settings (module_view «module».now) (EntryKeeps (L.own validator.now.lower (module_view «module».now))) (map (L.summary validator.now.lower) callees.now) (map (L.noted validator.now.lower) callees.now) index kept.now (map (L.summary validator.now.lower) kept.now) (map (note_of (L.noted validator.now.lower) (L.blending validator.now.lower)) kept.now) held }
    ensures interfaces { OnOk result (AreInterfacesKnown validator.now.settings.flags validator.now.settings.capabilities (module_view «module».now).types known.new) }
    ensures judged { let summaries = map (L.summary validator.now.lower) callees.now in
        let stages = map (L.noted validator.now.lower) callees.now in
        let note = note_of (L.noted validator.now.lower) (L.blending validator.now.lower) in
        MatchResult result
        (λ v. AreEntriesJudgedWith (L.reading validator.now.lower) validator.now.settings (module_view «module».now) (EntryKeeps (L.own validator.now.lower (module_view «module».now))) summaries stages (index + 1) (kept.now ++ v.info ∷ []) (map (L.summary validator.now.lower) kept.now ++ L.summary validator.now.lower v.info ∷ []) (map note kept.now ++ note v.info ∷ []) v.held)
        (IsEntryRefusal (L.reading validator.now.lower) (L.faults validator.now.lower) validator.now.settings (module_view «module».now) summaries stages) }
{
    let alloc = validator.alloc;
    let mut trail = Trail::new(alloc);
    match validate_entry_point_with(
        &validator.lower,
        alloc,
        &mut trail,
        validator.settings,
        held,
        module,
        &module.entry_points[index],
        callees,
        descriptors,
        known,
    ) {
        Ok(validated) => Ok(validated),
        Err(refusal) => Err(refusal_at(alloc, index, trail, refusal)),
    }
}

// The information on all entry points of a module, given that on its functions, the payload type after them, and the types
// equivalent to its ray descriptor type.
pub(crate) fn judge_entries<L: Lower>(
    validator: &Validator<L>,
    module: &Module,
    callees: &[L::Info],
    held: Option<Handle<key::IrType>>,
    descriptors: &[bool],
) -> Result<Judged<L::Info>, Refusal<InvalidEntryPoint>>
    requires made { L.is_for validator.now.lower (module_view «module».now) }
    requires handles { HandlesOK (module_view «module».now) }
    requires marked { AreDescriptors (module_view «module».now).types (module_view «module».now).special.ray_desc descriptors.now }
    requires many { length callees.now ≡ length (module_view «module».now).functions }
    requires known { AreSummaries (module_view «module».now) (map (L.summary validator.now.lower) callees.now) }
    requires before { IsPayloadBeforeEntry validator.now.settings.flags (module_view «module».now) 0 held }
    ensures { let summaries = map (L.summary validator.now.lower) callees.now in
        let stages = map (L.noted validator.now.lower) callees.now in
        MatchResult result
        (λ j. AreEntriesJudgedWith (L.reading validator.now.lower) validator.now.settings (module_view «module».now) (EntryKeeps (L.own validator.now.lower (module_view «module».now))) summaries stages (length (module_view «module».now).entries) j.infos.items (map (L.summary validator.now.lower) j.infos.items) (map (note_of (L.noted validator.now.lower) (L.blending validator.now.lower)) j.infos.items) j.held)
        (IsEntryRefusal (L.reading validator.now.lower) (L.faults validator.now.lower) validator.now.settings (module_view «module».now) summaries stages) }
{
    let alloc = validator.alloc;
    let count = module.entry_points.len();
    let mut infos = Vec::with_capacity(alloc, count)?;
    let mut held = held;
    let mut names = SeenNames::new(alloc);
    let mut known = KnownInterfaces::new(alloc);
    for index in 0..count {
        match check_name(alloc, module, &mut names, index) {
            Ok(()) => {}
            Err(refusal) => return Err(refusal),
        }
        match judge_next(
            validator,
            module,
            index,
            callees,
            &infos,
            held,
            descriptors,
            &mut known,
        ) {
            Ok(validated) => {
                infos.push(validated.info)?;
                held = validated.held;
            }
            Err(refusal) => return Err(refusal),
        }
    }
    Ok(Judged { infos, held })
}

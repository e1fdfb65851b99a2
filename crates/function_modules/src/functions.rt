//! All functions of a module, in order.

ghost use Rattle.std.specs.Prelude.{◌≡◌, ◌<◌, ◌+◌, ◌++◌, ◌∷◌, [], MatchResult, length, map};
ghost use Rattle.function_modules.specs.Judged.{AreJudgedWith, FunctionKeeps, IsReportedAt, IsRefusal};
ghost use Rattle.ir_items.specs.found.View.{module_view};
ghost use Rattle.spec_expressions.specs.judged.ModuleHandles.{HandlesOK};
ghost use Rattle.function_statement_checks.specs.Descriptors.{AreDescriptors};

use crate::validator::Validator;
use function_errors::InvalidFunction;
use function_whole::function_interface::Lower;
use function_whole::{Validated, validate_function_with};
use ir_arena::handle::Handle;
use ir_items::Module;
use ir_places::Trail;
use ir_types::key;
use ir_types::refusal::Refusal;
use ir_types::with_span::WithSpan;
use std::alloc::Global;
use typing_errors::FunctionError;

// The information on all functions, and their payload type, if any.
#[derive(Drop)]
pub(crate) struct Judged<I> {
    pub(crate) infos: Vec<I>,
    pub(crate) held: Option<Handle<key::IrType>>,
}

// The refusal of the function at a handle, as one of all functions, with its place.
fn refusal_at(
    alloc: Global,
    handle: Handle<key::Function>,
    trail: Trail,
    refusal: Refusal<FunctionError>,
) -> Refusal<InvalidFunction>
    ensures { IsReportedAt handle trail refusal result }
{
    match refusal {
        Refusal::Memory(error) => Refusal::Memory(error),
        Refusal::Fault(fault) => Refusal::Fault(WithSpan::new(
            alloc,
            InvalidFunction {
                function: handle,
                error: fault.into_inner(),
                trail,
            },
        )),
    }
}

// The result for the function at a handle, given the information on earlier ones and the payload type so far.
fn judge_next<L: Lower>(
    validator: &Validator<L>,
    module: &Module,
    handle: Handle<key::Function>,
    infos: &[L::Info],
    held: Option<Handle<key::IrType>>,
    descriptors: &[bool],
) -> Result<Validated<L::Info>, Refusal<InvalidFunction>>
    requires made { L.is_for validator.now.lower (module_view «module».now) }
    requires handles { HandlesOK (module_view «module».now) }
    requires within { handle < length (module_view «module».now).functions }
    requires marked { AreDescriptors (module_view «module».now).types (module_view «module».now).special.ray_desc descriptors.now }
    requires before { AreJudgedWith (L.reading validator.now.lower) validator.now.settings (module_view «module».now) (FunctionKeeps (L.own validator.now.lower (module_view «module».now)) (L.blending validator.now.lower)) handle infos.now (map (L.summary validator.now.lower) infos.now) (map (L.noted validator.now.lower) infos.now) held }
    ensures { let s = validator.now.settings in
        MatchResult result
        (λ v. AreJudgedWith (L.reading validator.now.lower) s (module_view «module».now) (FunctionKeeps (L.own validator.now.lower (module_view «module».now)) (L.blending validator.now.lower)) (handle + 1) (infos.now ++ v.info ∷ []) (map (L.summary validator.now.lower) infos.now ++ L.summary validator.now.lower v.info ∷ [])
        (map (L.noted validator.now.lower) infos.now ++ L.noted validator.now.lower v.info ∷ []) v.held)
        (IsRefusal (L.reading validator.now.lower) (L.faults validator.now.lower) s (module_view «module».now)) }
{
    let alloc = validator.alloc;
    let mut trail = Trail::new(alloc);
    match validate_function_with(
        &validator.lower,
        alloc,
        &mut trail,
        validator.settings,
        false,
        held,
        module,
        &module.functions[handle],
        infos,
        descriptors,
    ) {
        Ok(validated) => Ok(validated),
        Err(refusal) => Err(refusal_at(alloc, handle, trail, refusal)),
    }
}

// The information on all functions of a module, without a payload type before them, given the types equivalent to its ray
// descriptor type.
pub(crate) fn judge_all<L: Lower>(
    validator: &Validator<L>,
    module: &Module,
    descriptors: &[bool],
) -> Result<Judged<L::Info>, Refusal<InvalidFunction>>
    requires made { L.is_for validator.now.lower (module_view «module».now) }
    requires handles { HandlesOK (module_view «module».now) }
    requires marked { AreDescriptors (module_view «module».now).types (module_view «module».now).special.ray_desc descriptors.now }
    ensures { let s = validator.now.settings in
        MatchResult result
        (λ j. AreJudgedWith (L.reading validator.now.lower) s (module_view «module».now) (FunctionKeeps (L.own validator.now.lower (module_view «module».now)) (L.blending validator.now.lower)) (length (module_view «module».now).functions) j.infos.items (map (L.summary validator.now.lower) j.infos.items) (map (L.noted validator.now.lower) j.infos.items) j.held)
        (IsRefusal (L.reading validator.now.lower) (L.faults validator.now.lower) s (module_view «module».now)) }
{
    let count = module.functions.len();
    let mut infos = Vec::with_capacity(validator.alloc, count)?;
    let mut held = None;
    for index in 0..count {
        match judge_next(
            validator,
            module,
            Handle::at(index),
            &infos,
            held,
            descriptors,
        ) {
            Ok(validated) => {
                infos.push(validated.info)?;
                held = validated.held;
            }
            Err(refusal) => return Err(refusal),
        }
    }
    Ok(Judged { infos, held })
}

//! The arguments and the result of an entry point.

ghost use Rattle.std.specs.Prelude.{◌≡◌, ◌⊎◌, ◌↔◌, IsSome, IsTrue, MatchResult, OnOk, false, min};
ghost use Rattle.function_entry_checks.specs.Faults.{IsRefusedFor};
ghost use Rattle.function_entries.specs.Contexts.{AreKnownIn, IsKnown, entry_in, module_in, varying_context};
ghost use Rattle.function_entries.specs.VaryingFaults.{IsAnswerFault, IsArgumentFault, IsGivenFault, IsOutputFault, IsReportedOfArgument, IsReportedOfResult};
ghost use Rattle.ir_items.specs.found.View.{module_view};
ghost use Rattle.ir_kinds.specs.declared.bindings.BuiltIn.TheVariants.{Position};
ghost use Rattle.spec_interface.specs.judged.Members.{members_at};
ghost use Rattle.spec_interface.specs.judged.Results.{StageResultOK, GivesTaskSize};
ghost use Rattle.spec_interface.specs.judged.Varyings.{HasBlendSources, HasBuiltIn, VaryingsOK, argument_varyings, mesh_varyings, result_varyings};
ghost use Rattle.function_varyings.specs.Known.{IsShownBy};

use crate::context::{EntryContext, varying_context};
use function_entry_checks::EntryPointError;
use function_varying_checks::VaryingRefusal;
use function_varyings::{KnownTypes, Shown};
use ir_arena::handle::Handle;
use ir_items::{FunctionResult, Module};
use ir_kinds::{Scalar, ShaderStage, VectorSize};
use ir_types::key;
use ir_types::refusal::Refusal;
use ir_types::with_span::WithSpan;
use spec_interface::{Direction, is_struct};
use std::alloc::Global;
use typing_forms::laws::form_equality;
use typing_forms::{Form, form_of_type};

// An index as `u32`, saturating.
const fn short(index: usize) -> u32
    ensures { result ≡ min index 4294967295 }
{
    if index < 4294967295 {
        index as u32
    } else {
        4294967295
    }
}

// A refusal of varyings, as one of an argument.
fn argument_refusal(alloc: Global, refusal: VaryingRefusal) -> Refusal<EntryPointError>
    ensures { IsReportedOfArgument refusal result }
{
    match refusal {
        VaryingRefusal::Memory(error) => Refusal::Memory(error),
        VaryingRefusal::Fault { index, error } => Refusal::Fault(WithSpan::new(
            alloc,
            EntryPointError::Argument(short(index), error),
        )),
    }
}

// A refusal of varyings, as one of a result.
fn result_refusal(alloc: Global, refusal: VaryingRefusal) -> Refusal<EntryPointError>
    ensures { IsReportedOfResult refusal result }
{
    match refusal {
        VaryingRefusal::Memory(error) => Refusal::Memory(error),
        VaryingRefusal::Fault { index: _, error } => {
            Refusal::Fault(WithSpan::new(alloc, EntryPointError::Result(error)))
        }
    }
}

/// Whether the arguments of an entry point are valid.
pub(crate) fn check_arguments(
    alloc: Global,
    context: &EntryContext<'_>,
    known: &mut KnownTypes,
) -> Result<(), Refusal<EntryPointError>>
    requires told { IsKnown context.now }
    requires known { AreKnownIn context.now known.old }
    ensures known { OnOk result (AreKnownIn context.now known.new) }
    ensures fine { let arguments = (entry_in context.now).function.arguments in
        MatchResult result
        (λ _. VaryingsOK (varying_context context.now Direction.Input) (argument_varyings (module_in context.now).types arguments))
        (IsRefusedFor (IsArgumentFault (varying_context context.now Direction.Input) arguments)) }
{
    let varyings = varying_context(context, Direction::Input);
    match known.validate_arguments(alloc, &varyings, &context.entry.function.arguments) {
        Ok(()) => Ok(()),
        Err(refusal) => Err(argument_refusal(alloc, refusal)),
    }
}

// The facts about the varyings of an entry point's result, if valid.
fn answered(
    alloc: Global,
    context: &EntryContext<'_>,
    known: &mut KnownTypes,
) -> Result<Shown, Refusal<EntryPointError>>
    requires told { IsKnown context.now }
    requires known { AreKnownIn context.now known.old }
    ensures known { OnOk result (AreKnownIn context.now known.new) }
    ensures fine { let vs = result_varyings (module_in context.now).types (entry_in context.now).function.result in
        MatchResult result
        (λ shown. IsShownBy vs shown × VaryingsOK (varying_context context.now Direction.Output) vs)
        (IsRefusedFor (IsGivenFault (varying_context context.now Direction.Output) vs)) }
{
    match &context.entry.function.result {
        None => Ok(Shown::nothing()),
        Some(answer) => {
            let varyings = varying_context(context, Direction::Output);
            match known.validate_value(alloc, &varyings, answer.ty, answer.binding) {
                Ok(shown) => Ok(shown),
                Err(refusal) => Err(result_refusal(alloc, refusal)),
            }
        }
    }
}

// Whether a function returns the number of mesh workgroups to launch.
fn gives_task_size(module: &Module, answer: &Option<FunctionResult>) -> bool
    ensures { IsTrue result ↔ GivesTaskSize (module_view «module».now).types answer.now }
{
    match answer {
        None => false,
        Some(answer) => form_equality(
            form_of_type(&module.types, answer.ty),
            Form::Vector {
                size: VectorSize::Tri,
                scalar: Scalar::U32,
            },
        ),
    }
}

// Whether an entry point of a stage has the required result, given whether it has a position.
fn check_answer(
    module: &Module,
    stage: ShaderStage,
    answer: &Option<FunctionResult>,
    positioned: bool,
) -> Result<(), EntryPointError>
    requires { IsTrue positioned ↔ HasBuiltIn (result_varyings (module_view «module».now).types answer.now) (Position false) }
    ensures { MatchResult result
        (λ _. StageResultOK (module_view «module».now).types stage answer.now)
        (IsAnswerFault (module_view «module».now).types stage answer.now) }
{
    match stage {
        ShaderStage::Vertex => {
            if positioned {
                Ok(())
            } else {
                Err(EntryPointError::MissingVertexOutputPosition)
            }
        }
        ShaderStage::Task => {
            if gives_task_size(module, answer) {
                Ok(())
            } else {
                Err(EntryPointError::WrongTaskShaderEntryResult)
            }
        }
        ShaderStage::Mesh => match answer {
            Some(_) => Err(EntryPointError::UnexpectedMeshShaderEntryResult),
            None => Ok(()),
        },
        ShaderStage::Fragment
        | ShaderStage::Compute
        | ShaderStage::RayGeneration
        | ShaderStage::AnyHit
        | ShaderStage::ClosestHit
        | ShaderStage::Miss => Ok(()),
    }
}

/// Whether the result of an entry point is valid and the required one; then whether it has two blend sources.
pub(crate) fn check_result(
    alloc: Global,
    context: &EntryContext<'_>,
    known: &mut KnownTypes,
) -> Result<bool, Refusal<EntryPointError>>
    requires told { IsKnown context.now }
    requires known { AreKnownIn context.now known.old }
    ensures known { OnOk result (AreKnownIn context.now known.new) }
    ensures fine { let types = (module_in context.now).types in
        let answer = (entry_in context.now).function.result in
        let stage = (entry_in context.now).stage in
        MatchResult result
        (λ blended. VaryingsOK (varying_context context.now Direction.Output) (result_varyings types answer) × StageResultOK types stage answer
        × (IsTrue blended ↔ HasBlendSources (result_varyings types answer)))
        (IsRefusedFor (λ x. IsGivenFault (varying_context context.now Direction.Output) (result_varyings types answer) x ⊎ IsAnswerFault types stage answer x)) }
{
    let shown = match answered(alloc, context, known) {
        Ok(shown) => shown,
        Err(refusal) => return Err(refusal),
    };
    let entry = context.entry;
    match check_answer(
        context.module,
        entry.stage,
        &entry.function.result,
        shown.positioned,
    ) {
        Ok(()) => Ok(shown.blended),
        Err(error) => Err(Refusal::Fault(WithSpan::new(alloc, error))),
    }
}

/// The facts about the varyings of this type of a mesh shader's vertices or primitives, if valid.
pub(crate) fn check_output(
    alloc: Global,
    context: &EntryContext<'_>,
    known: &mut KnownTypes,
    ty: Handle<key::IrType>,
    direction: Direction,
) -> Result<Shown, Refusal<EntryPointError>>
    requires told { IsKnown context.now }
    requires known { AreKnownIn context.now known.old }
    ensures known { OnOk result (AreKnownIn context.now known.new) }
    ensures fine { let types = (module_in context.now).types in
        MatchResult result
        (λ shown. IsShownBy (mesh_varyings types ty) shown × VaryingsOK (varying_context context.now direction) (mesh_varyings types ty) × IsSome (members_at types ty))
        (IsRefusedFor (IsOutputFault (varying_context context.now direction) ty)) }
{
    if !is_struct(context.module, ty) {
        let error = EntryPointError::InvalidMeshOutputType;
        return Err(Refusal::Fault(WithSpan::new(alloc, error)));
    }
    let varyings = varying_context(context, direction);
    match known.validate_value(alloc, &varyings, ty, None) {
        Ok(shown) => Ok(shown),
        Err(refusal) => Err(result_refusal(alloc, refusal)),
    }
}

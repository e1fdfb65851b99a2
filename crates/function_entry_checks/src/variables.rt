//! The global variables that an entry point uses.

ghost use Rattle.std.specs.Prelude.{◌≡◌, ◌<◌, ◌↔◌, ℕ, IsTrue, MatchResult, Some, length};
ghost use Rattle.std.specs.Int.{bit_at};
ghost use Rattle.function_entry_checks.specs.Faults.{IsFaultOfOne, IsImmediateFault, IsReachFault, IsPayloadUseFault, IsRefusedFor, IsVariableFault, IsVariablesFault};
ghost use Rattle.ir_items.specs.found.GlobalView.{global_view};
ghost use Rattle.ir_items.specs.found.View.{entry_view, module_view};
ghost use Rattle.ir_kinds.specs.declared.spaces.AddressSpace.TheVariants.{Immediate, TaskPayload};
ghost use Rattle.spec_expressions.specs.judged.Summaries.{HasUseBit};
ghost use Rattle.spec_interface.specs.judged.Payloads.{space_at};
ghost use Rattle.spec_interface.specs.judged.Uses.{is_reached};
ghost use Rattle.spec_interface.specs.judged.UsedVariables.{OwnPayloadOK, UsedVariableOK, VariablesOK};
ghost use Rattle.spec_interface.specs.found.UsedVariables.{EachOK, OneImmediate};
ghost use Rattle.typing_layout.specs.judged.Layout.{size};
ghost use Rattle.typing_layout.specs.judged.View.{type_tree};

use crate::bindings::check_bindings;
use crate::error::EntryPointError;
use bitflags::Flags;
use ir_arena::handle::Handle;
use ir_flags::ValidationFlags;
use ir_items::{EntryPoint, GlobalVariable, Module};
use ir_kinds::{AddressSpace, ShaderStage};
use ir_types::key;
use ir_types::refusal::Refusal;
use ir_types::with_span::WithSpan;
use spec_expressions::GlobalUse;
use spec_interface::{
    allowed_uses, inner_at, is_immediate, is_run_for_rays, is_task_payload, space_at, traces_rays,
    use_at,
};
use std::alloc::Global;
use typing_forms::TypeInnerExt;
use typing_infos::first_used;

/// The minimum size of a task payload, in bytes.
const LEAST_PAYLOAD: u64 = 4;

// The size of a type, in bytes.
fn bytes_of(module: &Module, ty: Handle<key::IrType>) -> u64
    ensures { result ≡ size (type_tree (module_view «module».now).types ty) }
{
    match inner_at(module, ty) {
        Some(inner) => inner.size(),
        None => 0,
    }
}

// Whether a task payload variable is the entry point's, and large enough.
fn check_own_payload(
    module: &Module,
    entry: &EntryPoint,
    global: Handle<key::GlobalVariable>,
    variable: &GlobalVariable,
) -> Result<(), EntryPointError>
    ensures { MatchResult result
        (λ _. variable.now.space ≡ TaskPayload → OwnPayloadOK (module_view «module».now) (entry_view entry.now) global (global_view variable.now))
        (IsPayloadUseFault (module_view «module».now) (entry_view entry.now) global (global_view variable.now)) }
{
    if !is_task_payload(variable.space) {
        return Ok(());
    }
    if entry.task_payload != Some(global) {
        return Err(EntryPointError::WrongTaskPayloadUsed);
    }
    let bytes = bytes_of(module, variable.ty);
    if bytes < LEAST_PAYLOAD {
        return Err(EntryPointError::TaskPayloadTooSmall(bytes as u32));
    }
    Ok(())
}

// Whether a stage has variables in an address space.
fn check_reached(stage: ShaderStage, space: AddressSpace) -> Result<(), EntryPointError>
    ensures { MatchResult result (λ _. IsTrue (is_reached stage space)) (IsReachFault stage space) }
{
    match space {
        AddressSpace::RayPayload => {
            if traces_rays(stage) {
                Ok(())
            } else {
                Err(EntryPointError::RayPayloadInInvalidStage(stage))
            }
        }
        AddressSpace::IncomingRayPayload => {
            if is_run_for_rays(stage) {
                Ok(())
            } else {
                Err(EntryPointError::IncomingRayPayloadInInvalidStage(stage))
            }
        }
        AddressSpace::Function
        | AddressSpace::Private
        | AddressSpace::WorkGroup
        | AddressSpace::Uniform
        | AddressSpace::Storage { .. }
        | AddressSpace::Handle
        | AddressSpace::Immediate
        | AddressSpace::TaskPayload => Ok(()),
    }
}

// Whether an entry point may use a variable in this way.
fn check_variable(
    module: &Module,
    entry: &EntryPoint,
    global: Handle<key::GlobalVariable>,
    variable: &GlobalVariable,
    kinds: GlobalUse,
) -> Result<(), EntryPointError>
    ensures { MatchResult result
        (λ _. UsedVariableOK (module_view «module».now) (entry_view entry.now) global (global_view variable.now) (λ k. bit_at kinds.0 k ≡ 1))
        (IsVariableFault (module_view «module».now) (entry_view entry.now) global (global_view variable.now) (λ k. bit_at kinds.0 k ≡ 1)) }
{
    match check_own_payload(module, entry, global, variable) {
        Ok(()) => {}
        Err(error) => return Err(error),
    }
    match check_reached(entry.stage, variable.space) {
        Ok(()) => {}
        Err(error) => return Err(error),
    }
    let allowed = allowed_uses(entry.stage, variable.space, module, variable.ty);
    if allowed.contains(kinds) {
        Ok(())
    } else {
        Err(EntryPointError::InvalidGlobalUsage(global, kinds))
    }
}

// Whether an entry point may use each variable in the way that it does.
fn check_each(
    module: &Module,
    entry: &EntryPoint,
    uses: &[GlobalUse],
) -> Result<(), EntryPointError>
    requires { length uses.now ≡ length (module_view «module».now).globals }
    ensures { MatchResult result
        (λ _. EachOK (module_view «module».now) (entry_view entry.now) (HasUseBit uses.now))
        (IsFaultOfOne (module_view «module».now) (entry_view entry.now) (HasUseBit uses.now)) }
{
    let count = module.global_variables.len();
    let mut from = 0;
    while let Some(index) = first_used(uses, from, count) {
        let global = Handle::at(index);
        let variable = &module.global_variables[global];
        match check_variable(module, entry, global, variable, use_at(uses, global)) {
            Ok(()) => {}
            Err(error) => return Err(error),
        }
        from = index + 1;
    }
    Ok(())
}

// Whether a variable is an immediate.
fn is_immediate_at(module: &Module, global: Handle<key::GlobalVariable>) -> bool
    requires { global < length (module_view «module».now).globals }
    ensures { IsTrue result ↔ (space_at (module_view «module».now) global ≡ Some Immediate) }
{
    is_immediate(space_at(module, global))
}

// Whether an entry point uses at most one immediate.
fn check_immediates(module: &Module, uses: &[GlobalUse]) -> Result<(), EntryPointError>
    requires { length uses.now ≡ length (module_view «module».now).globals }
    ensures { MatchResult result
        (λ _. OneImmediate (module_view «module».now) (HasUseBit uses.now))
        (IsImmediateFault (module_view «module».now) (HasUseBit uses.now)) }
{
    let mut found = None;
    let count = module.global_variables.len();
    let mut from = 0;
    while let Some(index) = first_used(uses, from, count) {
        let global = Handle::at(index);
        if is_immediate_at(module, global) {
            match found {
                None => found = Some(global),
                Some(_) => return Err(EntryPointError::MoreThanOneImmediateUsed),
            }
        }
        from = index + 1;
    }
    Ok(())
}

/// Whether the uses of global variables by an entry point are valid.
///
/// # Errors
///
/// [`Refusal::Fault`] with an error whose condition holds: two immediates, an invalid use, or two variables with one binding
/// (the first of these, which no clause states); [`Refusal::Memory`] if out of memory.
pub fn check_variables(
    alloc: Global,
    flags: ValidationFlags,
    module: &Module,
    entry: &EntryPoint,
    uses: &[GlobalUse],
) -> Result<(), Refusal<EntryPointError>>
    requires { length uses.now ≡ length (module_view «module».now).globals }
    ensures { MatchResult result
        (λ _. VariablesOK flags (module_view «module».now) (entry_view entry.now) (HasUseBit uses.now))
        (IsRefusedFor (IsVariablesFault flags (module_view «module».now) (entry_view entry.now) (HasUseBit uses.now))) }
{
    match check_immediates(module, uses) {
        Ok(()) => {}
        Err(error) => return Err(Refusal::Fault(WithSpan::new(alloc, error))),
    }
    match check_each(module, entry, uses) {
        Ok(()) => {}
        Err(error) => return Err(Refusal::Fault(WithSpan::new(alloc, error))),
    }
    if !flags.contains(ValidationFlags::BINDINGS) {
        return Ok(());
    }
    match check_bindings(alloc, module, uses) {
        Ok(()) => Ok(()),
        Err(refusal) => Err(refusal),
    }
}

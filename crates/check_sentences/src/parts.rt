//! The path in a document of an error that is not in a body.

ghost use Rattle.std.specs.Prelude.{◌≡◌, ◌++◌, ◌∷◌, IfOk, OnOk, Some, None, option_to_list};
ghost use Rattle.check_sentences.specs.Parts.{IsInner, IsPartPath, member_steps, steps_in};

use crate::members::{type_member, varying_member};
use function_entry_checks::EntryPointError;
use function_errors::module_steps::{InvalidGlobalVariable, ModuleError};
use function_errors::{InvalidEntryPoint, InvalidFunction, ValidationError};
use function_varying_checks::VaryingError;
use ir_arena::handle::Handle;
use ir_items::{EntryPoint, Function, Module};
use ir_sets::unique_arena::UniqueArena;
use ir_types::{IrType, key};
use module_globals::GlobalVariableError;
use std::alloc::{AllocError, Global};
use typing_errors::FunctionError;
use typing_layout::Disalignment;

/// The last steps of a path, at most two.
#[derive(Clone, Copy)]
pub struct Steps {
    /// The first, if there is one.
    pub first: Option<usize>,
    /// The second, if there is one.
    pub second: Option<usize>,
}

// No steps.
const fn no_steps() -> Steps
    ensures { result ≡ record { first = None; second = None } }
{
    Steps {
        first: None,
        second: None,
    }
}

// One step.
const fn one_step(first: usize) -> Steps
    ensures { result ≡ record { first = Some first; second = None } }
{
    Steps {
        first: Some(first),
        second: None,
    }
}

// Two steps.
const fn two_steps(first: usize, second: usize) -> Steps
    ensures { result ≡ record { first = Some first; second = Some second } }
{
    Steps {
        first: Some(first),
        second: Some(second),
    }
}

// Appends an optional step to a path.
fn push_if(path: &mut Vec<usize>, step: Option<usize>) -> Result<(), AllocError>
    ensures { OnOk result (path.new.items ≡ path.old.items ++ option_to_list step) }
{
    match step {
        Some(step) => path.push(step).map_err(AllocError::from),
        None => Ok(()),
    }
}

// The path with this prefix and these steps. The error is out of memory.
fn path_from(alloc: Global, start: &[usize], last: Steps) -> Result<Vec<usize>, AllocError>
    ensures { IfOk result (λ path. path.items ≡ start.now ++ steps_in last) }
{
    let mut path = Vec::new(alloc);
    path.extend_from_slice(start)?;
    push_if(&mut path, last.first)?;
    push_if(&mut path, last.second)?;
    Ok(path)
}

// ---- functions

// The index of the first argument of a function that has a binding.
fn bound_argument(function: Option<&Function>) -> usize {
    let Some(function) = function else {
        return 0;
    };
    for (index, argument) in function.arguments.iter().enumerate() {
        if argument.binding.is_some() {
            return index;
        }
    }
    0
}

/// The part of a function that its error concerns, if that is not in a body.
pub(crate) fn inner_of(function: Option<&Function>, error: &FunctionError) -> Steps
    ensures { IsInner error.now (steps_in result) }
{
    match error {
        FunctionError::Expression { handle, .. }
        | FunctionError::UnvisitedExpression(handle)
        | FunctionError::NonUniformControlFlow(_, handle, _) => two_steps(4, handle.index()),
        FunctionError::LocalVariable { handle, .. } => two_steps(3, handle.index()),
        FunctionError::InvalidArgumentType { index, .. }
        | FunctionError::InvalidArgumentPointerSpace { index, .. } => two_steps(1, *index),
        FunctionError::PipelineInputRegularFunction { .. } => {
            two_steps(1, bound_argument(function))
        }
        FunctionError::NonConstructibleReturnType | FunctionError::PipelineOutputRegularFunction =>
            one_step(2),
        FunctionError::InvalidReturnType { .. } => one_step(5),
        _ => no_steps(),
    }
}

// The path of an error of a function.
fn function_path(
    alloc: Global,
    function: Option<&Function>,
    refused: &InvalidFunction,
) -> Result<Vec<usize>, AllocError>
    ensures { IfOk result (λ path. IsPartPath (ValidationError.Function refused.now) path.items) }
{
    let last = inner_of(function, &refused.error);
    path_from(alloc, &[12, refused.function.index()], last)
}

// ---- items

// The path of a type, and of the member that the error concerns.
fn type_path(
    alloc: Global,
    ty: Handle<key::IrType>,
    member: Option<usize>,
) -> Result<Vec<usize>, AllocError>
    ensures { IfOk result (λ path. path.items ≡ 5 ∷ ty ∷ member_steps member) }
{
    match member {
        Some(member) => path_from(alloc, &[5, ty.index(), 1, 1], one_step(member)),
        None => path_from(alloc, &[5, ty.index()], no_steps()),
    }
}

// The misaligned member of a type.
const fn misaligned(error: &Disalignment) -> Option<usize> {
    match *error {
        Disalignment::MemberOffset { index, .. }
        | Disalignment::MemberOffsetAfterStruct { index, .. } => Some(index),
        Disalignment::ArrayStride { .. }
        | Disalignment::StructSpan { .. }
        | Disalignment::NonHostShareable => None,
    }
}

// The path of an error of a global variable.
fn variable_path(alloc: Global, refused: &InvalidGlobalVariable) -> Result<Vec<usize>, AllocError>
    ensures { IfOk result (λ path. IsPartPath (ValidationError.GlobalVariable refused.now) path.items) }
{
    match &refused.error {
        GlobalVariableError::Alignment(_, ty, error) => type_path(alloc, *ty, misaligned(error)),
        _ => path_from(alloc, &[11, refused.global.index()], no_steps()),
    }
}

// The path of an error of a step up to overrides; empty for errors of handles.
fn module_path(
    alloc: Global,
    types: &UniqueArena<IrType, key::IrType>,
    error: &ModuleError,
) -> Result<Vec<usize>, AllocError>
    ensures { IfOk result (λ path. IsPartPath (ValidationError.Module error.now) path.items) }
{
    match error {
        ModuleError::InvalidHandle(_) => Ok(Vec::new(alloc)),
        ModuleError::Layouter(error) => type_path(alloc, error.ty, None),
        ModuleError::Typing(error) => {
            type_path(alloc, error.ty, type_member(types, error.ty, &error.error))
        }
        ModuleError::ConstExpression(error) => {
            path_from(alloc, &[10, error.expression.index()], no_steps())
        }
        ModuleError::Constant(error) => {
            path_from(alloc, &[8, error.constant.index()], no_steps())
        }
        ModuleError::Override(error) => path_from(alloc, &[9, error.id.index()], no_steps()),
    }
}

// ---- entry points

// The path of an entry point's inputs.
fn argument_path(
    alloc: Global,
    types: &UniqueArena<IrType, key::IrType>,
    entry: &EntryPoint,
    index: usize,
    place: usize,
    error: &VaryingError,
) -> Result<Vec<usize>, AllocError> {
    if let Some(argument) = entry.function.arguments.get(place) {
        let member = varying_member(types, argument.ty, error);
        if member.is_some() {
            return type_path(alloc, argument.ty, member);
        }
    }
    path_from(alloc, &[13, index, 6], two_steps(1, place))
}

// The types of an entry point's outputs: its result, or for a mesh shader its vertex and its primitive types.
fn given_types(entry: &EntryPoint) -> [Option<Handle<key::IrType>>; 2] {
    match (&entry.mesh_info, &entry.function.result) {
        (Some(mesh), _) => [
            Some(mesh.vertex_output_type),
            Some(mesh.primitive_output_type),
        ],
        (None, Some(given)) => [Some(given.ty), None],
        (None, None) => [None, None],
    }
}

// The path of an entry point's outputs: its result, or for a mesh shader its mesh info.
fn result_path(
    alloc: Global,
    types: &UniqueArena<IrType, key::IrType>,
    entry: &EntryPoint,
    index: usize,
    error: &VaryingError,
) -> Result<Vec<usize>, AllocError> {
    let given = given_types(entry);
    for place in 0..2usize {
        if let Some(ty) = given[place] {
            let member = varying_member(types, ty, error);
            if member.is_some() {
                return type_path(alloc, ty, member);
            }
        }
    }
    if entry.mesh_info.is_some() {
        return path_from(alloc, &[13, index], one_step(4));
    }
    path_from(alloc, &[13, index], two_steps(6, 2))
}

// The part of an entry point that an error concerns.
fn entry_part(error: &EntryPointError) -> Steps {
    match error {
        EntryPointError::UnsupportedCapability(_) => one_step(0),
        EntryPointError::Conflict => one_step(1),
        EntryPointError::UnexpectedEarlyDepthTest => one_step(2),
        EntryPointError::UnexpectedWorkgroupSize | EntryPointError::OutOfRangeWorkgroupSize => {
            one_step(3)
        }
        EntryPointError::ExpectedMeshShaderAttributes
        | EntryPointError::UnexpectedMeshShaderAttributes
        | EntryPointError::BadMeshOutputVariableType
        | EntryPointError::BadMeshOutputVariableField
        | EntryPointError::InvalidMeshOutputType
        | EntryPointError::InvalidMeshPrimitiveOutputType
        | EntryPointError::WrongMeshOutputAddressSpace => one_step(4),
        EntryPointError::TaskPayloadTooSmall(_)
        | EntryPointError::UnexpectedTaskPayload
        | EntryPointError::TaskPayloadWrongAddressSpace
        | EntryPointError::WrongTaskPayloadUsed
        | EntryPointError::ExpectedTaskPayload => one_step(5),
        EntryPointError::ForbiddenStageOperations => one_step(6),
        EntryPointError::WrongTaskShaderEntryResult
        | EntryPointError::UnexpectedMeshShaderEntryResult
        | EntryPointError::MissingVertexOutputPosition => two_steps(6, 2),
        _ => no_steps(),
    }
}

// The path of an error of varyings.
fn varying_path(
    alloc: Global,
    types: &UniqueArena<IrType, key::IrType>,
    entry: Option<&EntryPoint>,
    refused: &InvalidEntryPoint,
) -> Result<Vec<usize>, AllocError> {
    let index = refused.index;
    let Some(entry) = entry else {
        return path_from(alloc, &[13, index], no_steps());
    };
    match &refused.error {
        EntryPointError::Argument(place, error) => {
            argument_path(alloc, types, entry, index, *place as usize, error)
        }
        EntryPointError::Result(error) => result_path(alloc, types, entry, index, error),
        other => path_from(alloc, &[13, index], entry_part(other)),
    }
}

// The function of an entry point, if it exists.
fn function_of(entry: Option<&EntryPoint>) -> Option<&Function> {
    match entry {
        Some(entry) => Some(&entry.function),
        None => None,
    }
}

// The path of an error of an entry point.
fn entry_path(
    alloc: Global,
    types: &UniqueArena<IrType, key::IrType>,
    entry: Option<&EntryPoint>,
    refused: &InvalidEntryPoint,
) -> Result<Vec<usize>, AllocError>
    ensures { IfOk result (λ path. IsPartPath (ValidationError.EntryPoint refused.now) path.items) }
{
    match &refused.error {
        EntryPointError::Function(error) => {
            let last = inner_of(function_of(entry), error);
            path_from(alloc, &[13, refused.index, 6], last)
        }
        EntryPointError::InvalidGlobalUsage(global, _)
        | EntryPointError::BindingCollision(global) => {
            path_from(alloc, &[11, global.index()], no_steps())
        }
        _ => varying_path(alloc, types, entry, refused),
    }
}

/// The path in a document of an error that is not in a body, from the outermost inward; empty for errors of handles.
/// The error is out of memory.
pub fn part_path(
    alloc: Global,
    module: &Module,
    error: &ValidationError,
) -> Result<Vec<usize>, AllocError>
    ensures { IfOk result (λ path. IsPartPath error.now path.items) }
{
    match error {
        ValidationError::Module(error) => module_path(alloc, &module.types, error),
        ValidationError::GlobalVariable(refused) => variable_path(alloc, refused),
        ValidationError::Function(refused) => {
            let function = module.functions.try_get(refused.function).ok();
            function_path(alloc, function, refused)
        }
        ValidationError::EntryPoint(refused) => {
            let entry = module.entry_points.get(refused.index);
            entry_path(alloc, &module.types, entry, refused)
        }
    }
}

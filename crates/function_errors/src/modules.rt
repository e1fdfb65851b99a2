//! The items that an error names.

ghost use Rattle.std.specs.Prelude.{◌≡◌};
ghost use Rattle.function_errors.specs.Labels.{entry_label, function_label, module_label, subject_label, variable_label};

use crate::labels::{Item, Label};
use crate::subjects::{Subject, subject_of};
use function_entry_checks::EntryPointError;
use ir_arena::handle::Handle;
use ir_items::{EntryPoint, Function, Module, key};
use module_steps::ModuleError;
use typing_errors::FunctionError;

/// The label of the subject of a function's error, if it has its own span.
pub fn subject_label(function: &Function, error: &FunctionError) -> Option<Label>
    ensures { result ≡ subject_label function.now error.now }
{
    match subject_of(error) {
        Subject::Expression(handle) => Some(Label {
            span: function.expressions.get_span(handle),
            item: Item::Expression,
        }),
        Subject::LocalVariable(handle) => Some(Label {
            span: function.local_variables.get_span(handle),
            item: Item::LocalVariable,
        }),
        Subject::Nothing => None,
    }
}

/// The label of a function.
pub fn function_label(module: &Module, handle: Handle<key::Function>) -> Label
    ensures { result ≡ function_label «module».now handle }
{
    Label {
        span: module.functions.get_span(handle),
        item: Item::Function,
    }
}

/// The label of a global variable.
pub fn variable_label(module: &Module, handle: Handle<key::GlobalVariable>) -> Label
    ensures { result ≡ variable_label «module».now handle }
{
    Label {
        span: module.global_variables.get_span(handle),
        item: Item::GlobalVariable,
    }
}

/// The label of the item that fails a step up to overrides. An error of handles has no such item.
pub fn module_label(module: &Module, error: &ModuleError) -> Option<Label>
    ensures { result ≡ module_label «module».now error.now }
{
    let (span, item) = match error {
        ModuleError::InvalidHandle(_) => return None,
        ModuleError::Layouter(error) => (module.types.get_span(error.ty), Item::Type),
        ModuleError::Typing(error) => (module.types.get_span(error.ty), Item::Type),
        ModuleError::ConstExpression(error) => (
            module.global_expressions.get_span(error.expression),
            Item::GlobalExpression,
        ),
        ModuleError::Constant(error) => {
            (module.constants.get_span(error.constant), Item::Constant)
        }
        ModuleError::Override(error) => (module.overrides.get_span(error.id), Item::Override),
    };
    Some(Label { span, item })
}

/// The label of the subject of an entry point's error: an expression or a variable of its function, or a global variable.
pub fn entry_label(module: &Module, entry: &EntryPoint, error: &EntryPointError) -> Option<Label>
    ensures { result ≡ entry_label «module».now entry.now error.now }
{
    match error {
        EntryPointError::Function(error) => subject_label(&entry.function, error),
        EntryPointError::InvalidGlobalUsage(handle, _)
        | EntryPointError::BindingCollision(handle) => Some(variable_label(module, *handle)),
        EntryPointError::Conflict
        | EntryPointError::MissingVertexOutputPosition
        | EntryPointError::UnexpectedEarlyDepthTest
        | EntryPointError::UnexpectedWorkgroupSize
        | EntryPointError::OutOfRangeWorkgroupSize
        | EntryPointError::ForbiddenStageOperations
        | EntryPointError::MoreThanOneImmediateUsed
        | EntryPointError::Argument(..)
        | EntryPointError::Result(_)
        | EntryPointError::UnsupportedCapability(_)
        | EntryPointError::ExpectedMeshShaderAttributes
        | EntryPointError::UnexpectedMeshShaderAttributes
        | EntryPointError::UnexpectedTaskPayload
        | EntryPointError::TaskPayloadWrongAddressSpace
        | EntryPointError::WrongTaskPayloadUsed
        | EntryPointError::WrongTaskShaderEntryResult
        | EntryPointError::ExpectedTaskPayload
        | EntryPointError::BadMeshOutputVariableType
        | EntryPointError::BadMeshOutputVariableField
        | EntryPointError::UnexpectedMeshShaderEntryResult
        | EntryPointError::InvalidMeshOutputType
        | EntryPointError::InvalidMeshPrimitiveOutputType
        | EntryPointError::WrongMeshOutputAddressSpace
        | EntryPointError::TaskPayloadTooSmall(_)
        | EntryPointError::RayPayloadInInvalidStage(_)
        | EntryPointError::IncomingRayPayloadInInvalidStage(_) => None,
    }
}

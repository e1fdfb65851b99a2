//! The subject of an error of a function.

ghost use Rattle.std.specs.Prelude.{◌≡◌};
ghost use Rattle.function_errors.specs.Subjects.{expression_if, of_expression_error, of_call_error, of_atomic_error, of_subgroup_error, subject_of};

use ir_arena::handle::Handle;
use ir_types::key;
use typing_errors::{AtomicError, CallError, ExpressionError, FunctionError, SubgroupError};

/// The subject of an error of a function.
#[derive(Clone, Copy, PartialEq, Eq, Debug)]
pub enum Subject {
    /// An expression of the function.
    Expression(Handle<key::Expression>),
    /// A local variable of the function.
    LocalVariable(Handle<key::LocalVariable>),
    /// The function itself.
    Nothing,
}

fn expression_if(handle: Option<Handle<key::Expression>>) -> Subject
    ensures { result ≡ expression_if handle }
{
    match handle {
        Some(handle) => Subject::Expression(handle),
        None => Subject::Nothing,
    }
}

// The subject of an error of an expression.
fn of_expression_error(error: &ExpressionError) -> Subject
    ensures { result ≡ of_expression_error error.now }
{
    match error {
        ExpressionError::InvalidImageArrayIndexType(handle)
        | ExpressionError::InvalidImageCoordinateType(_, handle) => Subject::Expression(*handle),
        ExpressionError::NotInScope
        | ExpressionError::Typing(_)
        | ExpressionError::Literal(_)
        | ExpressionError::Compose(_)
        | ExpressionError::ExpectedGlobalOrArgument
        | ExpressionError::ExpectedGlobalVariable
        | ExpressionError::ExpectedBindingArrayType(_)
        | ExpressionError::ExpectedImageType(_)
        | ExpressionError::InvalidImageClass(_)
        | ExpressionError::InvalidImageFormat(_)
        | ExpressionError::InvalidImageStorageAccess(_)
        | ExpressionError::InvalidImageArrayIndex
        | ExpressionError::Other => Subject::Nothing,
    }
}

// The subject of an error of a call.
fn of_call_error(error: &CallError) -> Subject
    ensures { result ≡ of_call_error error.now }
{
    match error {
        CallError::Argument { source, .. } => of_expression_error(source),
        CallError::ResultAlreadyInScope(handle) | CallError::ResultAlreadyPopulated(handle) =>
            Subject::Expression(*handle),
        CallError::ArgumentType {
            seen_expression,
            ..
        } => Subject::Expression(*seen_expression),
        CallError::ExpressionMismatch(handle) => expression_if(*handle),
        CallError::ArgumentCount { .. } => Subject::Nothing,
    }
}

// The subject of an error of an atomic operation.
fn of_atomic_error(error: &AtomicError) -> Subject
    ensures { result ≡ of_atomic_error error.now }
{
    match error {
        AtomicError::InvalidPointer(handle)
        | AtomicError::InvalidOperand(handle)
        | AtomicError::InvalidResultExpression(handle)
        | AtomicError::ResultExpressionExchange(handle)
        | AtomicError::ResultExpressionNotExchange(handle)
        | AtomicError::ResultTypeMismatch(handle)
        | AtomicError::ResultAlreadyPopulated(handle) => Subject::Expression(*handle),
        AtomicError::InvalidAddressSpace(_)
        | AtomicError::InvalidOperator(_)
        | AtomicError::MissingReturnValue
        | AtomicError::MissingCapability(_) => Subject::Nothing,
    }
}

// The subject of an error of a subgroup operation.
fn of_subgroup_error(error: &SubgroupError) -> Subject
    ensures { result ≡ of_subgroup_error error.now }
{
    match error {
        SubgroupError::InvalidOperand(handle)
        | SubgroupError::ResultTypeMismatch(handle)
        | SubgroupError::InvalidInvocationIdExprType(handle) => Subject::Expression(*handle),
        SubgroupError::UnsupportedOperation(_) | SubgroupError::UnknownOperation =>
            Subject::Nothing,
    }
}

/// The subject of an error: the innermost expression that it names, a local variable, or the function itself.
pub fn subject_of(error: &FunctionError) -> Subject
    ensures { result ≡ subject_of error.now }
{
    match error {
        FunctionError::Expression { handle, .. }
        | FunctionError::ExpressionAlreadyInScope(handle)
        | FunctionError::InvalidIfType(handle)
        | FunctionError::InvalidSwitchType(handle)
        | FunctionError::InvalidStorePointer(handle)
        | FunctionError::InvalidStoreTexture { actual: handle, .. }
        | FunctionError::InvalidStoreValue { actual: handle, .. }
        | FunctionError::InvalidStoreTypes { value: handle, .. }
        | FunctionError::InvalidImageAtomicValue(handle)
        | FunctionError::InvalidRayQueryExpression(handle)
        | FunctionError::InvalidAccelerationStructure(handle)
        | FunctionError::MissingAccelerationStructureVertexReturn(handle, _)
        | FunctionError::MissingRayQueryVertexReturn(handle)
        | FunctionError::InvalidRayDescriptor(handle)
        | FunctionError::InvalidHitDistanceType(handle)
        | FunctionError::NonUniformControlFlow(_, handle, _)
        | FunctionError::WorkgroupUniformLoadExpressionMismatch(handle)
        | FunctionError::WorkgroupUniformLoadInvalidPointer(handle)
        | FunctionError::InvalidCooperativeStoreTarget(handle)
        | FunctionError::InvalidCooperativeDataPointer(handle)
        | FunctionError::EmitResult(handle)
        | FunctionError::UnvisitedExpression(handle)
        | FunctionError::InvalidMeshFunctionCall(handle)
        | FunctionError::ConflictingMeshOutputTypes(handle, _)
        | FunctionError::ConflictingTaskPayloadVariables(handle, _)
        | FunctionError::InvalidMeshShaderOutputType(handle)
        | FunctionError::StrictResultMismatch(handle) => Subject::Expression(*handle),
        FunctionError::LocalVariable { handle, .. } => Subject::LocalVariable(*handle),
        FunctionError::InvalidReturnType { expression, .. } => expression_if(*expression),
        FunctionError::InvalidImageStore(source) | FunctionError::InvalidImageAtomic(source) =>
            of_expression_error(source),
        FunctionError::InvalidCall { error, .. } => of_call_error(error),
        FunctionError::InvalidAtomic(error) => of_atomic_error(error),
        FunctionError::InvalidSubgroup(error) => of_subgroup_error(error),
        FunctionError::InvalidArgumentType { .. }
        | FunctionError::NonConstructibleReturnType
        | FunctionError::InvalidArgumentPointerSpace { .. }
        | FunctionError::BreakOutsideOfLoopOrSwitch
        | FunctionError::ContinueOutsideOfLoop
        | FunctionError::InvalidReturnSpot
        | FunctionError::ConflictingSwitchCase(_)
        | FunctionError::ConflictingCaseType
        | FunctionError::MissingDefaultCase
        | FunctionError::MultipleDefaultCases
        | FunctionError::LastCaseFallTrough
        | FunctionError::InvalidImageAtomicFunction(_)
        | FunctionError::InvalidRayQueryType(_)
        | FunctionError::MissingCapability(_)
        | FunctionError::PipelineInputRegularFunction { .. }
        | FunctionError::PipelineOutputRegularFunction
        | FunctionError::NonUniformWorkgroupUniformLoad(_)
        | FunctionError::InvalidPayloadType
        | FunctionError::InvalidPayloadAddressSpace(_)
        | FunctionError::MismatchedPayloadType(..)
        | FunctionError::PayloadPointerNotGlobal => Subject::Nothing,
    }
}

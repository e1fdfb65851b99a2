//! The requirement text for an invalid function.

use crate::expressions::{write_expression, write_image};
use crate::operations::{write_atomic, write_call, write_subgroup};
use crate::scene::Scene;
use crate::stores::{write_return, write_store};
use check_cause_texts::{SetText, space_word};
use ir_arena::handle::Handle;
use ir_kinds::SwitchValue;
use ir_types::key;
use std::fmt;
use typing_errors::{FunctionError, LocalVariableError, UniformityDisruptor};

// The requirement for an error without fields.
fn plain_text(error: &FunctionError) -> &'static str {
    match error {
        FunctionError::NonConstructibleReturnType => {
            "the result type of a function must be constructible"
        }
        FunctionError::InvalidArgumentType { .. } => {
            "the type of an argument must be one that can be passed to functions"
        }
        FunctionError::BreakOutsideOfLoopOrSwitch => {
            "a Break must be inside the body of a loop or a case of a switch, and not in a continuing part"
        }
        FunctionError::ContinueOutsideOfLoop => {
            "a Continue must be inside the body of a loop, and not in a continuing part"
        }
        FunctionError::InvalidReturnSpot => "a Return cannot be inside a continuing part",
        FunctionError::ConflictingCaseType => {
            "the values of cases must have the type of the selector"
        }
        FunctionError::MissingDefaultCase => "a Switch must have a default case",
        FunctionError::MultipleDefaultCases => "a Switch must have only one default case",
        FunctionError::LastCaseFallTrough => "the last case of a Switch cannot fall through",
        FunctionError::PipelineInputRegularFunction { .. } => {
            "only arguments of entry points can have a binding"
        }
        FunctionError::PipelineOutputRegularFunction => {
            "only results of entry points can have a binding"
        }
        FunctionError::InvalidPayloadType => "the payload of a ray must be a pointer",
        FunctionError::PayloadPointerNotGlobal => "the payload of a ray must be a global variable",
        _ => "",
    }
}

// The requirement of the operand or result that an error names, apart from its type.
fn operand_text(error: &FunctionError) -> &'static str {
    match error {
        FunctionError::InvalidImageAtomicValue(_) => {
            "the value of an image atomic must have the scalar type of the image's texels"
        }
        FunctionError::InvalidRayQueryExpression(_) => "a ray query must be a local variable",
        FunctionError::MissingAccelerationStructureVertexReturn(..) => {
            "the acceleration structure must return vertices, because the ray query does"
        }
        FunctionError::MissingRayQueryVertexReturn(_) => "the ray query must return vertices",
        FunctionError::InvalidRayDescriptor(_) => {
            "a ray descriptor must have the document's special type for it"
        }
        FunctionError::WorkgroupUniformLoadExpressionMismatch(_) => {
            "the result of a workgroup uniform load must be a WorkGroupUniformLoadResult of the loaded type"
        }
        FunctionError::WorkgroupUniformLoadInvalidPointer(_) => {
            "a workgroup uniform load must be from WorkGroup memory"
        }
        FunctionError::InvalidCooperativeStoreTarget(_) => {
            "the target of a cooperative store must be a cooperative matrix"
        }
        FunctionError::InvalidCooperativeDataPointer(_) => {
            "the pointer must point to scalars in memory that can be read or written"
        }
        FunctionError::InvalidMeshFunctionCall(_) => {
            "the argument of a mesh shader call must be a u32"
        }
        FunctionError::ConflictingMeshOutputTypes(..) => {
            "the outputs of a mesh shader must have one type"
        }
        FunctionError::ConflictingTaskPayloadVariables(..) => {
            "a task shader must have only one payload"
        }
        FunctionError::InvalidMeshShaderOutputType(_) => {
            "the output of a mesh shader must be a struct"
        }
        FunctionError::StrictResultMismatch(_) => {
            "the result of a Proceed must be a RayQueryProceedResult, and that of a ballot a SubgroupBallotResult"
        }
        _ => "",
    }
}

pub(crate) fn write_disruptor<W: fmt::Write>(
    f: &mut fmt::Formatter<W>,
    disruptor: &UniformityDisruptor,
) -> fmt::Result {
    match disruptor {
        UniformityDisruptor::Expression(handle) => {
            write!(f, "a choice by expressions[{}]", handle.index())
        }
        UniformityDisruptor::Return => write!(f, "a Return that not all take"),
        UniformityDisruptor::Discard => write!(f, "a Kill that not all come to"),
    }
}

fn write_local<W: fmt::Write>(
    f: &mut fmt::Formatter<W>,
    error: &LocalVariableError,
) -> fmt::Result {
    match error {
        LocalVariableError::InvalidType(ty) => write!(
            f,
            "the type of a local variable must have a known size and be one that can be stored, and types[{}] is not",
            ty.index()
        ),
        LocalVariableError::InitializerType => {
            write!(
                f,
                "the initializer must have the type of the local variable"
            )
        }
        LocalVariableError::NonConstOrOverrideInitializer => write!(
            f,
            "the initializer of a local variable must be a const-expression or an override-expression"
        ),
    }
}

fn write_case<W: fmt::Write>(f: &mut fmt::Formatter<W>, value: &SwitchValue) -> fmt::Result {
    write!(f, "no two cases can have the same value, ")?;
    match value {
        SwitchValue::I32(value) => write!(f, "{value}"),
        SwitchValue::U32(value) => write!(f, "{value}"),
        SwitchValue::Default => write!(f, "Default"),
    }
}

// An operand that breaks a requirement.
fn write_operand<W: fmt::Write>(
    f: &mut fmt::Formatter<W>,
    scene: &Scene<'_>,
    required: &str,
    operand: Handle<key::Expression>,
) -> fmt::Result {
    write!(f, "{required}")?;
    scene.write_given(f, ", and it is ", operand)
}

// An error of a statement that references an expression.
fn write_named<W: fmt::Write>(
    f: &mut fmt::Formatter<W>,
    scene: &Scene<'_>,
    error: &FunctionError,
) -> fmt::Result {
    match error {
        FunctionError::ExpressionAlreadyInScope(handle) => write!(
            f,
            "expressions[{}] is already in scope, and enters scope once per path: a literal, a constant, a variable and an argument always are",
            handle.index()
        ),
        FunctionError::InvalidIfType(handle) => {
            write_operand(
                f,
                scene,
                "the condition of an If must be a bool scalar",
                *handle,
            )
        }
        FunctionError::InvalidSwitchType(handle) => write_operand(
            f,
            scene,
            "the selector of a Switch must be an i32 or u32 scalar",
            *handle,
        ),
        FunctionError::InvalidAccelerationStructure(handle) => write!(
            f,
            "expressions[{}] is not an acceleration structure",
            handle.index()
        ),
        FunctionError::InvalidHitDistanceType(handle) => {
            write_operand(f, scene, "the hit distance must be an f32 scalar", *handle)
        }
        FunctionError::EmitResult(handle) => write!(
            f,
            "an Emit cannot contain the result of a statement, as expressions[{}] is",
            handle.index()
        ),
        FunctionError::UnvisitedExpression(handle) => write!(
            f,
            "expressions[{}] must be the result of a statement, and no statement has it as its result",
            handle.index()
        ),
        FunctionError::InvalidRayQueryType(ty) => write!(
            f,
            "a ray query must have the type RayQuery, and types[{}] is another",
            ty.index()
        ),
        FunctionError::MismatchedPayloadType(ty, earlier) => write!(
            f,
            "all ray payloads must have the same type; this one has types[{}], and an earlier one types[{}]",
            ty.index(),
            earlier.index()
        ),
        _ => write!(f, "{}", operand_text(error)),
    }
}

// An error about flags, address spaces or uniform control flow.
fn write_setting<W: fmt::Write>(
    f: &mut fmt::Formatter<W>,
    scene: &Scene<'_>,
    error: &FunctionError,
) -> fmt::Result {
    match error {
        FunctionError::InvalidArgumentPointerSpace { space, .. } => write!(
            f,
            "a pointer argument must be into Function or Private, and not into {}",
            space_word(*space)
        ),
        FunctionError::InvalidPayloadAddressSpace(space) => write!(
            f,
            "the payload of a ray must be in RayPayload or IncomingRayPayload, and not in {}",
            space_word(*space)
        ),
        FunctionError::MissingCapability(missing) => write!(
            f,
            "the document's capabilities lack {}",
            SetText(*missing)
        ),
        FunctionError::NonUniformControlFlow(needs, handle, disruptor) => {
            write!(
                f,
                "expressions[{}] ({}) requires uniform control flow, and here it is not: ",
                handle.index(),
                SetText(*needs)
            )?;
            write_disruptor(f, disruptor)
        }
        FunctionError::NonUniformWorkgroupUniformLoad(disruptor) => {
            write!(
                f,
                "a workgroup uniform load requires uniform control flow, and here it is not: "
            )?;
            write_disruptor(f, disruptor)
        }
        FunctionError::ConflictingSwitchCase(value) => write_case(f, value),
        FunctionError::InvalidImageAtomicFunction(fun) => {
            write!(f, "{fun:?} is not supported for this image format")
        }
        _ => write_named(f, scene, error),
    }
}

/// Writes the requirement for an invalid function.
pub fn write_function<W: fmt::Write>(
    f: &mut fmt::Formatter<W>,
    scene: &Scene<'_>,
    error: &FunctionError,
) -> fmt::Result {
    let text = plain_text(error);
    if !text.is_empty() {
        return write!(f, "{text}");
    }
    match error {
        FunctionError::Expression { handle, source } => {
            write_expression(f, scene, *handle, source)
        }
        FunctionError::LocalVariable { source, .. } => write_local(f, source),
        FunctionError::InvalidCall { function, error } => write_call(f, scene, *function, error),
        FunctionError::InvalidAtomic(error) => write_atomic(f, scene, error),
        FunctionError::InvalidSubgroup(error) => write_subgroup(f, scene, error),
        FunctionError::InvalidImageStore(source) | FunctionError::InvalidImageAtomic(source) => {
            write_image(f, scene, source)
        }
        FunctionError::InvalidReturnType {
            expression,
            expected_ty,
        } => write_return(f, scene, *expression, *expected_ty),
        FunctionError::InvalidStorePointer(_)
        | FunctionError::InvalidStoreTexture { .. }
        | FunctionError::InvalidStoreValue { .. }
        | FunctionError::InvalidStoreTypes { .. } => write_store(f, scene, error),
        _ => write_setting(f, scene, error),
    }
}

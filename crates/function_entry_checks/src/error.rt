//! The error of an entry point.

use function_varying_checks::VaryingError;
use ir_arena::handle::Handle;
use ir_flags::Capabilities;
use ir_kinds::ShaderStage;
use ir_types::key;
use spec_expressions::GlobalUse;
use thiserror::Error;
use typing_errors::FunctionError;

/// The error of an entry point (naga's `EntryPointError`).
#[derive(Clone, PartialEq, Debug, Drop, Error)]
pub enum EntryPointError {
    /// An earlier entry point of the same stage has the same name.
    #[error("an earlier entry point of the same stage has the same name")]
    Conflict,
    /// A vertex shader, or a mesh shader for its vertices, has no position.
    #[error("vertex and mesh shaders must output the built-in value Position")]
    MissingVertexOutputPosition,
    /// Early depth testing is only for fragment shaders.
    #[error("early depth testing is only for fragment shaders")]
    UnexpectedEarlyDepthTest,
    /// A workgroup size is only for compute, task and mesh shaders.
    #[error("a workgroup size is only for compute, task and mesh shaders")]
    UnexpectedWorkgroupSize,
    /// The workgroup size is out of range.
    #[error("the workgroup size is out of range")]
    OutOfRangeWorkgroupSize,
    /// The function contains operations that the stage forbids.
    #[error("the function executes operations that are forbidden at this stage")]
    ForbiddenStageOperations,
    /// A global variable has an invalid use.
    #[error("global variable {0:?} is used incorrectly as {1:?}")]
    InvalidGlobalUsage(Handle<key::GlobalVariable>, GlobalUse),
    /// More than one immediate data variable is used.
    #[error("more than one immediate data variable is used")]
    MoreThanOneImmediateUsed,
    /// Another used global variable has the same binding.
    #[error("global variable {0:?} has the same binding as another global variable that is used")]
    BindingCollision(Handle<key::GlobalVariable>),
    /// The argument at this index is invalid.
    #[error("argument {0} is invalid: {1}")]
    Argument(u32, VaryingError),
    /// The result, or an output of a mesh shader, is invalid.
    #[error("{0}")]
    Result(#[from] VaryingError),
    /// The function is invalid.
    #[error("{0}")]
    Function(#[from] FunctionError),
    /// A capability is missing.
    #[error("capability {0:?} is not supported")]
    UnsupportedCapability(Capabilities),
    /// A mesh shader must have mesh shader attributes.
    #[error("a mesh shader must have mesh shader attributes")]
    ExpectedMeshShaderAttributes,
    /// Only mesh shaders can have mesh shader attributes.
    #[error("only a mesh shader can have mesh shader attributes")]
    UnexpectedMeshShaderAttributes,
    /// Only task and mesh shaders can have a task payload.
    #[error("only task and mesh shaders can have a task payload")]
    UnexpectedTaskPayload,
    /// The payload is not a variable in the task payload address space.
    #[error("the task payload must be a variable in the address space TaskPayload")]
    TaskPayloadWrongAddressSpace,
    /// A task payload is used that is not the entry point's.
    #[error("a task payload is used that is not the entry point's")]
    WrongTaskPayloadUsed,
    /// A task shader must return the built-in value MeshTaskSize, of type vec3<u32>.
    #[error("a task shader must return the built-in value MeshTaskSize, of type vec3<u32>")]
    WrongTaskShaderEntryResult,
    /// A task shader must declare a task payload.
    #[error("a task shader must declare a task payload")]
    ExpectedTaskPayload,
    /// The output variable of a mesh shader is not a struct with its four members, or implies other attributes than declared.
    #[error("the output variable of a mesh shader must be a struct of the built-in values of its output, and agree with the mesh shader attributes")]
    BadMeshOutputVariableType,
    /// A member of the output variable of a mesh shader has the wrong type.
    #[error("a member of the output variable of a mesh shader has the wrong type")]
    BadMeshOutputVariableField,
    /// A mesh shader cannot have a result.
    #[error("a mesh shader cannot have a result")]
    UnexpectedMeshShaderEntryResult,
    /// The vertex and primitive outputs of a mesh shader must be structs.
    #[error("the vertex and primitive outputs of a mesh shader must be structs")]
    InvalidMeshOutputType,
    /// A primitive output must have exactly one of the built-in values TriangleIndices, LineIndices and PointIndex.
    #[error("a primitive output must have exactly one of the built-in values TriangleIndices, LineIndices and PointIndex")]
    InvalidMeshPrimitiveOutputType,
    /// The output variable of a mesh shader must be in the address space WorkGroup.
    #[error("the output variable of a mesh shader must be in the address space WorkGroup")]
    WrongMeshOutputAddressSpace,
    /// A task payload has fewer than four bytes.
    #[error("a task payload must have at least 4 bytes, but has {0}")]
    TaskPayloadTooSmall(u32),
    /// The stage can't trace rays with payloads.
    #[error("a {0:?} shader cannot use a global variable in the address space RayPayload")]
    RayPayloadInInvalidStage(ShaderStage),
    /// The stage can't have an incoming ray payload.
    #[error("a {0:?} shader cannot use a global variable in the address space IncomingRayPayload")]
    IncomingRayPayloadInInvalidStage(ShaderStage),
}

//! Function errors.

use crate::{
    AtomicError, CallError, ExpressionError, LocalVariableError, SubgroupError, UniformityDisruptor,
};
use ir_arena::handle::Handle;
use ir_flags::Capabilities;
use ir_kinds::{AddressSpace, SwitchValue};
use ir_types::{TypeInner, key};
use spec_expressions::{AtomicFunction, UniformityRequirements};
use thiserror::Error;

/// An error of a function (naga's `FunctionError`). The message is for people: the error, the expression at
/// fault if there is one, and the inner error.
#[derive(Clone, PartialEq, Debug, Drop, Error)]
pub enum FunctionError {
    /// An expression is invalid.
    #[error("expression {handle:?} is invalid: {source}")]
    Expression {
        /// The expression.
        handle: Handle<key::Expression>,
        /// The error.
        source: ExpressionError,
    },
    /// The expression is in scope already.
    #[error("expression {0:?} is already in scope")]
    ExpressionAlreadyInScope(Handle<key::Expression>),
    /// A local variable is invalid.
    #[error("local variable {handle:?} '{name}' is invalid: {source}")]
    LocalVariable {
        /// The variable.
        handle: Handle<key::LocalVariable>,
        /// Its name.
        name: String,
        /// The error.
        source: LocalVariableError,
    },
    /// The argument's type is not allowed for arguments.
    #[error("argument '{name}' at index {index} has a type that cannot be passed into functions")]
    InvalidArgumentType {
        /// The argument, counted from 0.
        index: usize,
        /// Its name.
        name: String,
    },
    /// The result type is not constructible.
    #[error("the result type of the function cannot be returned from functions")]
    NonConstructibleReturnType,
    /// The argument is a pointer into a space that arguments may not point to.
    #[error("argument '{name}' at index {index} is a pointer into address space {space:?}, which cannot be passed into functions")]
    InvalidArgumentPointerSpace {
        /// The argument, counted from 0.
        index: usize,
        /// Its name.
        name: String,
        /// The space.
        space: AddressSpace,
    },
    /// `Break` outside of a loop or switch.
    #[error("a `break` is outside of a loop or switch")]
    BreakOutsideOfLoopOrSwitch,
    /// `Continue` outside of a loop.
    #[error("a `continue` is outside of a loop")]
    ContinueOutsideOfLoop,
    /// `Return` in a continuing block.
    #[error("a `return` is inside of a loop's continuing part")]
    InvalidReturnSpot,
    /// The returned value does not match the function's result.
    #[error("the `return` value {expression:?} does not have the function's result type {expected_ty:?}")]
    InvalidReturnType {
        /// The returned value, if any.
        expression: Option<Handle<key::Expression>>,
        /// The type of the function's result, if any.
        expected_ty: Option<Handle<key::IrType>>,
    },
    /// The condition is no scalar bool.
    #[error("the `if` condition {0:?} is not a boolean scalar")]
    InvalidIfType(Handle<key::Expression>),
    /// The selector is no integer scalar.
    #[error("the `switch` selector {0:?} is not an integer scalar")]
    InvalidSwitchType(Handle<key::Expression>),
    /// Two cases have the same value.
    #[error("several `switch` cases have the value {0:?}")]
    ConflictingSwitchCase(SwitchValue),
    /// The case value's kind differs from the selector's.
    #[error("the `switch` contains cases of another type than the selector")]
    ConflictingCaseType,
    /// A switch has no default.
    #[error("the `switch` has no default case")]
    MissingDefaultCase,
    /// A switch has two defaults.
    #[error("the `switch` has several default cases")]
    MultipleDefaultCases,
    /// The last case falls through.
    #[error("the last `switch` case falls through")]
    LastCaseFallTrough,
    /// The pointer of a store is not a pointer to a type that can be stored.
    #[error("the pointer {0:?} does not point to a type that can be stored")]
    InvalidStorePointer(Handle<key::Expression>),
    /// The stored value does not fit the image.
    #[error("the value {actual:?} of type {actual_ty:?} cannot be stored into the image")]
    InvalidStoreTexture {
        /// The stored value.
        actual: Handle<key::Expression>,
        /// Its type.
        actual_ty: TypeInner,
    },
    /// The type of the stored value differs from the image's texel type.
    #[error("the value {actual:?} has type {actual_ty:?}, but the image stores {expected_ty:?}")]
    InvalidStoreValue {
        /// The stored value.
        actual: Handle<key::Expression>,
        /// Its type.
        actual_ty: TypeInner,
        /// The image's texel type.
        expected_ty: TypeInner,
    },
    /// The type of the stored value differs from the pointer's base type.
    #[error("the type of the value {value:?} does not match that of the pointer {pointer:?} it is stored to")]
    InvalidStoreTypes {
        /// The pointer.
        pointer: Handle<key::Expression>,
        /// The stored value.
        value: Handle<key::Expression>,
    },
    /// An image store is invalid.
    #[error("the image store is invalid: {0}")]
    InvalidImageStore(ExpressionError),
    /// An image atomic is invalid.
    #[error("the image atomic is invalid: {0}")]
    InvalidImageAtomic(ExpressionError),
    /// The image atomic's function is not supported.
    #[error("the image atomic function {0:?} is invalid")]
    InvalidImageAtomicFunction(AtomicFunction),
    /// The value of an image atomic has a wrong type.
    #[error("the image atomic value {0:?} has the wrong type")]
    InvalidImageAtomicValue(Handle<key::Expression>),
    /// A call is invalid.
    #[error("the call of function {function:?} is invalid: {error}")]
    InvalidCall {
        /// The callee.
        function: Handle<key::Function>,
        /// The error.
        error: CallError,
    },
    /// An atomic statement is invalid.
    #[error("the atomic operation is invalid: {0}")]
    InvalidAtomic(#[from] AtomicError),
    /// The ray query operand is no local variable.
    #[error("the ray query {0:?} is not a local variable")]
    InvalidRayQueryExpression(Handle<key::Expression>),
    /// The acceleration structure operand is no acceleration structure.
    #[error("expression {0:?} is not an acceleration structure")]
    InvalidAccelerationStructure(Handle<key::Expression>),
    /// The ray query has `vertex_return`, and the acceleration structure hasn't: the structure, and the query.
    #[error("acceleration structure {0:?} does not return the vertices of a hit, which ray query {1:?} does")]
    MissingAccelerationStructureVertexReturn(Handle<key::Expression>, Handle<key::Expression>),
    /// The ray query lacks `vertex_return`. Never returned.
    #[error("ray query {0:?} does not return the vertices of a hit")]
    MissingRayQueryVertexReturn(Handle<key::Expression>),
    /// The ray descriptor has a wrong type.
    #[error("expression {0:?} is not a ray descriptor")]
    InvalidRayDescriptor(Handle<key::Expression>),
    /// The ray query operand has a wrong type.
    #[error("type {0:?} is not a ray query")]
    InvalidRayQueryType(Handle<key::IrType>),
    /// The hit distance is no float.
    #[error("the hit distance {0:?} is not an f32")]
    InvalidHitDistanceType(Handle<key::Expression>),
    /// The module lacks capabilities.
    #[error("capability {0:?} is required")]
    MissingCapability(Capabilities),
    /// An operation that requires uniform control flow is in non-uniform control flow: the requirement, the expression, and
    /// the cause.
    #[error("{0:?} of expression {1:?} requires uniform control flow: {2}")]
    NonUniformControlFlow(UniformityRequirements, Handle<key::Expression>, UniformityDisruptor),
    /// An argument has a binding, and the function is not an entry point's.
    #[error("argument '{name}' has a binding, but the function is not an entry point")]
    PipelineInputRegularFunction {
        /// Its name.
        name: String,
    },
    /// The result has a binding, and the function is not an entry point's.
    #[error("the result has a binding, but the function is not an entry point")]
    PipelineOutputRegularFunction,
    /// A uniform load from workgroup memory is in non-uniform control flow. Never returned: `NonUniformControlFlow`
    /// covers it.
    #[error("a workgroup uniform load requires uniform control flow: {0}")]
    NonUniformWorkgroupUniformLoad(UniformityDisruptor),
    /// The result of a uniform load is no `WorkGroupUniformLoadResult` of its type.
    #[error("result expression {0:?} does not match the workgroup uniform load")]
    WorkgroupUniformLoadExpressionMismatch(Handle<key::Expression>),
    /// The pointer of a uniform load does not point to workgroup memory.
    #[error("the pointer {0:?} of a workgroup uniform load must be into the address space WorkGroup")]
    WorkgroupUniformLoadInvalidPointer(Handle<key::Expression>),
    /// A subgroup operation is invalid.
    #[error("the subgroup operation is invalid: {0}")]
    InvalidSubgroup(#[from] SubgroupError),
    /// The target of a cooperative store is no cooperative matrix.
    #[error("the target {0:?} of a cooperative store is not a cooperative matrix")]
    InvalidCooperativeStoreTarget(Handle<key::Expression>),
    /// The pointer of a cooperative load or store is not a valid pointer.
    #[error("the data pointer {0:?} of a cooperative load or store is invalid")]
    InvalidCooperativeDataPointer(Handle<key::Expression>),
    /// An `Emit` range contains the result expression of a statement.
    #[error("result expression {0:?} cannot be emitted")]
    EmitResult(Handle<key::Expression>),
    /// A result expression is not the result of any statement.
    #[error("result expression {0:?} is not the result of any statement")]
    UnvisitedExpression(Handle<key::Expression>),
    /// A mesh shader call is given a type other than `u32`. Never returned.
    #[error("the argument {0:?} of a mesh shader call must have the type u32")]
    InvalidMeshFunctionCall(Handle<key::Expression>),
    /// Mesh shader outputs mismatch. Never returned.
    #[error("the mesh output types of {0:?} and {1:?} differ")]
    ConflictingMeshOutputTypes(Handle<key::Expression>, Handle<key::Expression>),
    /// Task shader payloads mismatch. Never returned.
    #[error("the task payload variables {0:?} and {1:?} differ")]
    ConflictingTaskPayloadVariables(Handle<key::Expression>, Handle<key::Expression>),
    /// The mesh shader output is no struct. Never returned.
    #[error("the mesh shader output {0:?} is not a struct")]
    InvalidMeshShaderOutputType(Handle<key::Expression>),
    /// The ray payload is no pointer.
    #[error("the ray payload is not a pointer")]
    InvalidPayloadType,
    /// The ray payload is in a wrong address space.
    #[error("the ray payload is in the invalid address space {0:?}")]
    InvalidPayloadAddressSpace(AddressSpace),
    /// The ray payload's type differs from that of an earlier one: its type, and the earlier one's.
    #[error("ray payload type {0:?} does not match the earlier one {1:?}")]
    MismatchedPayloadType(Handle<key::IrType>, Handle<key::IrType>),
    /// The ray payload is no global variable.
    #[error("the ray payload is not a global variable")]
    PayloadPointerNotGlobal,
    /// The result expression of a `Proceed` or of a ballot is of a wrong kind. It is checked under
    /// `STRICT_SCOPE` only, and naga has no such error.
    #[error("result expression {0:?} does not match the statement")]
    StrictResultMismatch(Handle<key::Expression>),
}

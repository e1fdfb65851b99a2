//! The errors of varyings.

use ir_arena::handle::Handle;
use ir_flags::Capabilities;
use ir_kinds::{BuiltIn, Interpolation, Sampling, ShaderStage};
use ir_types::{TypeInner, key};
use std::alloc::AllocError;
use thiserror::Error;

/// The error of a varying (naga's `VaryingError`).
#[derive(Clone, PartialEq, Debug, Drop, Error)]
pub enum VaryingError {
    /// Varyings can't have this type.
    #[error("type {0:?} cannot be the type of a varying")]
    InvalidType(Handle<key::IrType>),
    /// Values of this type can't be passed between stages.
    #[error("type {0:?} cannot be passed between stages: only numeric scalars and vectors can")]
    NotIOShareableType(Handle<key::IrType>),
    /// This interpolation is not allowed in the stage.
    #[error("interpolation {0:?} is only valid at stage {1:?}")]
    InvalidInterpolationInStage(Interpolation, ShaderStage),
    /// This sampling is not allowed with the interpolation.
    #[error("interpolation {interpolation:?} cannot be combined with sampling {sampling:?}")]
    InvalidInterpolationSamplingCombination {
        /// The interpolation.
        interpolation: Interpolation,
        /// The sampling.
        sampling: Sampling,
    },
    /// Integers must have flat interpolation.
    #[error("integer inputs and outputs must have the interpolation Flat")]
    InvalidInterpolationForInteger,
    /// Vertex outputs and fragment inputs must have an interpolation.
    #[error("vertex outputs and fragment inputs must have an interpolation")]
    MissingInterpolation,
    /// The stage does not have the built-in, or not in this direction.
    #[error("built-in value {0:?} is not available at this stage, or not in this direction")]
    InvalidBuiltInStage(BuiltIn),
    /// The built-in has another type.
    #[error("built-in value {0:?} has the wrong type {1:?}")]
    InvalidBuiltInType(BuiltIn, TypeInner),
    /// Arguments and results of an entry point must have bindings.
    #[error("arguments and results of an entry point must have bindings")]
    MissingBinding,
    /// The struct member at this index has no binding.
    #[error("struct member {0} has no binding")]
    MemberMissingBinding(u32),
    /// Several varyings have one location.
    #[error("location {location} has more than one binding")]
    BindingCollision {
        /// The location.
        location: u32,
    },
    /// Several members have one blend source.
    #[error("blend source {blend_src} has more than one binding")]
    BindingCollisionBlendSrc {
        /// The blend source.
        blend_src: u32,
    },
    /// A built-in occurs twice.
    #[error("built-in value {0:?} is present more than once")]
    DuplicateBuiltIn(BuiltIn),
    /// A capability is missing.
    #[error("capability {0:?} is not supported")]
    UnsupportedCapability(Capabilities),
    /// The binding is not allowed in the stage.
    #[error("attribute {0} is only valid for outputs of stage {1:?}")]
    InvalidInputAttributeInStage(&'static str, ShaderStage),
    /// The binding is not allowed in the stage with this.
    #[error("attribute {0} is not valid at stage {1:?}")]
    InvalidAttributeInStage(&'static str, ShaderStage),
    /// There are only the blend sources 0 and 1, at location 0.
    #[error("a blend source must be 0 or 1, at location 0: blend source {blend_src} at location {location}")]
    InvalidBlendSrcIndex {
        /// The member's location.
        location: u32,
        /// Its blend source.
        blend_src: u32,
    },
    /// One of the two blend sources is missing.
    #[error("both blend sources must be present: only {present_blend_src} is")]
    IncompleteBlendSrcUsage {
        /// The present one.
        present_blend_src: u32,
    },
    /// A member beside the blend sources has a location.
    #[error("a struct with blend sources cannot have other members with locations: location {location}")]
    InvalidBlendSrcWithOtherBindings {
        /// Its location.
        location: u32,
    },
    /// The types of the two blend sources differ.
    #[error("both blend sources must have the same type: {blend_src_0_type:?} and {blend_src_1_type:?}")]
    BlendSrcOutputTypeMismatch {
        /// The type of blend source 0.
        blend_src_0_type: Handle<key::IrType>,
        /// The type of blend source 1.
        blend_src_1_type: Handle<key::IrType>,
    },
    /// Only struct members can have a blend source.
    #[error("only struct members can have a blend source")]
    BlendSrcNotOnStructMember,
    /// A subgroup built-in requires one-dimensional workgroups.
    #[error("the built-in values SubgroupId and SubgroupInvocationId need a one-dimensional workgroup")]
    InvalidMultiDimensionalSubgroupBuiltIn,
    /// Only fragment inputs and mesh outputs can be per primitive.
    #[error("per-primitive values can only be fragment inputs or primitive outputs of a mesh shader")]
    InvalidPerPrimitive,
    /// Outputs of mesh primitives must be per primitive.
    #[error("primitive outputs of a mesh shader must be per-primitive")]
    MissingPerPrimitive,
    /// Per-vertex inputs must be arrays of three.
    #[error("per-vertex fragment inputs must be arrays of length 3")]
    PerVertexNotArrayOfThree,
    /// Per-vertex inputs can only have the sampling Center, or none.
    #[error("per-vertex inputs can only have the sampling Center, or none")]
    InvalidPerVertexSampling,
}

/// The error of the varyings of an entry point.
#[derive(Drop)]
pub enum VaryingRefusal {
    /// Out of memory.
    Memory(AllocError),
    /// A varying is invalid.
    Fault {
        /// The index of its argument; 0 for a result.
        index: usize,
        /// The error.
        error: VaryingError,
    },
}

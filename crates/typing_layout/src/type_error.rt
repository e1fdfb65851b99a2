//! Type errors, and why a type is not host-shareable.

use crate::Alignment;
use ir_flags::Capabilities;
use ir_kinds::{AddressSpace, Bytes, ImageClass, ImageDimension, Scalar, ScalarKind};
use thiserror::Error;
use typing_forms::ir_arena::handle::Handle;
use typing_forms::ir_types::key;

/// Why a scalar kind and width are invalid (naga's `WidthError`).
#[derive(Clone, Copy, PartialEq, Debug, Error)]
pub enum WidthError {
    /// There is no scalar of this kind and width.
    #[error("a scalar of kind {0:?} cannot have a width of {1} bytes")]
    Invalid(ScalarKind, Bytes),
    /// It requires this capability.
    #[error("capability {0:?} is required")]
    MissingCapability(Capabilities),
    /// Abstract types occur in constants only.
    #[error("abstract types are only for const-expressions")]
    Abstract,
}

/// Why a literal is invalid (naga's `LiteralError`, with floats given by their bits).
#[derive(Clone, Copy, PartialEq, Debug, Error)]
pub enum LiteralError {
    /// Wraps a `WidthError`.
    #[error("the scalar type of the literal is invalid: {0}")]
    Width(WidthError),
}

/// Why immediate data can't have a type (naga's `ImmediateError`).
#[derive(Clone, Copy, PartialEq, Debug, Error)]
pub enum ImmediateError {
    /// The type contains this two-byte scalar.
    #[error("immediate data cannot contain the scalar type {0:?}")]
    InvalidScalar(Scalar),
}

/// Why a type is not host-shareable (naga's `Disalignment`).
#[derive(Clone, Copy, PartialEq, Debug, Error)]
pub enum Disalignment {
    /// The array stride is no multiple of the required alignment.
    #[error("the array stride {stride} is not a multiple of the required alignment {alignment}")]
    ArrayStride {
        /// In bytes.
        stride: u32,
        /// The required alignment.
        alignment: Alignment,
    },
    /// The span of a struct is no multiple of its alignment.
    #[error("the struct span {span} is not a multiple of the required alignment {alignment}")]
    StructSpan {
        /// In bytes.
        span: u32,
        /// The struct's alignment.
        alignment: Alignment,
    },
    /// A member's offset is no multiple of the required alignment.
    #[error("the offset {offset} of struct member {index} is not a multiple of the required alignment {alignment}")]
    MemberOffset {
        /// The member's index, from 0.
        index: usize,
        /// Its offset, in bytes.
        offset: u32,
        /// The required alignment.
        alignment: Alignment,
    },
    /// A member is too close to the end of the struct before it.
    #[error("the offset {offset} of struct member {index} must be at least {expected}, because it follows a struct")]
    MemberOffsetAfterStruct {
        /// The member's index, from 0.
        index: usize,
        /// Its offset, in bytes.
        offset: u32,
        /// The minimum offset.
        expected: u64,
    },
    /// The type is not host-shareable.
    #[error("the type is not host-shareable")]
    NonHostShareable,
}

/// Why members can't be blend sources: the part of naga's `VaryingError` about types.
#[derive(Clone, Copy, PartialEq, Debug, Error)]
pub enum VaryingError {
    /// The type is not allowed for inter-stage IO.
    #[error("type {0:?} cannot be passed between stages: only numeric scalars and vectors can")]
    NotIOShareableType(Handle<key::IrType>),
    /// Several members have the same blend source.
    #[error("blend source {blend_src} has more than one binding")]
    BindingCollisionBlendSrc {
        /// The blend source.
        blend_src: u32,
    },
    /// The blend source or location is invalid: there are only the sources 0 and 1, at location 0.
    #[error("a blend source must be 0 or 1, at location 0: blend source {blend_src} at location {location}")]
    InvalidBlendSrcIndex {
        /// The member's location.
        location: u32,
        /// Its blend source.
        blend_src: u32,
    },
    /// One of the two blend sources is missing.
    #[error("both blend sources must be present: only {present_blend_src} is")]
    IncompleteBlendSrcUsage {
        /// The source that is present.
        present_blend_src: u32,
    },
    /// A member other than the blend sources has a location.
    #[error("a struct with blend sources cannot have other members with locations: location {location}")]
    InvalidBlendSrcWithOtherBindings {
        /// Its location.
        location: u32,
    },
    /// The types of the two blend sources differ.
    #[error("both blend sources must have the same type: {blend_src_0_type:?} and {blend_src_1_type:?}")]
    BlendSrcOutputTypeMismatch {
        /// The type of source 0.
        blend_src_0_type: Handle<key::IrType>,
        /// The type of source 1.
        blend_src_1_type: Handle<key::IrType>,
    },
}

/// A type error (naga's `TypeError`; [`TypeError::Other`] is this project's own).
#[derive(Clone, Copy, PartialEq, Debug, Error)]
pub enum TypeError {
    /// Wraps a `WidthError`.
    #[error("{0}")]
    WidthError(WidthError),
    /// It requires this capability.
    #[error("capability {0:?} is required")]
    MissingCapability(Capabilities),
    /// No atomic has this kind and width.
    #[error("an atomic of kind {0:?} cannot have a width of {1} bytes")]
    InvalidAtomicWidth(ScalarKind, Bytes),
    /// The base type of a pointer is not `DATA`.
    #[error("the base type {0:?} of the pointer is invalid")]
    InvalidPointerBase(Handle<key::IrType>),
    /// A pointer to a type of unknown size outside of the storage space.
    #[error("the unsized type {base:?} cannot be the base of a pointer into address space {space:?}")]
    InvalidPointerToUnsized {
        /// The base type.
        base: Handle<key::IrType>,
        /// The address space.
        space: AddressSpace,
    },
    /// A member's type is not `DATA`.
    #[error("struct member {index} has type {ty:?}, which cannot be stored as data")]
    InvalidData {
        /// The member's index, from 0.
        index: usize,
        /// Its type.
        ty: Handle<key::IrType>,
    },
    /// The base type is not `DATA`, or has no known size.
    #[error("the base type {0:?} of the array is invalid")]
    InvalidArrayBaseType(Handle<key::IrType>),
    /// The scalar of a matrix is no float.
    #[error("matrix elements must be floating-point types")]
    MatrixElementNotFloat,
    /// There is no image of this dimension and class.
    #[error("images of dimension {dim:?}, class {class:?} and arrayed {arrayed} are not supported")]
    UnsupportedImageType {
        /// The dimension.
        dim: ImageDimension,
        /// Whether it is arrayed.
        arrayed: bool,
        /// The image class.
        class: ImageClass,
    },
    /// A member other than the last has no known size.
    #[error("struct member {index} has the dynamically sized type {ty:?}, which only the last member can have")]
    InvalidDynamicArray {
        /// The member's index, from 0.
        index: usize,
        /// Its type.
        ty: Handle<key::IrType>,
    },
    /// A member overlaps the one before.
    #[error("struct member {index} at offset {offset} overlaps the previous member")]
    MemberOverlap {
        /// The member's index, from 0.
        index: usize,
        /// Its offset, in bytes.
        offset: u32,
    },
    /// A member ends after the struct's span.
    #[error("struct member {index} at offset {offset} with size {size} exceeds the struct span {span}")]
    MemberOutOfBounds {
        /// The member's index, from 0.
        index: usize,
        /// Its offset, in bytes.
        offset: u32,
        /// Its size, in bytes.
        size: u32,
        /// The struct's span.
        span: u32,
    },
    /// A struct must have at least one member.
    #[error("a struct must have at least one member")]
    EmptyStruct,
    /// Members can't be blend sources.
    #[error("the blend sources of the struct are invalid: {0}")]
    InvalidBlendSrc(VaryingError),
    /// The array's size is an override, and overrides are already resolved.
    #[error("the array length of type {0:?} is an override without a value")]
    UnresolvedOverride(Handle<key::IrType>),
    /// A fault with no variant in naga: the scalar of a cooperative matrix, or the elements or the size of a binding array.
    #[error("the cooperative matrix or binding array is invalid")]
    Other,
}

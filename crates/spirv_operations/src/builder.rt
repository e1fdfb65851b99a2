// The interface through which operations change the function under construction.

use ir_arena::span::Span;
use ir_blocks::{Block, Statement};
use ir_flags::{Capabilities, SubgroupOperationSet};
use ir_kinds::{ImageClass, ImageDimension, PredeclaredType, Scalar, ScalarKind};
use ir_types::Expression;
use spirv_expressions::{Builder, Value, no_value};
use spirv_flow::Flow;
use spirv_rays::RayTypes;
use spirv_types::{ImageShape, ImageUse, MeshMember, Reading, Stored, TypeHandle};
use spirv_words::Instruction;

/// The meaning of an id in the function under construction.
#[derive(Clone, Copy)]
pub enum Slot {
    /// Nothing yet.
    Nothing,
    /// A value.
    Value {
        /// The expression.
        value: Value,
        /// Its scope; `None` where it is always in scope.
        scope: Option<u32>,
        /// The local in which it is stored.
        local: Option<Value>,
    },
    /// A pointer, an image or a sampler, by its index among the pointers.
    Pointer(u32),
    /// An image with a sampler.
    Pair {
        /// The image.
        image: u32,
        /// The sampler.
        sampler: u32,
    },
    /// A texel of an image at a coordinate, by their ids.
    Texel {
        /// The image.
        image: u32,
        /// The coordinate.
        coordinate: u32,
    },
}

/// A step from a pointer to a part.
#[derive(Clone, Copy)]
pub enum PointerStep {
    /// None: it is a variable or an argument.
    Root,
    /// To the part at this index.
    Index(u32),
    /// To the part at the index that this id is.
    Dynamic(u32),
}

/// How a pointer relates to mesh outputs.
#[derive(Clone, Copy)]
pub enum MeshPlace {
    /// Not at all, or its pointee is represented as it is.
    Plain,
    /// An output variable, of all vertices or primitives or of one: the index of its first member among those of all.
    Members(u32),
    /// A member that is signed in SPIR-V but not in the IR.
    Unsigned,
}

/// A pointer, an image or a sampler.
#[derive(Clone, Copy)]
pub struct Pointer {
    /// The pointer that it extends.
    pub base: Option<u32>,
    /// The access step.
    pub step: PointerStep,
    /// Its last expression.
    pub value: Value,
    /// The scope of that expression; `None` where it is always in scope.
    pub scope: Option<u32>,
    /// The type of its pointee.
    pub ty: u32,
    /// Its image, if it is one.
    pub image: Option<ImageUse>,
    /// How matrices in its pointee are stored.
    pub stored: Stored,
    /// The column, for a pointer to a column of a row-major matrix.
    pub column: Option<PointerStep>,
    /// The first member, for a matrix split into members of its struct.
    pub split: Option<u32>,
    /// The number of resources, for an inner array of an array of resources, whose step is combined with the next one.
    pub resources: Option<u32>,
    /// The type built in place of its own.
    pub rebuilt: Option<TypeHandle>,
    /// How it relates to mesh outputs.
    pub mesh: MeshPlace,
}

/// A pointer that is always in scope, to a value of this type.
pub fn root(value: Value, ty: u32) -> Pointer {
    Pointer {
        base: None,
        step: PointerStep::Root,
        value,
        scope: None,
        ty,
        image: None,
        stored: Stored::PLAIN,
        column: None,
        split: None,
        resources: None,
        rebuilt: None,
        mesh: MeshPlace::Plain,
    }
}

/// No pointer.
pub fn no_pointer() -> Pointer {
    root(no_value(), 0)
}

/// No image.
pub const NO_IMAGE: ImageUse = ImageUse {
    shape: ImageShape {
        dim: ImageDimension::D2,
        arrayed: false,
        multi: false,
        depth: false,
        scalar: Scalar::U32,
        format: None,
        attachment: false,
    },
    class: ImageClass::Sampled {
        kind: ScalarKind::Uint,
        multi: false,
    },
};

/// A function under construction, with its statements and the meaning of its ids.
pub trait FunctionBuilder: Builder {
    /// The module.
    fn reading(&self) -> &Reading;

    /// The control flow of its functions.
    fn flow(&self) -> &Flow;

    /// The name of an id, if it has one.
    fn name_of(&mut self, id: u32) -> Option<String>;

    /// Whether an id is of a constant or of a specialization constant.
    fn is_known(&self, id: u32) -> bool;

    /// The meaning of an id.
    fn slot(&self, id: u32) -> Slot;

    /// Sets the meaning of an id.
    fn set(&mut self, id: u32, slot: Slot);

    /// The pointer of an id; a variable gets its expression at its first use.
    fn resolve(&mut self, id: u32, operation: &Instruction) -> Slot;

    /// The index of an id's pointer.
    fn pointer(&mut self, id: u32, operation: &Instruction) -> u32;

    /// The pointer at an index.
    fn pointer_at(&mut self, place: u32, operation: &Instruction) -> Pointer;

    /// A pointer more; returns its place.
    fn add_pointer(&mut self, pointer: Pointer) -> u32;

    /// The expression of a pointer, made again where the last one is not in scope.
    fn way(&mut self, place: u32, operation: &Instruction) -> Value;

    /// A part of a value or of what a pointer points to.
    fn step(&mut self, base: Value, step: PointerStep, operation: &Instruction) -> Value;

    /// The same for the pointee of a pointer, possibly an inner array of an array of resources.
    fn step_from(
        &mut self,
        place: u32,
        base: Value,
        step: PointerStep,
        operation: &Instruction,
    ) -> Value;

    /// The member of a vertex or a primitive at this index among all mesh outputs.
    fn mesh_member(&self, place: u32) -> Option<MeshMember>;

    /// The current scope.
    fn scope(&self) -> u32;

    /// Sets the current scope.
    fn enter(&mut self, scope: u32);

    /// Sets the value of an instruction's result; one that outlives its scope is stored in a local.
    fn define(&mut self, operation: &Instruction, value: Value);

    /// Adds an expression that is always in scope.
    fn always(&mut self, expression: Expression, operation: &Instruction) -> Value;

    /// The expression already made for an id in this function.
    fn named_before(&self, id: u32) -> Option<Value>;

    /// Whether an id has an expression in some function.
    fn is_named(&self, id: u32) -> bool;

    /// Sets the expression of an id in this function.
    fn set_named(&mut self, id: u32, value: Value);

    /// The result struct of an expression, built once.
    fn predeclared(&mut self, of: PredeclaredType) -> TypeHandle;

    /// The types for ray queries, built once.
    fn rays(&mut self) -> RayTypes;

    /// Notes a capability that the module uses.
    fn require(&mut self, capability: Capabilities);

    /// Notes subgroup operations that the module uses.
    fn require_operations(&mut self, operations: SubgroupOperationSet);

    /// Adds a local variable of this type, and returns the pointer to it.
    fn local(
        &mut self,
        name: Option<String>,
        ty: TypeHandle,
        init: Option<Value>,
        span: Span,
    ) -> Value;

    /// Appends a statement to the innermost block.
    fn add(&mut self, statement: Statement, operation: &Instruction);

    /// Opens a block.
    fn open(&mut self);

    /// Closes the innermost block.
    fn close(&mut self) -> Block;

    /// Emits the expressions that no statement has emitted yet.
    fn flush(&mut self);
}

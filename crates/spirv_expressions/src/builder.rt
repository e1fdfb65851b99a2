// The interface through which expressions are made.

use ir_arena::handle::Handle;
use ir_arena::span::Span;
use ir_kinds::{BinaryOperator, ImageClass, Literal, MathFunction, Scalar, ScalarKind, VectorSize};
use ir_types::{Expression, key};
use spirv_types::{ImageShape, MatrixShape, MemberShape, Shape, Stored, TypeHandle};
use spirv_words::{Instruction, Malformed, SpirvError};
use std::alloc::Global;

/// The handle of an expression of the function under construction.
pub type Value = Handle<key::Expression>;

/// An image, as an operand.
#[derive(Clone, Copy)]
pub struct ImageValue {
    /// The image.
    pub value: Value,
    /// Its declaration.
    pub shape: ImageShape,
    /// The class in which it is used.
    pub class: ImageClass,
}

/// The writer that expressions go to. It records the first error; after that it writes nothing, and what its methods return must not be
/// used.
pub trait Emits {
    /// Records this error, unless there was one before.
    fn fail(&mut self, error: SpirvError);

    /// Adds an expression that is evaluated here.
    fn compute(&mut self, expression: Expression, span: Span) -> Value;

    /// Adds an expression that is always in scope, or the result of a statement.
    fn place(&mut self, expression: Expression, span: Span) -> Value;
}

/// A function under construction.
pub trait Builder: Emits {
    /// The allocator.
    fn alloc(&self) -> Global;

    /// Whether there was an error.
    fn has_failed(&self) -> bool;

    /// The operand of an instruction at this index, after its results, if there is one.
    fn given(&self, operation: &Instruction, place: usize) -> Option<u32>;

    /// The number of its operands.
    fn given_count(&self, operation: &Instruction) -> usize;

    /// The shape of a type.
    fn shape(&self, ty: u32) -> Shape;

    /// The type of the part of a value at this index.
    fn part(&self, ty: u32, index: u32) -> Option<MemberShape>;

    /// The type of an id.
    fn type_of(&self, id: u32) -> u32;

    /// The IR type of a type.
    fn built(&mut self, ty: u32, operation: &Instruction) -> TypeHandle;

    /// The type of a vector, or of a scalar where there is no size.
    fn vector(&mut self, size: Option<VectorSize>, scalar: Scalar) -> TypeHandle;

    /// The type that a matrix is stored as.
    fn stored_matrix(&mut self, matrix: &MatrixShape, stored: Stored) -> TypeHandle;

    /// The type of a column or a row of a matrix that is an array of scalars.
    fn packed_line(&mut self, length: VectorSize, scalar: Scalar) -> TypeHandle;

    /// Whether an id is of a constant, and not of a specialization constant.
    fn is_constant(&self, id: u32) -> bool;

    /// The value of a constant integer, or of a float that is 0.
    fn constant(&self, id: u32) -> Option<i64>;

    /// The value of an id.
    fn value(&mut self, id: u32, operation: &Instruction) -> Value;

    /// The image of an id.
    fn image(&mut self, id: u32, operation: &Instruction) -> ImageValue;

    /// The sampler of an id.
    fn sampler(&mut self, id: u32, operation: &Instruction) -> Value;

    /// Adds an expression that is evaluated here.
    fn emit(&mut self, expression: Expression, operation: &Instruction) -> Value;

    /// A literal.
    fn literal(&mut self, literal: Literal, operation: &Instruction) -> Value;
}

/// A placeholder for an expression, after an error.
pub fn no_value() -> Value {
    Handle::at(0)
}

/// A placeholder for a type, after an error.
pub fn no_type() -> TypeHandle {
    Handle::at(0)
}

/// Records this error, and returns a placeholder.
pub fn refuse<E: Emits>(builder: &mut E, error: SpirvError) -> Value {
    builder.fail(error);
    no_value()
}

/// The operand at this index; where it is missing, 0.
pub fn need<B: Builder>(builder: &mut B, operation: &Instruction, place: usize) -> u32 {
    match builder.given(operation, place) {
        Some(word) => word,
        None => {
            builder.fail(operation.malformed(Malformed::MissingOperand));
            0
        }
    }
}

/// Pushes an item, or records that there is no memory.
pub fn keep<E: Emits, T: Drop>(builder: &mut E, list: &mut Vec<T>, item: T) {
    if list.push(item).is_err() {
        builder.fail(SpirvError::Memory);
    }
}

/// The value of the operand at this index.
pub fn operand<B: Builder>(builder: &mut B, operation: &Instruction, place: usize) -> Value {
    let id = need(builder, operation, place);
    builder.value(id, operation)
}

/// The shape of the type of the operand at this index.
pub fn operand_shape<B: Builder>(builder: &mut B, operation: &Instruction, place: usize) -> Shape {
    let id = need(builder, operation, place);
    builder.shape(builder.type_of(id))
}

/// The scalar of a numeric type.
pub fn scalar_of<B: Builder>(builder: &mut B, shape: &Shape, operation: &Instruction) -> Scalar {
    match shape.scalar() {
        Some(scalar) => scalar,
        None => {
            builder.fail(operation.malformed(Malformed::WrongType));
            Scalar::U32
        }
    }
}

/// The scalar of the result.
pub fn result_scalar<B: Builder>(builder: &mut B, operation: &Instruction) -> Scalar {
    let shape = builder.shape(operation.ty);
    scalar_of(builder, &shape, operation)
}

/// The scalar of the operand at this index.
pub fn operand_scalar<B: Builder>(
    builder: &mut B,
    operation: &Instruction,
    place: usize,
) -> Scalar {
    let shape = operand_shape(builder, operation, place);
    scalar_of(builder, &shape, operation)
}

/// Composes a value of this type.
pub fn compose<B: Builder>(
    builder: &mut B,
    operation: &Instruction,
    ty: TypeHandle,
    components: Vec<Value>,
) -> Value {
    builder.emit(Expression::Compose { ty, components }, operation)
}

/// Composes a value of the result's type.
pub fn compose_result<B: Builder>(
    builder: &mut B,
    operation: &Instruction,
    components: Vec<Value>,
) -> Value {
    let ty = builder.built(operation.ty, operation);
    compose(builder, operation, ty, components)
}

/// Composes a value of the result's type from two others.
pub fn compose_pair<B: Builder>(
    builder: &mut B,
    operation: &Instruction,
    first: Value,
    second: Value,
) -> Value {
    let mut components = Vec::new(builder.alloc());
    keep(builder, &mut components, first);
    keep(builder, &mut components, second);
    compose_result(builder, operation, components)
}

/// A vector of this size whose components are all one value; the value itself where there is no size.
pub fn splat<B: Builder>(
    builder: &mut B,
    operation: &Instruction,
    size: Option<VectorSize>,
    value: Value,
) -> Value {
    match size {
        Some(size) => builder.emit(Expression::Splat { size, value }, operation),
        None => value,
    }
}

/// An operator of two values.
pub fn binary<B: Builder>(
    builder: &mut B,
    operation: &Instruction,
    op: BinaryOperator,
    left: Value,
    right: Value,
) -> Value {
    builder.emit(Expression::Binary { op, left, right }, operation)
}

/// Selects one of two values by a condition.
pub fn select<B: Builder>(
    builder: &mut B,
    operation: &Instruction,
    condition: Value,
    accept: Value,
    reject: Value,
) -> Value {
    let select = Expression::Select {
        condition,
        accept,
        reject,
    };
    builder.emit(select, operation)
}

/// A call of a math function.
pub fn call<B: Builder>(
    builder: &mut B,
    operation: &Instruction,
    fun: MathFunction,
    arg: Value,
    rest: [Option<Value>; 3],
) -> Value {
    let [arg1, arg2, arg3] = rest;
    builder.emit(
        Expression::Math {
            fun,
            arg,
            arg1,
            arg2,
            arg3,
        },
        operation,
    )
}

/// A conversion of a value.
pub fn convert<B: Builder>(
    builder: &mut B,
    operation: &Instruction,
    expr: Value,
    kind: ScalarKind,
    width: Option<u8>,
) -> Value {
    builder.emit(
        Expression::As {
            expr,
            kind,
            convert: width,
        },
        operation,
    )
}

/// Bitcasts a value of this kind to another kind.
pub fn as_kind<B: Builder>(
    builder: &mut B,
    operation: &Instruction,
    value: Value,
    from: ScalarKind,
    to: ScalarKind,
) -> Value {
    if from == to {
        value
    } else {
        convert(builder, operation, value, to, None)
    }
}

/// The operand at this index, bitcast to this signedness.
pub fn signed<B: Builder>(
    builder: &mut B,
    operation: &Instruction,
    place: usize,
    kind: ScalarKind,
) -> Value {
    let value = operand(builder, operation, place);
    let scalar = operand_scalar(builder, operation, place);
    as_kind(builder, operation, value, scalar.kind, kind)
}

/// A part of a value.
pub fn part_of<B: Builder>(
    builder: &mut B,
    operation: &Instruction,
    base: Value,
    index: u32,
) -> Value {
    builder.emit(Expression::AccessIndex { base, index }, operation)
}

/// The number of components of a value of this shape.
pub fn component_count(shape: Shape) -> u32 {
    match shape {
        Shape::Vector { size, .. } => u32::from(size),
        _ => 1,
    }
}

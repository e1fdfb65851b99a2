// Composites (section 3.52.12).

use crate::builder::{
    Builder, Value, binary, call, compose, compose_result, keep, need, operand, operand_scalar,
    operand_shape, part_of, refuse, select,
};
use ir_kinds::{
    BinaryOperator, Literal, MathFunction, Scalar, ScalarKind, SwizzleComponent, VectorSize,
};
use ir_types::{ArraySize, Expression};
use spirv_numbers::ops;
use spirv_types::{MatrixShape, MemberShape, Shape, Stored, vector_size};
use spirv_words::{Feature, Instruction, Malformed, SpirvError};

// The most parts of a value that is rebuilt part by part.
const MAX_PARTS: u32 = 1024;

/// Translates an operation on composites; `None` for other operations.
pub fn composite<B: Builder>(builder: &mut B, operation: &Instruction) -> Option<Value> {
    let value = match operation.opcode {
        ops::COMPOSITE_EXTRACT => extract(builder, operation),
        ops::COMPOSITE_CONSTRUCT => construct(builder, operation),
        ops::COMPOSITE_INSERT => insert(builder, operation),
        ops::COPY_LOGICAL => {
            let id = need(builder, operation, 0);
            let value = builder.value(id, operation);
            let from = builder.type_of(id);
            copy_logical(builder, operation, value, from, operation.ty, MAX_DEPTH)
        }
        ops::VECTOR_SHUFFLE => shuffle(builder, operation),
        ops::VECTOR_EXTRACT_DYNAMIC => extract_dynamic(builder, operation),
        ops::VECTOR_INSERT_DYNAMIC => insert_dynamic(builder, operation),
        _ => return None,
    };
    Some(value)
}

// The deepest nesting of types copied part by part.
const MAX_DEPTH: u32 = 16;

// `OpCopyLogical`: converts a value part by part to another type of the same structure.
fn copy_logical<B: Builder>(
    builder: &mut B,
    operation: &Instruction,
    value: Value,
    from: u32,
    to: u32,
    depth: u32,
) -> Value {
    let ty = builder.built(to, operation);
    if builder.built(from, operation) == ty {
        return value;
    }
    let Some(depth) = depth.checked_sub(1) else {
        return refuse(builder, operation.unsupported_by(Feature::DeepCopy));
    };
    let count = count_parts(builder, operation, to);
    let mut components = Vec::new(builder.alloc());
    for index in 0..count {
        let (Some(old), Some(new)) = (builder.part(from, index), builder.part(to, index)) else {
            return refuse(builder, operation.malformed(Malformed::WrongType));
        };
        if old.stored.is_plain() && new.stored.is_plain() {
            let part = part_of(builder, operation, value, old.index);
            let copy = copy_logical(builder, operation, part, old.ty, new.ty, depth);
            keep(builder, &mut components, copy);
        } else {
            let plain = plain_member(builder, operation, value, &old);
            keep_member(builder, operation, &mut components, plain, &new);
        }
    }
    compose(builder, operation, ty, components)
}

// The form of a matrix that is a member of a struct.
#[derive(Clone, Copy)]
enum Form {
    // as the IR has it
    Plain,
    // as the struct stores it
    Stored,
}

// The member of a struct's value in this form.
fn part_as<B: Builder>(
    builder: &mut B,
    operation: &Instruction,
    value: Value,
    part: &MemberShape,
    form: Form,
) -> Value {
    let stored = part.stored;
    match MatrixShape::of(&builder.shape(part.ty)) {
        _ if stored.is_plain() => value,
        Some(matrix) if !part.split => match form {
            Form::Plain => plain_matrix(builder, operation, value, &matrix, stored),
            Form::Stored => relaid_matrix(builder, operation, value, &matrix, stored),
        },
        _ => {
            let plain = match form {
                Form::Plain => plain_array(builder, operation, value, part.ty, stored),
                Form::Stored => None,
            };
            // arrays of matrices are composed as the IR has them alone
            let error = stored.unsupported(operation, Feature::RowMajorStruct);
            given_or_refused(builder, plain, error)
        }
    }
}

// The value, or the recorded error.
fn given_or_refused<B: Builder>(builder: &mut B, value: Option<Value>, error: SpirvError) -> Value {
    match value {
        Some(value) => value,
        None => refuse(builder, error),
    }
}

/// The matrices that are the elements of an array of known length, and how many there are, where a type is such an array.
pub fn matrices_of<B: Builder>(builder: &B, ty: u32) -> Option<(MatrixShape, u32)> {
    match builder.shape(ty) {
        Shape::Array {
            element,
            size: ArraySize::Constant(count),
            ..
        } => match MatrixShape::of(&builder.shape(element)) {
            Some(matrix) => Some((matrix, count)),
            None => None,
        },
        _ => None,
    }
}

/// The value of an array of matrices that are stored so, as the IR has it, matrix by matrix; none where a type is no such array of
/// known length.
pub fn plain_array<B: Builder>(
    builder: &mut B,
    operation: &Instruction,
    value: Value,
    ty: u32,
    stored: Stored,
) -> Option<Value> {
    let (matrix, count) = matrices_of(builder, ty)?;
    let mut components = Vec::new(builder.alloc());
    for index in 0..count {
        if builder.has_failed() {
            break;
        }
        let part = part_of(builder, operation, value, index);
        let plain = plain_matrix(builder, operation, part, &matrix, stored);
        keep(builder, &mut components, plain);
    }
    let ty = builder.built(ty, operation);
    Some(compose(builder, operation, ty, components))
}

// A member of a struct's value, as the IR has it.
fn plain_member<B: Builder>(
    builder: &mut B,
    operation: &Instruction,
    value: Value,
    part: &MemberShape,
) -> Value {
    if part.split {
        return split_matrix(builder, operation, value, part);
    }
    let member = part_of(builder, operation, value, part.index);
    part_as(builder, operation, member, part, Form::Plain)
}

// Adds a member of a struct under composition, as stored: of a split matrix each column or row.
fn keep_member<B: Builder>(
    builder: &mut B,
    operation: &Instruction,
    components: &mut Vec<Value>,
    value: Value,
    part: &MemberShape,
) {
    match MatrixShape::of(&builder.shape(part.ty)) {
        Some(matrix) if part.split => {
            let whole = relaid_matrix(builder, operation, value, &matrix, part.stored);
            let (lines, _) = matrix.lines(part.stored.row_major);
            for index in 0..u32::from(lines) {
                let line = part_of(builder, operation, whole, index);
                keep(builder, components, line);
            }
        }
        _ => {
            let member = part_as(builder, operation, value, part, Form::Stored);
            keep(builder, components, member);
        }
    }
}

// A part of a value. A struct's value has its matrices as they are stored.
fn extract<B: Builder>(builder: &mut B, operation: &Instruction) -> Value {
    let id = need(builder, operation, 0);
    let mut value = builder.value(id, operation);
    let mut ty = builder.type_of(id);
    let mut stored = Stored::PLAIN;
    for place in 1..builder.given_count(operation) {
        let index = need(builder, operation, place);
        let Some(part) = builder.part(ty, index) else {
            return refuse(builder, operation.malformed(Malformed::Index));
        };
        if part.split {
            value = split_matrix(builder, operation, value, &part);
            ty = part.ty;
            continue;
        }
        value = part_of(builder, operation, value, part.index);
        ty = part.ty;
        stored = stored.around(&part.stored);
        if let Some(matrix) = MatrixShape::of(&builder.shape(ty)) {
            value = plain_matrix(builder, operation, value, &matrix, stored);
            stored = Stored::PLAIN;
        }
    }
    if stored.is_plain() {
        return value;
    }
    let plain = plain_array(builder, operation, value, ty, stored);
    let error = stored.unsupported(operation, Feature::ExtractOfRowMajor);
    given_or_refused(builder, plain, error)
}

// A matrix whose columns or rows are members of a struct's value.
fn split_matrix<B: Builder>(
    builder: &mut B,
    operation: &Instruction,
    value: Value,
    part: &MemberShape,
) -> Value {
    let Some(matrix) = MatrixShape::of(&builder.shape(part.ty)) else {
        let error = part.stored.unsupported(operation, Feature::RowMajorStruct);
        return refuse(builder, error);
    };
    let (lines, _) = matrix.lines(part.stored.row_major);
    let components = parts_from(builder, operation, value, part.index, u32::from(lines));
    let ty = builder.stored_matrix(&matrix, part.stored);
    let whole = compose(builder, operation, ty, components);
    plain_matrix(builder, operation, whole, &matrix, part.stored)
}

/// A matrix that is stored so, as the IR has it.
pub fn plain_matrix<B: Builder>(
    builder: &mut B,
    operation: &Instruction,
    value: Value,
    matrix: &MatrixShape,
    stored: Stored,
) -> Value {
    let mut value = value;
    if stored.stride != 0 {
        let unstrided = Stored {
            row_major: stored.row_major,
            stride: 0,
        };
        value = repacked(builder, operation, value, matrix, stored, unstrided);
    }
    transposed(builder, operation, value, stored.row_major)
}

/// A matrix as it is stored so.
pub fn relaid_matrix<B: Builder>(
    builder: &mut B,
    operation: &Instruction,
    value: Value,
    matrix: &MatrixShape,
    stored: Stored,
) -> Value {
    let value = transposed(builder, operation, value, stored.row_major);
    if stored.stride == 0 {
        return value;
    }
    let unstrided = Stored {
        row_major: stored.row_major,
        stride: 0,
    };
    repacked(builder, operation, value, matrix, unstrided, stored)
}

// The columns or rows of a matrix, composed as the type in which it is stored.
fn repacked<B: Builder>(
    builder: &mut B,
    operation: &Instruction,
    value: Value,
    matrix: &MatrixShape,
    from: Stored,
    to: Stored,
) -> Value {
    let (lines, length) = matrix.lines(from.row_major);
    let mut components = Vec::new(builder.alloc());
    for index in 0..u32::from(lines) {
        let mut part = part_of(builder, operation, value, index);
        if from.is_packed(matrix) {
            part = plain_line(builder, operation, part, length, matrix.scalar);
        }
        if to.is_packed(matrix) {
            part = packed_line(builder, operation, part, length, matrix.scalar);
        }
        keep(builder, &mut components, part);
    }
    let ty = builder.stored_matrix(matrix, to);
    compose(builder, operation, ty, components)
}

/// A vector that is stored as an array of scalars.
pub fn plain_line<B: Builder>(
    builder: &mut B,
    operation: &Instruction,
    array: Value,
    length: VectorSize,
    scalar: Scalar,
) -> Value {
    let ty = builder.vector(Some(length), scalar);
    let components = parts_from(builder, operation, array, 0, u32::from(length));
    compose(builder, operation, ty, components)
}

/// A vector as the array of scalars that it is stored as.
pub fn packed_line<B: Builder>(
    builder: &mut B,
    operation: &Instruction,
    vector: Value,
    length: VectorSize,
    scalar: Scalar,
) -> Value {
    let ty = builder.packed_line(length, scalar);
    let components = parts_from(builder, operation, vector, 0, u32::from(length));
    compose(builder, operation, ty, components)
}

/// This many parts of a value in order, from this one on.
pub fn parts_from<B: Builder>(
    builder: &mut B,
    operation: &Instruction,
    value: Value,
    first: u32,
    count: u32,
) -> Vec<Value> {
    let mut parts = Vec::new(builder.alloc());
    for index in 0..count {
        let part = part_of(builder, operation, value, first.saturating_add(index));
        keep(builder, &mut parts, part);
    }
    parts
}

// A matrix, transposed where it is stored row by row.
fn transposed<B: Builder>(
    builder: &mut B,
    operation: &Instruction,
    value: Value,
    row_major: bool,
) -> Value {
    if !row_major {
        return value;
    }
    let none = [None, None, None];
    call(builder, operation, MathFunction::Transpose, value, none)
}

// `OpCompositeConstruct`: a value of all its parts; a vector may be given in smaller vectors.
fn construct<B: Builder>(builder: &mut B, operation: &Instruction) -> Value {
    let ty = operation.ty;
    let is_struct = matches!(builder.shape(ty), Shape::Struct { .. });
    let mut components = Vec::new(builder.alloc());
    let mut place = 0u32;
    for at in 0..builder.given_count(operation) {
        let value = operand(builder, operation, at);
        match builder.part(ty, place) {
            Some(part) if is_struct => {
                keep_member(builder, operation, &mut components, value, &part);
            }
            _ => keep(builder, &mut components, value),
        }
        place = place.saturating_add(1);
    }
    compose_result(builder, operation, components)
}

// Refuses structs whose matrices are not stored as the IR has them.
fn refuse_relaid<B: Builder>(builder: &mut B, operation: &Instruction, ty: u32) {
    let Shape::Struct { count, .. } = builder.shape(ty) else {
        return;
    };
    for place in 0..count {
        let stored = match builder.part(ty, place) {
            Some(part) => part.stored,
            None => Stored::PLAIN,
        };
        if !stored.is_plain() {
            builder.fail(stored.unsupported(operation, Feature::RowMajorStruct));
            return;
        }
    }
}

// The number of parts of a value of a type; 0 after an error.
fn count_parts<B: Builder>(builder: &mut B, operation: &Instruction, ty: u32) -> u32 {
    let count = match builder.shape(ty) {
        Shape::Vector { size, .. } => u32::from(size),
        Shape::Matrix { columns, .. } => u32::from(columns),
        Shape::Struct { count, .. } => count,
        Shape::Array {
            size: ArraySize::Constant(count),
            ..
        } => count,
        _ => {
            builder.fail(operation.malformed(Malformed::WrongType));
            0
        }
    };
    if count > MAX_PARTS {
        builder.fail(operation.unsupported_by(Feature::LargeInsert));
    }
    if builder.has_failed() { 0 } else { count }
}

// A composite around the part being replaced.
#[derive(Clone, Copy)]
struct Around {
    value: Value,
    ty: u32,
    index: u32,
}

// `OpCompositeInsert`: extracts the composites around the part from the outside in, and composes them again.
fn insert<B: Builder>(builder: &mut B, operation: &Instruction) -> Value {
    let mut value = operand(builder, operation, 1);
    let mut ty = operation.ty;
    let mut around = Vec::new(builder.alloc());
    for place in 2..builder.given_count(operation) {
        let index = need(builder, operation, place);
        refuse_relaid(builder, operation, ty);
        keep(builder, &mut around, Around { value, ty, index });
        let Some(part) = builder.part(ty, index) else {
            return refuse(builder, operation.malformed(Malformed::Index));
        };
        value = part_of(builder, operation, value, index);
        ty = part.ty;
    }
    let mut whole = operand(builder, operation, 0);
    for place in around.iter().rev() {
        whole = replace(builder, operation, place, whole);
    }
    whole
}

// The value with this part in place of its own.
fn replace<B: Builder>(
    builder: &mut B,
    operation: &Instruction,
    around: &Around,
    part: Value,
) -> Value {
    let count = count_parts(builder, operation, around.ty);
    let mut components = Vec::new(builder.alloc());
    for index in 0..count {
        if index == around.index {
            keep(builder, &mut components, part);
        } else {
            let part = part_of(builder, operation, around.value, index);
            keep(builder, &mut components, part);
        }
    }
    let ty = builder.built(around.ty, operation);
    compose(builder, operation, ty, components)
}

// The number of components of a vector of this shape.
fn size_of<B: Builder>(builder: &mut B, operation: &Instruction, shape: &Shape) -> u32 {
    match *shape {
        Shape::Vector { size, .. } => u32::from(size),
        _ => {
            builder.fail(operation.malformed(Malformed::WrongType));
            1
        }
    }
}

// `OpVectorShuffle`: a swizzle where all components come from one vector, else a composition.
fn shuffle<B: Builder>(builder: &mut B, operation: &Instruction) -> Value {
    let left = need(builder, operation, 0);
    let right = need(builder, operation, 1);
    let first = builder.shape(builder.type_of(left));
    let second = builder.shape(builder.type_of(right));
    let split = size_of(builder, operation, &first);
    let end = split.saturating_add(size_of(builder, operation, &second));
    let mut indexes = Vec::new(builder.alloc());
    let (mut low, mut high) = (true, true);
    for place in 2..builder.given_count(operation) {
        let word = need(builder, operation, place);
        let index = index_of(word, split, left == right);
        if index >= end {
            return refuse(builder, operation.malformed(Malformed::Index));
        }
        low &= index < split;
        high &= index >= split;
        keep(builder, &mut indexes, index);
    }
    let Some(size) = vector_size(u32::try_from(indexes.len()).unwrap_or(0)) else {
        return refuse(builder, operation.malformed(Malformed::WrongType));
    };
    if low {
        return swizzle(builder, operation, left, size, &indexes, 0);
    }
    if high {
        return swizzle(builder, operation, right, size, &indexes, split);
    }
    mix(builder, operation, &indexes, split)
}

// The component that a word of a shuffle means: the first where it is undefined, and one of the first vector where both are the same.
fn index_of(word: u32, split: u32, is_one: bool) -> u32 {
    let index = if word == u32::MAX { 0 } else { word };
    if is_one && index < split.saturating_mul(2) {
        index.checked_rem(split).unwrap_or(0)
    } else {
        index
    }
}

// Components of one vector.
fn swizzle<B: Builder>(
    builder: &mut B,
    operation: &Instruction,
    id: u32,
    size: VectorSize,
    indexes: &[u32],
    offset: u32,
) -> Value {
    let vector = builder.value(id, operation);
    let pattern = [
        letter(indexes, offset, 0),
        letter(indexes, offset, 1),
        letter(indexes, offset, 2),
        letter(indexes, offset, 3),
    ];
    let swizzle = Expression::Swizzle {
        size,
        vector,
        pattern,
    };
    builder.emit(swizzle, operation)
}

// The component at a position of the indexes, x after the last one.
fn letter(indexes: &[u32], offset: u32, place: usize) -> SwizzleComponent {
    let index = indexes.get(place).copied().unwrap_or(offset);
    SwizzleComponent::from_index(index.saturating_sub(offset))
}

// Composes components of two vectors.
fn mix<B: Builder>(builder: &mut B, operation: &Instruction, indexes: &[u32], split: u32) -> Value {
    let left = operand(builder, operation, 0);
    let right = operand(builder, operation, 1);
    let mut components = Vec::new(builder.alloc());
    for index in indexes {
        let part = match index.checked_sub(split) {
            Some(after) => part_of(builder, operation, right, after),
            None => part_of(builder, operation, left, *index),
        };
        keep(builder, &mut components, part);
    }
    compose_result(builder, operation, components)
}

// The index of a component as a literal of the type of an operand.
fn index_literal<B: Builder>(
    builder: &mut B,
    operation: &Instruction,
    scalar: Scalar,
    index: u32,
) -> Value {
    let literal = match (scalar.kind, scalar.width) {
        (ScalarKind::Sint, 4) => Literal::I32(i32::try_from(index).unwrap_or(0)),
        (ScalarKind::Uint, 4) => Literal::U32(index),
        _ => return refuse(builder, operation.unsupported()),
    };
    builder.literal(literal, operation)
}

// Whether an index is this one.
fn is_index<B: Builder>(
    builder: &mut B,
    operation: &Instruction,
    index: Value,
    scalar: Scalar,
    number: u32,
) -> Value {
    let right = index_literal(builder, operation, scalar, number);
    binary(builder, operation, BinaryOperator::Equal, index, right)
}

// `OpVectorExtractDynamic`: a component at a dynamic index.
fn extract_dynamic<B: Builder>(builder: &mut B, operation: &Instruction) -> Value {
    let shape = operand_shape(builder, operation, 0);
    let size = size_of(builder, operation, &shape);
    let scalar = operand_scalar(builder, operation, 1);
    let vector = operand(builder, operation, 0);
    let index = operand(builder, operation, 1);
    let mut chosen = part_of(builder, operation, vector, 0);
    for number in 1..size {
        let accept = part_of(builder, operation, vector, number);
        let condition = is_index(builder, operation, index, scalar, number);
        chosen = select(builder, operation, condition, accept, chosen);
    }
    chosen
}

// `OpVectorInsertDynamic`: a vector with the component at a dynamic index replaced.
fn insert_dynamic<B: Builder>(builder: &mut B, operation: &Instruction) -> Value {
    let shape = builder.shape(operation.ty);
    let size = size_of(builder, operation, &shape);
    let scalar = operand_scalar(builder, operation, 2);
    let vector = operand(builder, operation, 0);
    let accept = operand(builder, operation, 1);
    let index = operand(builder, operation, 2);
    let mut components = Vec::new(builder.alloc());
    for number in 0..size {
        let condition = is_index(builder, operation, index, scalar, number);
        let reject = part_of(builder, operation, vector, number);
        let part = select(builder, operation, condition, accept, reject);
        keep(builder, &mut components, part);
    }
    compose_result(builder, operation, components)
}

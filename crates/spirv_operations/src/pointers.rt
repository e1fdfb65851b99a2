// Pointers: a variable and access steps.

use crate::builder::{FunctionBuilder, MeshPlace, Pointer, PointerStep, Slot};
use ir_blocks::Statement;
use ir_kinds::{MathFunction, Scalar, ScalarKind, VectorSize};
use ir_types::Expression;
use spirv_expressions::{
    Value, call, component_count, compose, keep, matrices_of, need, no_value, packed_line, part_of,
    plain_array, plain_line, plain_matrix, refuse, relaid_matrix,
};
use spirv_images::count_resources;
use spirv_types::{MatrixShape, MemberShape, MeshMember, Shape, Stored, TypeHandle};
use spirv_words::{Feature, Instruction, Malformed, Unsupported};

// The pointer one step further, to this part.
fn go_on<L: FunctionBuilder>(
    lowering: &mut L,
    place: u32,
    step: PointerStep,
    part: MemberShape,
    operation: &Instruction,
) -> u32 {
    let from = lowering.pointer_at(place, operation);
    let base = lowering.way(place, operation);
    let value = lowering.step_from(place, base, step, operation);
    let scope = Some(lowering.scope());
    lowering.add_pointer(Pointer {
        base: Some(place),
        step,
        value,
        scope,
        ty: part.ty,
        image: from.image,
        stored: part.stored,
        column: None,
        split: None,
        resources: None,
        rebuilt: None,
        mesh: match from.mesh {
            MeshPlace::Unsigned => MeshPlace::Unsigned,
            MeshPlace::Plain | MeshPlace::Members(_) => MeshPlace::Plain,
        },
    })
}

// The pointer to a part of what a mesh stage gives by a variable whose first member this is: to the member of a vertex or a
// primitive, or, of a block, to that as the block.
fn follow_given<L: FunctionBuilder>(
    lowering: &mut L,
    place: u32,
    first: u32,
    step: PointerStep,
    part: MemberShape,
    operation: &Instruction,
) -> u32 {
    let ty = lowering.pointer_at(place, operation).ty;
    if let (Shape::Struct { .. }, PointerStep::Index(index)) = (lowering.shape(ty), step) {
        let member = first.saturating_add(index);
        return go_to_member(lowering, place, member, part, operation);
    }
    let element = go_on(lowering, place, step, part, operation);
    if matches!(lowering.shape(part.ty), Shape::Struct { .. }) {
        let mut block = lowering.pointer_at(element, operation);
        block.mesh = MeshPlace::Members(first);
        return lowering.add_pointer(block);
    }
    go_to_member(lowering, element, first, part, operation)
}

// The pointer to the member of a vertex or a primitive at this index among all mesh outputs.
fn go_to_member<L: FunctionBuilder>(
    lowering: &mut L,
    from: u32,
    member: u32,
    part: MemberShape,
    operation: &Instruction,
) -> u32 {
    let given = lowering.mesh_member(member).unwrap_or(MeshMember::NONE);
    let Some(index) = given.index else {
        lowering.fail(operation.unsupported_by(Feature::MeshWhole));
        return from;
    };
    let place = go_on(lowering, from, PointerStep::Index(index), part, operation);
    if !given.unsigned {
        return place;
    }
    let mut unsigned = lowering.pointer_at(place, operation);
    unsigned.mesh = MeshPlace::Unsigned;
    lowering.add_pointer(unsigned)
}

// Converts a number that is signed in SPIR-V but not in the IR to this kind.
fn as_given<L: FunctionBuilder>(
    lowering: &mut L,
    pointer: &Pointer,
    expr: Value,
    kind: ScalarKind,
    operation: &Instruction,
) -> Value {
    match pointer.mesh {
        MeshPlace::Plain => expr,
        MeshPlace::Unsigned => {
            let convert = None;
            lowering.emit(
                Expression::As {
                    expr,
                    kind,
                    convert,
                },
                operation,
            )
        }
        MeshPlace::Members(_) => {
            lowering.fail(operation.unsupported_by(Feature::MeshWhole));
            expr
        }
    }
}

// The access step for an index of an access chain.
fn index_step<L: FunctionBuilder>(
    lowering: &mut L,
    ty: u32,
    id: u32,
    operation: &Instruction,
) -> PointerStep {
    let constant = match lowering.constant(id) {
        Some(value) => u32::try_from(value).ok(),
        None => None,
    };
    let fixed = lowering.is_constant(id);
    match (lowering.shape(ty), constant) {
        (Shape::Struct { .. }, Some(index)) => PointerStep::Index(index),
        (Shape::Struct { .. }, None) => {
            lowering.fail(operation.unsupported_by(Feature::DynamicMember));
            PointerStep::Root
        }
        (_, Some(index)) if fixed => PointerStep::Index(index),
        _ => PointerStep::Dynamic(id),
    }
}

// The pointer to the part of what a pointer points to at the index that an id is.
fn follow<L: FunctionBuilder>(
    lowering: &mut L,
    place: u32,
    id: u32,
    operation: &Instruction,
) -> u32 {
    let from = lowering.pointer_at(place, operation);
    let mut step = index_step(lowering, from.ty, id, operation);
    let index = match step {
        PointerStep::Index(index) => index,
        PointerStep::Root | PointerStep::Dynamic(_) => 0,
    };
    let Some(mut part) = lowering.part(from.ty, index) else {
        lowering.fail(operation.malformed(Malformed::Index));
        return place;
    };
    if let MeshPlace::Members(first) = from.mesh {
        return follow_given(lowering, place, first, step, part, operation);
    }
    if let Some(near) = stay(lowering, place, &from, step, &part) {
        return lowering.add_pointer(near);
    }
    if let Some(of_row) = from.column {
        let matrix = matrix_of(lowering, place, operation);
        let step = line_step(lowering, &from, step, operation);
        let row = go_on(lowering, matrix, step, part, operation);
        return go_on(lowering, row, of_row, part, operation);
    }
    if matches!(lowering.shape(from.ty), Shape::Struct { .. }) {
        step = PointerStep::Index(part.index);
    }
    let step = line_step(lowering, &from, step, operation);
    part.stored = stored_part(lowering, &from, &part);
    go_on(lowering, place, step, part, operation)
}

// The pointer to a part that has no place of its own, so that it stays where it is: an array in an array of resources, a matrix
// whose columns or rows are members of its struct, or the column of a matrix that is stored row by row.
fn stay<L: FunctionBuilder>(
    lowering: &L,
    place: u32,
    from: &Pointer,
    step: PointerStep,
    part: &MemberShape,
) -> Option<Pointer> {
    let mut near = *from;
    near.ty = part.ty;
    if let Some(count) = count_resources(lowering, part.ty) {
        near.base = Some(place);
        near.step = step;
        near.resources = Some(count);
        return Some(near);
    }
    if part.split {
        near.split = Some(part.index);
        near.stored = part.stored;
        return Some(near);
    }
    let is_matrix = matches!(lowering.shape(from.ty), Shape::Matrix { .. });
    if from.stored.row_major && is_matrix {
        near.column = Some(step);
        return Some(near);
    }
    None
}

// The step to a column or a row of a matrix, which may be a member of the struct around it.
fn line_step<L: FunctionBuilder>(
    lowering: &mut L,
    from: &Pointer,
    step: PointerStep,
    operation: &Instruction,
) -> PointerStep {
    let Some(first) = from.split else {
        return step;
    };
    match step {
        PointerStep::Index(index) => PointerStep::Index(first.saturating_add(index)),
        PointerStep::Root | PointerStep::Dynamic(_) => {
            refuse_split(lowering, from, operation);
            step
        }
    }
}

// The error for an operation on a matrix split into members of its struct.
fn refuse_split<L: FunctionBuilder>(lowering: &mut L, pointer: &Pointer, operation: &Instruction) {
    let what = Unsupported::MatrixStride(pointer.stored.stride);
    lowering.fail(operation.unsupported_as(what));
}

// The pointer to the matrix of which a pointer is a column.
fn matrix_of<L: FunctionBuilder>(lowering: &mut L, place: u32, operation: &Instruction) -> u32 {
    let mut matrix = lowering.pointer_at(place, operation);
    matrix.column = None;
    lowering.add_pointer(matrix)
}

// How the part of what a pointer points to is stored: the column of a matrix as an array of scalars where that is so.
fn stored_part<L: FunctionBuilder>(lowering: &L, from: &Pointer, part: &MemberShape) -> Stored {
    match MatrixShape::of(&lowering.shape(from.ty)) {
        None => from.stored.around(&part.stored),
        Some(matrix) if from.stored.is_packed(&matrix) => from.stored,
        Some(_) => Stored::PLAIN,
    }
}

/// An access chain; where an image or a sampler is extracted out of an array of those, its indices are written as they are.
pub fn chain<L: FunctionBuilder>(lowering: &mut L, operation: &Instruction, written: bool) {
    let id = need(lowering, operation, 0);
    let slot = match lowering.resolve(id, operation) {
        Slot::Pair { image, sampler } => Slot::Pair {
            image: follow_all(lowering, image, operation, written),
            sampler: follow_all(lowering, sampler, operation, written),
        },
        Slot::Pointer(place) => Slot::Pointer(follow_all(lowering, place, operation, written)),
        Slot::Nothing | Slot::Value { .. } | Slot::Texel { .. } => {
            lowering.fail(operation.malformed(Malformed::NoPointer));
            return;
        }
    };
    lowering.set(operation.id, slot);
}

// The pointer to the part at all indices of an instruction.
fn follow_all<L: FunctionBuilder>(
    lowering: &mut L,
    place: u32,
    operation: &Instruction,
    written: bool,
) -> u32 {
    let mut at = place;
    for step in 1..lowering.given_count(operation) {
        let index = need(lowering, operation, step);
        if !written {
            at = follow(lowering, at, index, operation);
            continue;
        }
        let ty = lowering.pointer_at(at, operation).ty;
        let Some(part) = lowering.part(ty, index) else {
            lowering.fail(operation.malformed(Malformed::Index));
            return at;
        };
        at = go_on(lowering, at, PointerStep::Index(index), part, operation);
    }
    at
}

/// `OpLoad`.
pub fn load<L: FunctionBuilder>(lowering: &mut L, place: u32, operation: &Instruction) -> Value {
    let from = lowering.pointer_at(place, operation);
    let pointer = lowering.way(place, operation);
    if let Some(column) = from.column {
        return load_column(lowering, pointer, &from, column, operation);
    }
    if from.split.is_some() {
        return load_split(lowering, pointer, &from, operation);
    }
    let value = lowering.emit(Expression::Load { pointer }, operation);
    let value = as_given(lowering, &from, value, ScalarKind::Sint, operation);
    if let Some(count) = rebuilt_parts(lowering, &from) {
        let ty = lowering.built(from.ty, operation);
        return compose_again(lowering, value, ty, count, operation);
    }
    let shape = lowering.shape(from.ty);
    if let Some(matrix) = MatrixShape::of(&shape) {
        return plain_matrix(lowering, operation, value, &matrix, from.stored);
    }
    if let (Some((length, scalar)), false) = (vector_of(&shape), from.stored.is_plain()) {
        return plain_line(lowering, operation, value, length, scalar);
    }
    if matches!(shape, Shape::Array { .. }) && !from.stored.is_plain() {
        return load_array(lowering, &from, value, operation);
    }
    value
}

// An array of matrices that is loaded as it is stored, as the IR has it.
fn load_array<L: FunctionBuilder>(
    lowering: &mut L,
    from: &Pointer,
    value: Value,
    operation: &Instruction,
) -> Value {
    match plain_array(lowering, operation, value, from.ty, from.stored) {
        Some(plain) => plain,
        None => refuse(
            lowering,
            from.stored.unsupported(operation, Feature::LoadOfRowMajor),
        ),
    }
}

// A matrix whose columns or rows are members of a struct, composed of them.
fn load_split<L: FunctionBuilder>(
    lowering: &mut L,
    block: Value,
    pointer: &Pointer,
    operation: &Instruction,
) -> Value {
    let (Some(matrix), Some(first)) = (MatrixShape::of(&lowering.shape(pointer.ty)), pointer.split)
    else {
        return no_value();
    };
    let (lines, _) = matrix.lines(pointer.stored.row_major);
    let mut components = Vec::new(lowering.alloc());
    for line in 0..u32::from(lines) {
        let part = part_of(lowering, operation, block, first.saturating_add(line));
        let value = lowering.emit(Expression::Load { pointer: part }, operation);
        keep(lowering, &mut components, value);
    }
    let ty = lowering.stored_matrix(&matrix, pointer.stored);
    let whole = compose(lowering, operation, ty, components);
    plain_matrix(lowering, operation, whole, &matrix, pointer.stored)
}

// The size and the scalar of a vector.
fn vector_of(shape: &Shape) -> Option<(VectorSize, Scalar)> {
    match *shape {
        Shape::Vector { size, scalar, .. } => Some((size, scalar)),
        _ => None,
    }
}

// Refuses arrays of matrices that are not stored as the IR has them.
fn refuse_arrays<L: FunctionBuilder>(
    lowering: &mut L,
    operation: &Instruction,
    pointer: &Pointer,
    shape: &Shape,
    feature: Feature,
) {
    if matches!(shape, Shape::Array { .. }) && !pointer.stored.is_plain() {
        lowering.fail(pointer.stored.unsupported(operation, feature));
    }
}

// A column of a matrix that is stored row by row: a component of each row.
fn load_column<L: FunctionBuilder>(
    lowering: &mut L,
    matrix: Value,
    pointer: &Pointer,
    column: PointerStep,
    operation: &Instruction,
) -> Value {
    if pointer.stored.stride == 0 {
        let none = [None, None, None];
        let value = lowering.emit(Expression::Load { pointer: matrix }, operation);
        let whole = call(lowering, operation, MathFunction::Transpose, value, none);
        return lowering.step(whole, column, operation);
    }
    let mut components = Vec::new(lowering.alloc());
    for index in 0..component_count(lowering.shape(pointer.ty)) {
        let index = index.saturating_add(pointer.split.unwrap_or(0));
        let row = part_of(lowering, operation, matrix, index);
        let part = lowering.step(row, column, operation);
        let value = lowering.emit(Expression::Load { pointer: part }, operation);
        keep(lowering, &mut components, value);
    }
    let ty = lowering.built(pointer.ty, operation);
    compose(lowering, operation, ty, components)
}

// The number of members of a struct that was rebuilt for a variable.
fn rebuilt_parts<L: FunctionBuilder>(lowering: &L, pointer: &Pointer) -> Option<u32> {
    let _ = pointer.rebuilt?;
    match lowering.shape(pointer.ty) {
        Shape::Struct { count, .. } => Some(count),
        _ => None,
    }
}

// The members of a struct, composed as another type.
fn compose_again<L: FunctionBuilder>(
    lowering: &mut L,
    base: Value,
    ty: TypeHandle,
    count: u32,
    operation: &Instruction,
) -> Value {
    let mut components = Vec::new(lowering.alloc());
    for index in 0..count {
        if lowering.has_failed() {
            break;
        }
        let part = part_of(lowering, operation, base, index);
        keep(lowering, &mut components, part);
    }
    compose(lowering, operation, ty, components)
}

// The value in the form in which a pointer's pointee stores it.
fn stored_value<L: FunctionBuilder>(
    lowering: &mut L,
    to: &Pointer,
    value: Value,
    operation: &Instruction,
) -> Value {
    let mut value = as_given(lowering, to, value, ScalarKind::Uint, operation);
    if let (Some(ty), Some(count)) = (to.rebuilt, rebuilt_parts(lowering, to)) {
        value = compose_again(lowering, value, ty, count, operation);
    }
    let shape = lowering.shape(to.ty);
    if let Some(matrix) = MatrixShape::of(&shape) {
        return relaid_matrix(lowering, operation, value, &matrix, to.stored);
    }
    if let (Some((length, scalar)), false) = (vector_of(&shape), to.stored.is_plain()) {
        return packed_line(lowering, operation, value, length, scalar);
    }
    refuse_arrays(lowering, operation, to, &shape, Feature::StoreOfRowMajor);
    value
}

/// Stores a value into what a pointer points to.
pub fn store_into<L: FunctionBuilder>(
    lowering: &mut L,
    place: u32,
    value: Value,
    operation: &Instruction,
) {
    let to = lowering.pointer_at(place, operation);
    if to.column.is_some() {
        lowering.fail(operation.unsupported_by(Feature::StoreIntoColumn));
    }
    if to.split.is_some() {
        refuse_split(lowering, &to, operation);
    }
    if let (Some((matrix, count)), false) = (matrices_of(lowering, to.ty), to.stored.is_plain()) {
        store_matrices(lowering, place, value, &matrix, count, operation);
        return;
    }
    let value = stored_value(lowering, &to, value, operation);
    let pointer = lowering.way(place, operation);
    lowering.add(Statement::Store { pointer, value }, operation);
}

// Stores so many matrices into an array of those, each as it is stored there.
fn store_matrices<L: FunctionBuilder>(
    lowering: &mut L,
    place: u32,
    value: Value,
    matrix: &MatrixShape,
    count: u32,
    operation: &Instruction,
) {
    let stored = lowering.pointer_at(place, operation).stored;
    let array = lowering.way(place, operation);
    for index in 0..count {
        if lowering.has_failed() {
            break;
        }
        let pointer = part_of(lowering, operation, array, index);
        let part = part_of(lowering, operation, value, index);
        let value = relaid_matrix(lowering, operation, part, matrix, stored);
        lowering.add(Statement::Store { pointer, value }, operation);
    }
}

// Conversions, those that keep the bits between scalars of two widths among them, and products of two words.

use ir_kinds::{BinaryOperator, Literal, Scalar, ScalarKind, VectorSize};
use spirv_expressions::{
    Builder, Value, as_kind, binary, component_count, compose_pair, compose_result, convert, keep,
    no_value, operand, operand_scalar, operand_shape, part_of, refuse, result_scalar, signed,
    splat,
};
use spirv_numbers::ops;
use spirv_types::Shape;
use spirv_words::Instruction;

// Products of two words (section 3.52.13).
const U_MUL_EXTENDED: u16 = 151;

const S_MUL_EXTENDED: u16 = 152;

/// Translates a bitcast or an extended product; `None` for other operations.
pub fn wide<B: Builder>(builder: &mut B, operation: &Instruction) -> Option<Value> {
    let value = match operation.opcode {
        ops::BITCAST => cast(builder, operation, 0),
        U_MUL_EXTENDED => product(builder, operation, false),
        S_MUL_EXTENDED => product(builder, operation, true),
        _ => return None,
    };
    Some(value)
}

// Conversions of values, with the kinds of operand and result.
static CONVERSIONS: [(u16, ScalarKind, ScalarKind); 7] = [
    (ops::CONVERT_F_TO_U, ScalarKind::Float, ScalarKind::Uint),
    (ops::CONVERT_F_TO_S, ScalarKind::Float, ScalarKind::Sint),
    (ops::CONVERT_S_TO_F, ScalarKind::Sint, ScalarKind::Float),
    (ops::CONVERT_U_TO_F, ScalarKind::Uint, ScalarKind::Float),
    (ops::U_CONVERT, ScalarKind::Uint, ScalarKind::Uint),
    (ops::S_CONVERT, ScalarKind::Sint, ScalarKind::Sint),
    (ops::F_CONVERT, ScalarKind::Float, ScalarKind::Float),
];

/// Translates a conversion of a value; `None` for other operations. Signedness is that of the operation, whatever the types have.
pub fn conversion<B: Builder>(builder: &mut B, operation: &Instruction) -> Option<Value> {
    for row in &CONVERSIONS {
        if row.0 == operation.opcode {
            return Some(converted(builder, operation, row.1, row.2));
        }
    }
    None
}

// The operand, taken as the first kind, converted to the second and then to the signedness of the result.
fn converted<B: Builder>(
    builder: &mut B,
    operation: &Instruction,
    from: ScalarKind,
    gives: ScalarKind,
) -> Value {
    let value = signed(builder, operation, 0, from);
    let to = result_scalar(builder, operation);
    let made = convert(builder, operation, value, gives, Some(to.width));
    as_kind(builder, operation, made, gives, to.kind)
}

// A value shifted by this many bits.
fn shifted<B: Builder>(
    builder: &mut B,
    operation: &Instruction,
    op: BinaryOperator,
    value: Value,
    bits: u32,
) -> Value {
    if bits == 0 {
        return value;
    }
    let count = builder.literal(Literal::U32(bits), operation);
    binary(builder, operation, op, value, count)
}

// The operand of a bitcast: its value, scalar and number of components.
#[derive(Clone, Copy)]
struct Bits {
    value: Value,
    scalar: Scalar,
    count: u32,
}

// The component at this index, bitcast to an unsigned integer.
fn bits_at<B: Builder>(builder: &mut B, operation: &Instruction, from: &Bits, place: u32) -> Value {
    let mut part = from.value;
    if from.count > 1 {
        part = part_of(builder, operation, part, place);
    }
    as_kind(builder, operation, part, from.scalar.kind, ScalarKind::Uint)
}

// The quotient of two widths.
fn times_in(wide: u8, narrow: u8) -> u32 {
    match wide.checked_div(narrow) {
        Some(times) => u32::from(times),
        None => 1,
    }
}

// This many components of an operand, from one on, as one wide integer: the first has the lowest bits.
fn joined<B: Builder>(
    builder: &mut B,
    operation: &Instruction,
    from: &Bits,
    first: u32,
    to: Scalar,
) -> Value {
    let width = from.scalar.width;
    let mut whole = None;
    for place in 0..times_in(to.width, width) {
        let narrow = bits_at(builder, operation, from, first.saturating_add(place));
        let wide = convert(builder, operation, narrow, ScalarKind::Uint, Some(to.width));
        let bits = place.saturating_mul(u32::from(width)).saturating_mul(8);
        let part = shifted(builder, operation, BinaryOperator::ShiftLeft, wide, bits);
        whole = match whole {
            None => Some(part),
            Some(before) => {
                let op = BinaryOperator::InclusiveOr;
                Some(binary(builder, operation, op, before, part))
            }
        };
    }
    match whole {
        Some(whole) => as_kind(builder, operation, whole, ScalarKind::Uint, to.kind),
        None => refuse(builder, operation.unsupported()),
    }
}

// The part at an index of a wide integer, from the lowest bits on.
fn part_at<B: Builder>(
    builder: &mut B,
    operation: &Instruction,
    wide: Value,
    place: u32,
    to: Scalar,
) -> Value {
    let bits = place.saturating_mul(u32::from(to.width)).saturating_mul(8);
    let low = shifted(builder, operation, BinaryOperator::ShiftRight, wide, bits);
    let narrow = convert(builder, operation, low, ScalarKind::Uint, Some(to.width));
    as_kind(builder, operation, narrow, ScalarKind::Uint, to.kind)
}

/// Bitcasts the operand at this index to the result's type, with scalars of the same width or another one.
pub fn cast<B: Builder>(builder: &mut B, operation: &Instruction, place: usize) -> Value {
    let to = result_scalar(builder, operation);
    let scalar = operand_scalar(builder, operation, place);
    let value = operand(builder, operation, place);
    if scalar.width == to.width {
        return convert(builder, operation, value, to.kind, None);
    }
    let from = Bits {
        value,
        scalar,
        count: component_count(operand_shape(builder, operation, place)),
    };
    let components = if scalar.width < to.width {
        widened(builder, operation, &from, to)
    } else {
        narrowed(builder, operation, &from, to)
    };
    match (builder.shape(operation.ty), components.first()) {
        (Shape::Scalar(_), Some(alone)) => *alone,
        _ => compose_result(builder, operation, components),
    }
}

// The components of the result, each composed of several of the operand.
fn widened<B: Builder>(
    builder: &mut B,
    operation: &Instruction,
    from: &Bits,
    to: Scalar,
) -> Vec<Value> {
    let each = times_in(to.width, from.scalar.width);
    let mut components = Vec::new(builder.alloc());
    for place in 0..component_count(builder.shape(operation.ty)) {
        let part = joined(builder, operation, from, place.saturating_mul(each), to);
        keep(builder, &mut components, part);
    }
    components
}

// The components of the result, several for each one of the operand.
fn narrowed<B: Builder>(
    builder: &mut B,
    operation: &Instruction,
    from: &Bits,
    to: Scalar,
) -> Vec<Value> {
    let each = times_in(from.scalar.width, to.width);
    let mut components = Vec::new(builder.alloc());
    for place in 0..from.count {
        let wide = bits_at(builder, operation, from, place);
        for part in 0..each {
            let part = part_at(builder, operation, wide, part, to);
            keep(builder, &mut components, part);
        }
    }
    components
}

// A constant with as many components as the operands.
fn constant<B: Builder>(
    builder: &mut B,
    operation: &Instruction,
    size: Option<VectorSize>,
    number: u32,
) -> Value {
    let value = builder.literal(Literal::U32(number), operation);
    splat(builder, operation, size, value)
}

// How the upper word of a product of unsigned words x and y is made by their halves. Each row is an operator of two values by
// their numbers: x is 0, y is 1, the number 16 is 2, the mask of a lower half is 3, and the rows follow from 4 on.
static UPPER: [(BinaryOperator, u8, u8); 16] = [
    (BinaryOperator::ShiftRight, 0, 2), // 4: the upper half of x
    (BinaryOperator::And, 0, 3), // 5: its lower half
    (BinaryOperator::ShiftRight, 1, 2), // 6: the upper half of y
    (BinaryOperator::And, 1, 3), // 7: its lower half
    (BinaryOperator::Multiply, 5, 7), // 8: the product of the lower halves
    (BinaryOperator::ShiftRight, 8, 2), // 9: what it carries
    (BinaryOperator::Multiply, 4, 7), // 10: one product across
    (BinaryOperator::Add, 10, 9), // 11
    (BinaryOperator::ShiftRight, 11, 2), // 12: what this carries
    (BinaryOperator::And, 11, 3), // 13: and what it leaves
    (BinaryOperator::Multiply, 5, 6), // 14: the other product across
    (BinaryOperator::Add, 14, 13), // 15
    (BinaryOperator::ShiftRight, 15, 2), // 16: what this carries
    (BinaryOperator::Multiply, 4, 6), // 17: the product of the upper halves
    (BinaryOperator::Add, 17, 12),
    (BinaryOperator::Add, 18, 16),
];

// The upper word of a product of unsigned words.
fn upper<B: Builder>(
    builder: &mut B,
    operation: &Instruction,
    size: Option<VectorSize>,
    x: Value,
    y: Value,
) -> Value {
    let mut values = [x; 20];
    values[1] = y;
    values[2] = constant(builder, operation, size, 16);
    values[3] = constant(builder, operation, size, 65535);
    let mut last = x;
    for (place, row) in UPPER.iter().enumerate() {
        let (op, left, right) = *row;
        let left = numbered(&values, left);
        let right = numbered(&values, right);
        last = binary(builder, operation, op, left, right);
        if let Some(slot) = values.get_mut(place.saturating_add(4)) {
            *slot = last;
        }
    }
    last
}

// The value with this index.
fn numbered(values: &[Value; 20], number: u8) -> Value {
    values
        .get(usize::from(number))
        .copied()
        .unwrap_or(no_value())
}

// A word if another one is negative, else 0.
fn where_negative<B: Builder>(
    builder: &mut B,
    operation: &Instruction,
    size: Option<VectorSize>,
    place: usize,
    word: Value,
) -> Value {
    let count = constant(builder, operation, size, 31);
    let value = signed(builder, operation, place, ScalarKind::Sint);
    let sign = binary(builder, operation, BinaryOperator::ShiftRight, value, count);
    let all = as_kind(builder, operation, sign, ScalarKind::Sint, ScalarKind::Uint);
    binary(builder, operation, BinaryOperator::And, all, word)
}

// The extended product of two words, as a struct of its lower and upper word.
fn product<B: Builder>(builder: &mut B, operation: &Instruction, is_signed: bool) -> Value {
    let scalar = operand_scalar(builder, operation, 0);
    if scalar.width != 4 {
        return refuse(builder, operation.unsupported());
    }
    let size = operand_shape(builder, operation, 0).size();
    let x = signed(builder, operation, 0, ScalarKind::Uint);
    let y = signed(builder, operation, 1, ScalarKind::Uint);
    let low = binary(builder, operation, BinaryOperator::Multiply, x, y);
    let mut high = upper(builder, operation, size, x, y);
    if is_signed {
        let over = where_negative(builder, operation, size, 0, y);
        high = binary(builder, operation, BinaryOperator::Subtract, high, over);
        let over = where_negative(builder, operation, size, 1, x);
        high = binary(builder, operation, BinaryOperator::Subtract, high, over);
    }
    let low = as_kind(builder, operation, low, ScalarKind::Uint, scalar.kind);
    let high = as_kind(builder, operation, high, ScalarKind::Uint, scalar.kind);
    compose_pair(builder, operation, low, high)
}

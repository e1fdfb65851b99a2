// Arithmetic, bits, relations and logic (sections 3.52.13 to 3.52.16).

use crate::builder::{
    Builder, Value, as_kind, binary, call, compose_pair, convert, operand, operand_scalar,
    operand_shape, refuse, result_scalar, select, signed, splat,
};
use ir_kinds::{
    BinaryOperator, DerivativeAxis, DerivativeControl, Literal, MathFunction, RelationalFunction,
    Scalar, ScalarKind, UnaryOperator,
};
use ir_types::Expression;
use spirv_numbers::ops;
use spirv_tables::operators::{
    COMPARISONS, INTEGER, LOGIC, PLAIN, SHIFTS, UNORDERED, find_operator, find_signed,
};
use spirv_types::Shape;
use spirv_words::{Instruction, Malformed};

static RELATIONS: [(u16, RelationalFunction); 4] = [
    (ops::ANY, RelationalFunction::Any),
    (ops::ALL, RelationalFunction::All),
    (ops::IS_NAN, RelationalFunction::IsNan),
    (ops::IS_INF, RelationalFunction::IsInf),
];

// The axis and control of a derivative; `None` for other opcodes.
fn derivative(opcode: u16) -> Option<(DerivativeAxis, DerivativeControl)> {
    let axis = match opcode {
        ops::D_PDX | ops::D_PDX_FINE | ops::D_PDX_COARSE => DerivativeAxis::X,
        ops::D_PDY | ops::D_PDY_FINE | ops::D_PDY_COARSE => DerivativeAxis::Y,
        ops::FWIDTH | ops::FWIDTH_FINE | ops::FWIDTH_COARSE => DerivativeAxis::Width,
        _ => return None,
    };
    let ctrl = match opcode {
        ops::D_PDX | ops::D_PDY | ops::FWIDTH => DerivativeControl::None,
        ops::D_PDX_FINE | ops::D_PDY_FINE | ops::FWIDTH_FINE => DerivativeControl::Fine,
        _ => DerivativeControl::Coarse,
    };
    Some((axis, ctrl))
}

/// Translates an operation on numbers or bools; `None` for other operations.
pub fn arithmetic<B: Builder>(builder: &mut B, operation: &Instruction) -> Option<Value> {
    let opcode = operation.opcode;
    if let Some(op) = find_operator(&PLAIN, opcode) {
        return Some(plain(builder, operation, op));
    }
    if let Some(op) = find_operator(&LOGIC, opcode) {
        return Some(logic(builder, operation, op));
    }
    if let Some(op) = find_operator(&UNORDERED, opcode) {
        let holds = plain(builder, operation, op);
        return Some(inverse(builder, operation, holds));
    }
    if let Some((op, sign)) = find_signed(&INTEGER, opcode) {
        return Some(integer(builder, operation, op, sign));
    }
    if let Some((op, sign)) = find_signed(&COMPARISONS, opcode) {
        return Some(comparison(builder, operation, op, sign));
    }
    if let Some((op, sign)) = find_signed(&SHIFTS, opcode) {
        return Some(shift(builder, operation, op, sign));
    }
    if let Some((axis, ctrl)) = derivative(opcode) {
        let expr = operand(builder, operation, 0);
        let derivative = Expression::Derivative { axis, ctrl, expr };
        return Some(builder.emit(derivative, operation));
    }
    if let Some(fun) = find_operator(&RELATIONS, opcode) {
        let argument = operand(builder, operation, 0);
        let relation = Expression::Relational { fun, argument };
        return Some(builder.emit(relation, operation));
    }
    other(builder, operation)
}

// An operation that is in none of the tables.
fn other<B: Builder>(builder: &mut B, operation: &Instruction) -> Option<Value> {
    let value = match operation.opcode {
        ops::S_NEGATE | ops::F_NEGATE => negate(builder, operation),
        ops::LOGICAL_NOT => {
            let truth = operand(builder, operation, 0);
            inverse(builder, operation, truth)
        }
        ops::NOT => {
            let kind = result_scalar(builder, operation).kind;
            let expr = signed(builder, operation, 0, kind);
            let op = UnaryOperator::BitwiseNot;
            builder.emit(Expression::Unary { op, expr }, operation)
        }
        ops::SELECT => {
            let condition = operand(builder, operation, 0);
            let accept = operand(builder, operation, 1);
            let reject = operand(builder, operation, 2);
            select(builder, operation, condition, accept, reject)
        }
        ops::F_ORD_NOT_EQUAL => are_apart(builder, operation),
        ops::F_UNORD_EQUAL => {
            let apart = are_apart(builder, operation);
            inverse(builder, operation, apart)
        }
        ops::F_MOD => float_modulo(builder, operation),
        ops::S_MOD => signed_modulo(builder, operation),
        ops::I_ADD_CARRY => with_carry(builder, operation, BinaryOperator::Add),
        ops::I_SUB_BORROW => with_carry(builder, operation, BinaryOperator::Subtract),
        _ => return bits(builder, operation),
    };
    Some(value)
}

// Operations on bits, and products that are functions of the IR.
fn bits<B: Builder>(builder: &mut B, operation: &Instruction) -> Option<Value> {
    let value = match operation.opcode {
        ops::DOT => of_two(builder, operation, MathFunction::Dot),
        ops::OUTER_PRODUCT => of_two(builder, operation, MathFunction::Outer),
        ops::TRANSPOSE => of_one(builder, operation, MathFunction::Transpose),
        ops::QUANTIZE_TO_F16 => of_one(builder, operation, MathFunction::QuantizeToF16),
        ops::BIT_COUNT => counted(builder, operation, MathFunction::CountOneBits),
        ops::BIT_REVERSE => counted(builder, operation, MathFunction::ReverseBits),
        ops::BIT_FIELD_S_EXTRACT => extract_bits(builder, operation, ScalarKind::Sint),
        ops::BIT_FIELD_U_EXTRACT => extract_bits(builder, operation, ScalarKind::Uint),
        ops::BIT_FIELD_INSERT => {
            let kind = result_scalar(builder, operation).kind;
            let base = signed(builder, operation, 0, kind);
            let insert = signed(builder, operation, 1, kind);
            let offset = bit_count(builder, operation, 2);
            let count = bit_count(builder, operation, 3);
            let rest = [Some(insert), Some(offset), Some(count)];
            call(builder, operation, MathFunction::InsertBits, base, rest)
        }
        _ => return None,
    };
    Some(value)
}

fn of_one<B: Builder>(builder: &mut B, operation: &Instruction, fun: MathFunction) -> Value {
    let arg = operand(builder, operation, 0);
    call(builder, operation, fun, arg, [None, None, None])
}

fn of_two<B: Builder>(builder: &mut B, operation: &Instruction, fun: MathFunction) -> Value {
    let arg = operand(builder, operation, 0);
    let second = operand(builder, operation, 1);
    call(builder, operation, fun, arg, [Some(second), None, None])
}

// An operator whose operands are taken as they are.
fn plain<B: Builder>(builder: &mut B, operation: &Instruction, op: BinaryOperator) -> Value {
    let left = operand(builder, operation, 0);
    let right = operand(builder, operation, 1);
    binary(builder, operation, op, left, right)
}

// An operator on bools; on vectors the bitwise one.
fn logic<B: Builder>(builder: &mut B, operation: &Instruction, op: BinaryOperator) -> Value {
    let is_vector = matches!(builder.shape(operation.ty), Shape::Vector { .. });
    let op = match op {
        BinaryOperator::LogicalOr if is_vector => BinaryOperator::InclusiveOr,
        BinaryOperator::LogicalAnd if is_vector => BinaryOperator::And,
        other => other,
    };
    plain(builder, operation, op)
}

// The negation of bools.
fn inverse<B: Builder>(builder: &mut B, operation: &Instruction, expr: Value) -> Value {
    let op = UnaryOperator::LogicalNot;
    builder.emit(Expression::Unary { op, expr }, operation)
}

// Whether one float is less or greater than another; with a NaN it is neither.
fn are_apart<B: Builder>(builder: &mut B, operation: &Instruction) -> Value {
    let less = plain(builder, operation, BinaryOperator::Less);
    let greater = plain(builder, operation, BinaryOperator::Greater);
    let op = BinaryOperator::InclusiveOr;
    binary(builder, operation, op, less, greater)
}

// An operator with operands of this signedness, or that of the result.
fn integer<B: Builder>(
    builder: &mut B,
    operation: &Instruction,
    op: BinaryOperator,
    sign: Option<ScalarKind>,
) -> Value {
    let to = result_scalar(builder, operation).kind;
    let kind = sign.unwrap_or(to);
    let left = signed(builder, operation, 0, kind);
    let right = signed(builder, operation, 1, kind);
    let value = binary(builder, operation, op, left, right);
    as_kind(builder, operation, value, kind, to)
}

// A comparison of operands of this signedness, or that of the left one.
fn comparison<B: Builder>(
    builder: &mut B,
    operation: &Instruction,
    op: BinaryOperator,
    sign: Option<ScalarKind>,
) -> Value {
    let kind = match sign {
        Some(kind) => kind,
        None => operand_scalar(builder, operation, 0).kind,
    };
    let left = signed(builder, operation, 0, kind);
    let right = signed(builder, operation, 1, kind);
    binary(builder, operation, op, left, right)
}

// A shift of a value of this signedness, or that of the result, by an unsigned count.
fn shift<B: Builder>(
    builder: &mut B,
    operation: &Instruction,
    op: BinaryOperator,
    sign: Option<ScalarKind>,
) -> Value {
    let scalar = result_scalar(builder, operation);
    let kind = sign.unwrap_or(scalar.kind);
    let left = signed(builder, operation, 0, kind);
    let right = bit_count(builder, operation, 1);
    let shifted = binary(builder, operation, op, left, right);
    as_kind(builder, operation, shifted, kind, scalar.kind)
}

// The operand at this index as `u32`, the type of a shift count.
fn bit_count<B: Builder>(builder: &mut B, operation: &Instruction, place: usize) -> Value {
    let value = operand(builder, operation, place);
    let from = operand_scalar(builder, operation, place);
    resized(builder, operation, value, from, Scalar::U32)
}

// The negation; of an unsigned value by way of the signed type.
fn negate<B: Builder>(builder: &mut B, operation: &Instruction) -> Value {
    let scalar = result_scalar(builder, operation);
    let kind = match scalar.kind {
        ScalarKind::Uint => ScalarKind::Sint,
        other => other,
    };
    let expr = signed(builder, operation, 0, kind);
    let op = UnaryOperator::Negate;
    let negative = builder.emit(Expression::Unary { op, expr }, operation);
    as_kind(builder, operation, negative, kind, scalar.kind)
}

// x - floor(x / y) * y
fn float_modulo<B: Builder>(builder: &mut B, operation: &Instruction) -> Value {
    let x = operand(builder, operation, 0);
    let y = operand(builder, operation, 1);
    let quotient = binary(builder, operation, BinaryOperator::Divide, x, y);
    let none = [None, None, None];
    let floor = call(builder, operation, MathFunction::Floor, quotient, none);
    let whole = binary(builder, operation, BinaryOperator::Multiply, floor, y);
    binary(builder, operation, BinaryOperator::Subtract, x, whole)
}

// A number, with as many components as the operands.
fn in_each<B: Builder>(builder: &mut B, operation: &Instruction, number: Option<Literal>) -> Value {
    let Some(literal) = number else {
        return refuse(builder, operation.malformed(Malformed::WrongType));
    };
    let size = operand_shape(builder, operation, 0).size();
    let value = builder.literal(literal, operation);
    splat(builder, operation, size, value)
}

// The remainder with the sign of the divisor: x % y, plus y where the remainder is not 0 and has the other sign.
fn signed_modulo<B: Builder>(builder: &mut B, operation: &Instruction) -> Value {
    let to = result_scalar(builder, operation);
    let kind = ScalarKind::Sint;
    let number = Scalar {
        kind,
        width: to.width,
    };
    let x = signed(builder, operation, 0, kind);
    let y = signed(builder, operation, 1, kind);
    let zero = in_each(builder, operation, Literal::zero(number));
    let rest = binary(builder, operation, BinaryOperator::Modulo, x, y);
    let signs = binary(builder, operation, BinaryOperator::ExclusiveOr, rest, y);
    let differ = binary(builder, operation, BinaryOperator::Less, signs, zero);
    let is_some = binary(builder, operation, BinaryOperator::NotEqual, rest, zero);
    let both = binary(builder, operation, BinaryOperator::And, differ, is_some);
    let more = binary(builder, operation, BinaryOperator::Add, rest, y);
    let value = select(builder, operation, both, more, rest);
    as_kind(builder, operation, value, kind, to.kind)
}

// An unsigned sum or difference and its carry or borrow, as a struct.
fn with_carry<B: Builder>(builder: &mut B, operation: &Instruction, op: BinaryOperator) -> Value {
    let kind = ScalarKind::Uint;
    let scalar = operand_scalar(builder, operation, 0);
    let number = Scalar {
        kind,
        width: scalar.width,
    };
    let x = signed(builder, operation, 0, kind);
    let y = signed(builder, operation, 1, kind);
    let accept = in_each(builder, operation, Literal::one(number));
    let reject = in_each(builder, operation, Literal::zero(number));
    let value = binary(builder, operation, op, x, y);
    let left = if op == BinaryOperator::Add { value } else { x };
    let right = if op == BinaryOperator::Add { x } else { y };
    let condition = binary(builder, operation, BinaryOperator::Less, left, right);
    let carried = select(builder, operation, condition, accept, reject);
    let value = as_kind(builder, operation, value, kind, scalar.kind);
    let carried = as_kind(builder, operation, carried, kind, scalar.kind);
    compose_pair(builder, operation, value, carried)
}

// A bit count or a bit reversal, in the result's type.
fn counted<B: Builder>(builder: &mut B, operation: &Instruction, fun: MathFunction) -> Value {
    let from = operand_scalar(builder, operation, 0);
    let to = result_scalar(builder, operation);
    let value = of_one(builder, operation, fun);
    resized(builder, operation, value, from, to)
}

/// Converts a value from one scalar to another.
pub fn resized<B: Builder>(
    builder: &mut B,
    operation: &Instruction,
    value: Value,
    from: Scalar,
    to: Scalar,
) -> Value {
    if from.width == to.width {
        as_kind(builder, operation, value, from.kind, to.kind)
    } else {
        convert(builder, operation, value, to.kind, Some(to.width))
    }
}

// A bit field of a value, signed or unsigned.
fn extract_bits<B: Builder>(builder: &mut B, operation: &Instruction, kind: ScalarKind) -> Value {
    let to = result_scalar(builder, operation);
    let base = signed(builder, operation, 0, kind);
    let offset = bit_count(builder, operation, 1);
    let count = bit_count(builder, operation, 2);
    let rest = [Some(offset), Some(count), None];
    let value = call(builder, operation, MathFunction::ExtractBits, base, rest);
    as_kind(builder, operation, value, kind, to.kind)
}

//! What opcodes are in the IR, as tables.

use ir_kinds::{BinaryOperator, ScalarKind};
use spirv_numbers::ops;

const SIGNED: Option<ScalarKind> = Some(ScalarKind::Sint);

const UNSIGNED: Option<ScalarKind> = Some(ScalarKind::Uint);

/// Operations of floats whose operands are taken as they are. No comparison among them holds with what is no number.
pub static PLAIN: [(u16, BinaryOperator); 15] = [
    (ops::F_ADD, BinaryOperator::Add),
    (ops::F_SUB, BinaryOperator::Subtract),
    (ops::F_MUL, BinaryOperator::Multiply),
    (ops::F_DIV, BinaryOperator::Divide),
    (ops::F_REM, BinaryOperator::Modulo),
    (ops::VECTOR_TIMES_SCALAR, BinaryOperator::Multiply),
    (ops::MATRIX_TIMES_SCALAR, BinaryOperator::Multiply),
    (ops::VECTOR_TIMES_MATRIX, BinaryOperator::Multiply),
    (ops::MATRIX_TIMES_VECTOR, BinaryOperator::Multiply),
    (ops::MATRIX_TIMES_MATRIX, BinaryOperator::Multiply),
    (ops::F_ORD_EQUAL, BinaryOperator::Equal),
    (ops::F_ORD_LESS_THAN, BinaryOperator::Less),
    (ops::F_ORD_GREATER_THAN, BinaryOperator::Greater),
    (ops::F_ORD_LESS_THAN_EQUAL, BinaryOperator::LessEqual),
    (ops::F_ORD_GREATER_THAN_EQUAL, BinaryOperator::GreaterEqual),
];

/// Comparisons of floats that hold with what is no number, each with the one that holds where it doesn't.
pub static UNORDERED: [(u16, BinaryOperator); 5] = [
    (ops::F_UNORD_NOT_EQUAL, BinaryOperator::Equal),
    (ops::F_UNORD_LESS_THAN, BinaryOperator::GreaterEqual),
    (ops::F_UNORD_GREATER_THAN, BinaryOperator::LessEqual),
    (ops::F_UNORD_LESS_THAN_EQUAL, BinaryOperator::Greater),
    (ops::F_UNORD_GREATER_THAN_EQUAL, BinaryOperator::Less),
];

/// Operations of bools.
pub static LOGIC: [(u16, BinaryOperator); 4] = [
    (ops::LOGICAL_EQUAL, BinaryOperator::Equal),
    (ops::LOGICAL_NOT_EQUAL, BinaryOperator::NotEqual),
    (ops::LOGICAL_OR, BinaryOperator::LogicalOr),
    (ops::LOGICAL_AND, BinaryOperator::LogicalAnd),
];

/// Operations of integers, with the sign that the operands get, or that of the result.
pub static INTEGER: [(u16, BinaryOperator, Option<ScalarKind>); 10] = [
    (ops::I_ADD, BinaryOperator::Add, None),
    (ops::I_SUB, BinaryOperator::Subtract, None),
    (ops::I_MUL, BinaryOperator::Multiply, None),
    (ops::BITWISE_OR, BinaryOperator::InclusiveOr, None),
    (ops::BITWISE_XOR, BinaryOperator::ExclusiveOr, None),
    (ops::BITWISE_AND, BinaryOperator::And, None),
    (ops::S_DIV, BinaryOperator::Divide, SIGNED),
    (ops::U_DIV, BinaryOperator::Divide, UNSIGNED),
    (ops::U_MOD, BinaryOperator::Modulo, UNSIGNED),
    (ops::S_REM, BinaryOperator::Modulo, SIGNED),
];

/// Comparisons of integers, with the sign that the operands get, or that of the left one.
pub static COMPARISONS: [(u16, BinaryOperator, Option<ScalarKind>); 10] = [
    (ops::I_EQUAL, BinaryOperator::Equal, None),
    (ops::I_NOT_EQUAL, BinaryOperator::NotEqual, None),
    (ops::U_GREATER_THAN, BinaryOperator::Greater, UNSIGNED),
    (ops::S_GREATER_THAN, BinaryOperator::Greater, SIGNED),
    (
        ops::U_GREATER_THAN_EQUAL,
        BinaryOperator::GreaterEqual,
        UNSIGNED,
    ),
    (
        ops::S_GREATER_THAN_EQUAL,
        BinaryOperator::GreaterEqual,
        SIGNED,
    ),
    (ops::U_LESS_THAN, BinaryOperator::Less, UNSIGNED),
    (ops::S_LESS_THAN, BinaryOperator::Less, SIGNED),
    (ops::U_LESS_THAN_EQUAL, BinaryOperator::LessEqual, UNSIGNED),
    (ops::S_LESS_THAN_EQUAL, BinaryOperator::LessEqual, SIGNED),
];

/// Shifts, with the sign that what is shifted gets.
pub static SHIFTS: [(u16, BinaryOperator, Option<ScalarKind>); 3] = [
    (
        ops::SHIFT_RIGHT_LOGICAL,
        BinaryOperator::ShiftRight,
        UNSIGNED,
    ),
    (
        ops::SHIFT_RIGHT_ARITHMETIC,
        BinaryOperator::ShiftRight,
        SIGNED,
    ),
    (ops::SHIFT_LEFT_LOGICAL, BinaryOperator::ShiftLeft, None),
];

/// What stands beside an opcode in a table.
pub fn find_operator<T: Copy>(table: &[(u16, T)], opcode: u16) -> Option<T> {
    for row in table {
        if row.0 == opcode {
            return Some(row.1);
        }
    }
    None
}

/// The same with a sign.
pub fn find_signed(
    table: &[(u16, BinaryOperator, Option<ScalarKind>)],
    opcode: u16,
) -> Option<(BinaryOperator, Option<ScalarKind>)> {
    for row in table {
        if row.0 == opcode {
            return Some((row.1, row.2));
        }
    }
    None
}

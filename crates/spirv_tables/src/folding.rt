// What operations on constants of integers and bools give.

use crate::literals::{literal, value_of};
use ir_kinds::{Scalar, ScalarKind};
use spirv_numbers::ops;

// An operation of two values, each with the bits that its scalar has.
#[derive(Clone, Copy)]
struct Pair {
    // as they are without a sign
    left: u64,
    right: u64,
    // as they are with one
    signed_left: i64,
    signed_right: i64,
    // how many bits each of them has
    bits: u64,
}

// The bits of a value of a scalar.
fn bits_of(value: i64, scalar: Scalar) -> u64 {
    let bits = value.cast_unsigned();
    match scalar.width {
        1 => bits % 256,
        2 => bits % 65536,
        4 => bits % 4294967296,
        _ => bits,
    }
}

// The value of a scalar with these bits.
fn value_in(scalar: Scalar, bits: u64) -> Option<i64> {
    match literal(scalar, bits) {
        Some(literal) => value_of(literal),
        None => None,
    }
}

// The same value with the sign that its highest bit says.
fn signed_of(value: i64, scalar: Scalar) -> i64 {
    let signed = Scalar {
        kind: ScalarKind::Sint,
        width: scalar.width,
    };
    match value_in(signed, value.cast_unsigned()) {
        Some(signed) => signed,
        None => value,
    }
}

/// What an operation gives as a value of this scalar, where it can be computed here. The values are of integers or bools, the first two of
/// the second scalar.
pub fn folded(opcode: u16, to: Scalar, from: Scalar, values: [i64; 3]) -> Option<i64> {
    let [first, second, third] = values;
    let pair = Pair {
        left: bits_of(first, from),
        right: bits_of(second, from),
        signed_left: signed_of(first, from),
        signed_right: signed_of(second, from),
        bits: u64::from(from.width) * 8,
    };
    let bits = match opcode {
        ops::SELECT => if first == 0 { third } else { second }.cast_unsigned(),
        ops::S_CONVERT => pair.signed_left.cast_unsigned(),
        ops::U_CONVERT => pair.left,
        ops::S_NEGATE => 0u64.wrapping_sub(pair.left),
        ops::NOT => !pair.left,
        ops::LOGICAL_NOT => u64::from(pair.left == 0),
        _ => match compared(opcode, &pair) {
            Some(holds) => u64::from(holds),
            None => match combined(opcode, &pair) {
                Some(bits) => bits,
                None => return None,
            },
        },
    };
    match to.kind {
        ScalarKind::Bool => Some(i64::from(bits % 2 == 1)),
        _ => value_in(to, bits),
    }
}

// What a comparison or an operation of logic gives.
fn compared(opcode: u16, pair: &Pair) -> Option<bool> {
    let holds = match opcode {
        ops::I_EQUAL | ops::LOGICAL_EQUAL => pair.left == pair.right,
        ops::I_NOT_EQUAL | ops::LOGICAL_NOT_EQUAL => pair.left != pair.right,
        ops::U_LESS_THAN => pair.left < pair.right,
        ops::U_LESS_THAN_EQUAL => pair.left <= pair.right,
        ops::U_GREATER_THAN => pair.left > pair.right,
        ops::U_GREATER_THAN_EQUAL => pair.left >= pair.right,
        ops::S_LESS_THAN => pair.signed_left < pair.signed_right,
        ops::S_LESS_THAN_EQUAL => pair.signed_left <= pair.signed_right,
        ops::S_GREATER_THAN => pair.signed_left > pair.signed_right,
        ops::S_GREATER_THAN_EQUAL => pair.signed_left >= pair.signed_right,
        ops::LOGICAL_OR => pair.left != 0 || pair.right != 0,
        ops::LOGICAL_AND => pair.left != 0 && pair.right != 0,
        _ => return None,
    };
    Some(holds)
}

// What an operation of integers gives, its low bits.
fn combined(opcode: u16, pair: &Pair) -> Option<u64> {
    match opcode {
        ops::I_ADD => Some(pair.left.wrapping_add(pair.right)),
        ops::I_SUB => Some(pair.left.wrapping_sub(pair.right)),
        ops::I_MUL => Some(pair.left.wrapping_mul(pair.right)),
        ops::BITWISE_OR => Some(pair.left | pair.right),
        ops::BITWISE_XOR => Some(pair.left ^ pair.right),
        ops::BITWISE_AND => Some(pair.left & pair.right),
        ops::U_DIV => pair.left.checked_div(pair.right),
        ops::U_MOD => pair.left.checked_rem(pair.right),
        ops::S_DIV => unsigned(pair.signed_left.checked_div(pair.signed_right)),
        ops::S_REM => unsigned(pair.signed_left.checked_rem(pair.signed_right)),
        ops::S_MOD => unsigned(signed_modulo(pair)),
        ops::SHIFT_LEFT_LOGICAL if pair.right < pair.bits => {
            Some(pair.left << (pair.right % 64))
        }
        ops::SHIFT_RIGHT_LOGICAL if pair.right < pair.bits => {
            Some(pair.left >> (pair.right % 64))
        }
        ops::SHIFT_RIGHT_ARITHMETIC if pair.right < pair.bits => {
            Some((pair.signed_left >> (pair.right % 64)).cast_unsigned())
        }
        _ => None,
    }
}

// The bits of a number.
fn unsigned(value: Option<i64>) -> Option<u64> {
    match value {
        Some(value) => Some(value.cast_unsigned()),
        None => None,
    }
}

// The remainder with the sign of the divisor.
fn signed_modulo(pair: &Pair) -> Option<i64> {
    let right = pair.signed_right;
    match pair.signed_left.checked_rem(right) {
        Some(remainder) if remainder != 0 && (remainder < 0) != (right < 0) => {
            remainder.checked_add(right)
        }
        remainder => remainder,
    }
}

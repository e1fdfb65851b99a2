// Selectors of switches, which have 32 bits in the IR.

use ir_kinds::{BinaryOperator, Literal, Scalar, ScalarKind};
use spirv_expressions::{Builder, Value, binary, convert, need, operand_scalar, select};
use spirv_words::Instruction;

/// The selector of a switch, and whether its cases are signed.
pub fn selector_of<B: Builder>(
    builder: &mut B,
    operation: &Instruction,
    value: Value,
) -> (Value, bool) {
    let scalar = operand_scalar(builder, operation, 0);
    let is_signed = scalar.kind == ScalarKind::Sint;
    match scalar.width {
        4 => (value, is_signed),
        8 => (place_of(builder, operation, value, scalar), false),
        _ => (
            convert(builder, operation, value, scalar.kind, Some(4)),
            is_signed,
        ),
    }
}

// The index of a 64-bit selector among the cases; an index of none where it matches no case.
fn place_of<B: Builder>(
    builder: &mut B,
    operation: &Instruction,
    value: Value,
    scalar: Scalar,
) -> Value {
    let mut chosen = builder.literal(Literal::U32(u32::MAX), operation);
    let mut place = 0u32;
    let words = builder.given_count(operation).saturating_sub(2);
    for case in 0..words / 3 {
        let first = case.saturating_mul(3).saturating_add(2);
        let low = need(builder, operation, first);
        let high = need(builder, operation, first.saturating_add(1));
        let literal = literal_of(low, high, scalar);
        let right = builder.literal(literal, operation);
        let accept = builder.literal(Literal::U32(place), operation);
        let equal = binary(builder, operation, BinaryOperator::Equal, value, right);
        chosen = select(builder, operation, equal, accept, chosen);
        place = place.saturating_add(1);
    }
    chosen
}

// A 64-bit value of two words, the lower one first.
fn literal_of(low: u32, high: u32, scalar: Scalar) -> Literal {
    let bits = u64::from(high) << 32 | u64::from(low);
    if scalar.kind == ScalarKind::Sint {
        Literal::I64(bits.cast_signed())
    } else {
        Literal::U64(bits)
    }
}

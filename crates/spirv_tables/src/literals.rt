// Literals and their values.

use ir_kinds::{Literal, Scalar, ScalarKind};

/// The literal of a scalar with these bits, of which the low ones count.
pub fn literal(scalar: Scalar, bits: u64) -> Option<Literal> {
    let half = (bits % 65536) as u16;
    let word = (bits % 4294967296) as u32;
    match (scalar.kind, scalar.width) {
        (ScalarKind::Sint, 2) => Some(Literal::I16(half.cast_signed())),
        (ScalarKind::Sint, 4) => Some(Literal::I32(word.cast_signed())),
        (ScalarKind::Sint, 8) => Some(Literal::I64(bits.cast_signed())),
        (ScalarKind::Uint, 2) => Some(Literal::U16(half)),
        (ScalarKind::Uint, 4) => Some(Literal::U32(word)),
        (ScalarKind::Uint, 8) => Some(Literal::U64(bits)),
        (ScalarKind::Float, 2) => Some(Literal::F16(half)),
        (ScalarKind::Float, 4) => Some(Literal::F32(word)),
        (ScalarKind::Float, 8) => Some(Literal::F64(bits)),
        _ => None,
    }
}

/// The value of a literal that is an integer or a bool, or a float without any bit, which is 0.
pub fn value_of(literal: Literal) -> Option<i64> {
    match literal {
        Literal::I16(value) => Some(i64::from(value)),
        Literal::I32(value) => Some(i64::from(value)),
        Literal::I64(value) => Some(value),
        Literal::AbstractInt(value) => Some(value),
        Literal::U16(value) => Some(i64::from(value)),
        Literal::U32(value) => Some(i64::from(value)),
        Literal::U64(value) => i64::try_from(value).ok(),
        Literal::Bool(value) => Some(i64::from(value)),
        Literal::F16(0) | Literal::F32(0) | Literal::F64(0) => Some(0),
        Literal::F16(_) | Literal::F32(_) | Literal::F64(_) | Literal::AbstractFloat(_) => None,
    }
}

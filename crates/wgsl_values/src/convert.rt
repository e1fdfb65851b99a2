// Conversions between scalar types.

use crate::floats::number_of;
use crate::rounding::{f32_of_f64, f64_of_integer};
use ir_kinds::{Literal, Scalar, ScalarKind};
use std::num::{f64_to_bits_with_nan, saturating_f64_to_i32, saturating_f64_to_u32};
use wgsl_tokens::half_of;

// An integer as a value of an integer type, if it is in range.
fn whole(number: i64, to: Scalar) -> Option<Literal> {
    match (to.kind, to.width) {
        (ScalarKind::AbstractInt, _) => Some(Literal::AbstractInt(number)),
        (ScalarKind::Sint, 4) => Some(Literal::I32(i32::try_from(number).ok()?)),
        (ScalarKind::Uint, 4) => Some(Literal::U32(u32::try_from(number).ok()?)),
        (ScalarKind::Sint, 8) => Some(Literal::I64(number)),
        (ScalarKind::Uint, 8) => Some(Literal::U64(u64::try_from(number).ok()?)),
        (ScalarKind::Sint, 2) => Some(Literal::I16(i16::try_from(number).ok()?)),
        (ScalarKind::Uint, 2) => Some(Literal::U16(u16::try_from(number).ok()?)),
        _ => float(f64_of_integer(number), to),
    }
}

// A value of a float type, rounded from an `f64`.
fn float(bits: u64, to: Scalar) -> Option<Literal> {
    match (to.kind, to.width) {
        (ScalarKind::AbstractFloat, _) => Some(Literal::AbstractFloat(bits)),
        (ScalarKind::Float, 8) => Some(Literal::F64(bits)),
        (ScalarKind::Float, 4) => Some(Literal::F32(f32_of_f64(bits)?)),
        (ScalarKind::Float, 2) => Some(Literal::F16(half_of(f32_of_f64(bits)?)?)),
        _ => None,
    }
}

/// Automatic conversion of a value to this type, if there is one and the result is representable.
pub fn converted(literal: Literal, to: Scalar) -> Option<Literal> {
    if literal.scalar() == to {
        return Some(literal);
    }
    match literal {
        Literal::AbstractInt(number) => whole(number, to),
        Literal::AbstractFloat(bits) => float(bits, to),
        _ => None,
    }
}

/// The type that a value is concretized to without an expected type: `i32` or else `u32` for abstract integers, else `f32`.
pub fn concrete_scalar(literal: Literal) -> Scalar {
    match literal {
        Literal::AbstractInt(number) if i32::try_from(number).is_ok() => Scalar::I32,
        Literal::AbstractInt(number) if u32::try_from(number).is_ok() => Scalar::U32,
        Literal::AbstractInt(_) | Literal::AbstractFloat(_) => Scalar::F32,
        _ => literal.scalar(),
    }
}

/// The zero value of a scalar type.
pub fn zero_of(scalar: Scalar) -> Option<Literal> {
    match scalar.kind {
        ScalarKind::Bool => Some(Literal::Bool(false)),
        _ => whole(0, scalar),
    }
}

// A float converted to another float type, or truncated to an integer.
fn cast_float(literal: Literal, number: f64, to: Scalar) -> Option<Literal> {
    // the greatest `f32` values in the range of the integer types
    let (most_i32, most_u32) = match literal {
        Literal::F32(_) => (2147483520.0, 4294967040.0),
        _ => (2147483647.0, 4294967295.0),
    };
    match (to.kind, to.width) {
        (ScalarKind::Sint, 4) => {
            let number = if number > most_i32 { most_i32 } else { number };
            Some(Literal::I32(saturating_f64_to_i32(number)))
        }
        (ScalarKind::Uint, 4) => {
            let number = if number > most_u32 { most_u32 } else { number };
            Some(Literal::U32(saturating_f64_to_u32(number)))
        }
        (ScalarKind::Bool, _) => Some(Literal::Bool(number != 0.0)),
        (ScalarKind::Float, _) => float(f64_to_bits_with_nan(number), to),
        _ => None,
    }
}

/// The result of a scalar type's constructor applied to a constant, if it can be evaluated.
pub fn cast(literal: Literal, to: Scalar) -> Option<Literal> {
    if let Some(same) = converted(literal, to) {
        return Some(same);
    }
    match (literal, to.kind, to.width) {
        (Literal::I32(number), ScalarKind::Uint, 4) => {
            Some(Literal::U32(u32::from_le_bytes(number.to_le_bytes())))
        }
        (Literal::U32(number), ScalarKind::Sint, 4) => {
            Some(Literal::I32(i32::from_le_bytes(number.to_le_bytes())))
        }
        (Literal::I32(number), ScalarKind::Float, _) => whole(i64::from(number), to),
        (Literal::U32(number), ScalarKind::Float, _) => whole(i64::from(number), to),
        (Literal::Bool(value), ScalarKind::Sint | ScalarKind::Uint | ScalarKind::Float, _) => {
            whole(if value { 1 } else { 0 }, to)
        }
        (Literal::I32(number), ScalarKind::Bool, _) => Some(Literal::Bool(number != 0)),
        (Literal::U32(number), ScalarKind::Bool, _) => Some(Literal::Bool(number != 0)),
        (Literal::AbstractInt(number), ScalarKind::Bool, _) => Some(Literal::Bool(number != 0)),
        (Literal::F64(_), _, _) => None,
        _ => match number_of(literal) {
            Some(number) => cast_float(literal, number, to),
            None => None,
        },
    }
}

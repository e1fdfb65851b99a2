// Operators on floats. Narrower floats are computed as `f64` and rounded, which gives the correctly rounded result.

use crate::fold::Folded;
use crate::rounding::f32_of_f64;
use ir_kinds::{BinaryOperator, Literal};
use std::num::{
    f32_from_bits_with_nan, f32_to_f64_with_nan, f64_from_bits_with_nan, f64_to_bits_with_nan,
};
use wgsl_tokens::half_of;

// 2 to the power of 112: the difference between the exponent biases of `f32` and `f16`.
const EXPONENTS: f64 = 5192296858534827628530496329220096.0;

// An `f16` as an `f64`.
fn of_half(bits: u16) -> f64 {
    let magnitude = u32::from(bits & 0x7fff);
    let size = if magnitude >= 0x7c00 {
        1.0 / 0.0
    } else {
        f32_to_f64_with_nan(f32_from_bits_with_nan(magnitude << 13)) * EXPONENTS
    };
    if bits >> 15 == 1 { -size } else { size }
}

// A float as an `f64`.
pub(crate) fn number_of(literal: Literal) -> Option<f64> {
    match literal {
        Literal::AbstractFloat(bits) => Some(f64_from_bits_with_nan(bits)),
        Literal::F64(bits) => Some(f64_from_bits_with_nan(bits)),
        Literal::F32(bits) => Some(f32_to_f64_with_nan(f32_from_bits_with_nan(bits))),
        Literal::F16(bits) => Some(of_half(bits)),
        _ => None,
    }
}

// Why a constant can't have this float value.
fn no_literal(number: f64) -> Folded {
    if number.is_nan() {
        Folded::Wrong("Float literal is NaN")
    } else {
        Folded::Wrong("Float literal is infinite")
    }
}

// A finite `f64` as a float of the same type as another value; otherwise an error, which differs for abstract floats.
pub(crate) fn float_like(number: f64, like: Literal, overflow: &'static str) -> Folded {
    let bits = f64_to_bits_with_nan(number);
    let is_finite = (bits >> 52) & 0x7ff != 0x7ff;
    match like {
        Literal::AbstractFloat(_) if is_finite => Folded::Made(Literal::AbstractFloat(bits)),
        Literal::F64(_) if is_finite => Folded::Made(Literal::F64(bits)),
        Literal::F32(_) => match f32_of_f64(bits) {
            Some(bits) => Folded::Made(Literal::F32(bits)),
            None => no_literal(number),
        },
        Literal::F16(_) => match half_of(f32_of_f64(bits).unwrap_or(0x7f80_0000)) {
            Some(bits) => Folded::Made(Literal::F16(bits)),
            None => Folded::Wrong(overflow),
        },
        Literal::F64(_) => no_literal(number),
        _ => Folded::Wrong(overflow),
    }
}

// A finite float of the same type as another value; otherwise an error with this text.
pub(crate) fn float_or(number: f64, like: Literal, overflow: &'static str) -> Folded {
    match float_like(number, like, overflow) {
        Folded::Wrong(_) => Folded::Wrong(overflow),
        made => made,
    }
}

// The remainder of a division, which is exact.
fn remainder(number: f64, by: f64) -> f64 {
    let mut rest = number.abs();
    let least = by.abs();
    if least == 0.0 || rest.is_infinite() {
        return 0.0 / 0.0;
    }
    if least.is_infinite() {
        return number;
    }
    let mut step = least;
    for _ in 0..2100_u32 {
        if rest - step < step {
            break;
        }
        step = step * 2.0;
    }
    for _ in 0..2100_u32 {
        if rest >= step {
            rest = rest - step;
        }
        if step <= least {
            break;
        }
        step = step / 2.0;
    }
    if number < 0.0 { -rest } else { rest }
}

// The result of an operator on two floats, if it is a comparison.
fn compared(operator: BinaryOperator, left: f64, right: f64) -> Option<bool> {
    match operator {
        BinaryOperator::Equal => Some(left == right),
        BinaryOperator::NotEqual => Some(left != right),
        BinaryOperator::Less => Some(left < right),
        BinaryOperator::LessEqual => Some(left <= right),
        BinaryOperator::Greater => Some(left > right),
        BinaryOperator::GreaterEqual => Some(left >= right),
        _ => None,
    }
}

// A binary operator on two floats of the same type.
pub(crate) fn floats(operator: BinaryOperator, first: Literal, second: Literal) -> Folded {
    let (Some(left), Some(right)) = (number_of(first), number_of(second)) else {
        return Folded::Open;
    };
    if let Some(holds) = compared(operator, left, right) {
        return Folded::Made(Literal::Bool(holds));
    }
    match operator {
        BinaryOperator::Add => float_like(left + right, first, "Add operation overflowed"),
        BinaryOperator::Subtract => {
            float_like(left - right, first, "Subtract operation overflowed")
        }
        BinaryOperator::Multiply => {
            float_like(left * right, first, "Multiply operation overflowed")
        }
        BinaryOperator::Divide => float_like(left / right, first, "Divide operation overflowed"),
        BinaryOperator::Modulo => {
            float_like(remainder(left, right), first, "Modulo operation overflowed")
        }
        _ => Folded::Open,
    }
}

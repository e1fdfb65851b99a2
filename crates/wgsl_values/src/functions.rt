// Constant evaluation of built-in functions on scalars.

use crate::analytic::{analytic, analytic_pair, fused};
use crate::floats::{float_like, number_of};
use crate::fold::{Folded, fold_binary};
use ir_kinds::{BinaryOperator, Literal, MathFunction};

// A float of this type; NaN or infinity is an error.
fn float(number: f64, like: Literal) -> Folded {
    float_like(number, like, "the operation overflowed")
}

// `sign` of an integer: 1, 0 or -1.
fn sign_of(number: i64) -> i64 {
    if number > 0 {
        1
    } else if number < 0 {
        -1
    } else {
        0
    }
}

// A bit function of an integer, from its bits and those that `firstLeadingBit` searches.
fn of_bits(function: MathFunction, bits: u32, magnitude: u32) -> Option<u32> {
    match function {
        MathFunction::CountOneBits => Some(bits.count_ones()),
        MathFunction::ReverseBits => Some(bits.reverse_bits()),
        MathFunction::CountLeadingZeros => Some(bits.leading_zeros()),
        MathFunction::CountTrailingZeros => Some(bits.trailing_zeros()),
        MathFunction::FirstTrailingBit if bits == 0 => Some(u32::MAX),
        MathFunction::FirstTrailingBit => Some(bits.trailing_zeros()),
        MathFunction::FirstLeadingBit if magnitude == 0 => Some(u32::MAX),
        MathFunction::FirstLeadingBit => { Some(31_u32.saturating_sub(magnitude.leading_zeros())) }
        _ => None,
    }
}

// A bit or math function of a signed integer.
fn of_signed(function: MathFunction, number: i32) -> Folded {
    match function {
        MathFunction::Abs if number < 0 => Folded::Made(Literal::I32(number.wrapping_neg())),
        MathFunction::Abs => Folded::Made(Literal::I32(number)),
        MathFunction::Sign => match i32::try_from(sign_of(i64::from(number))) {
            Ok(number) => Folded::Made(Literal::I32(number)),
            Err(_) => Folded::Open,
        },
        _ => {
            let bits = u32::from_le_bytes(number.to_le_bytes());
            let magnitude = if number < 0 { !bits } else { bits };
            match of_bits(function, bits, magnitude) {
                Some(made) => Folded::Made(Literal::I32(i32::from_le_bytes(made.to_le_bytes()))),
                None => Folded::Open,
            }
        }
    }
}

// A bit or math function of an unsigned integer.
fn of_unsigned(function: MathFunction, number: u32) -> Folded {
    match function {
        MathFunction::Abs => Folded::Made(Literal::U32(number)),
        _ => match of_bits(function, number, number) {
            Some(number) => Folded::Made(Literal::U32(number)),
            None => Folded::Open,
        },
    }
}

// A math function of an abstract integer.
fn of_abstract(function: MathFunction, number: i64) -> Folded {
    match function {
        MathFunction::Abs if number < 0 => match number.checked_neg() {
            Some(number) => Folded::Made(Literal::AbstractInt(number)),
            None => Folded::Wrong("abs operation overflowed"),
        },
        MathFunction::Abs => Folded::Made(Literal::AbstractInt(number)),
        MathFunction::Sign => Folded::Made(Literal::AbstractInt(sign_of(number))),
        _ => Folded::Open,
    }
}

// A math function of an integer.
fn of_integer(function: MathFunction, literal: Literal) -> Folded {
    match literal {
        Literal::I32(number) => of_signed(function, number),
        Literal::U32(number) => of_unsigned(function, number),
        Literal::AbstractInt(number) => of_abstract(function, number),
        _ => Folded::Open,
    }
}

// A math function of a float.
fn of_float(function: MathFunction, literal: Literal, number: f64) -> Folded {
    match function {
        MathFunction::Abs => float(number.abs(), literal),
        MathFunction::Floor => float(number.floor(), literal),
        MathFunction::Ceil => float(number.ceil(), literal),
        MathFunction::Trunc => float(number.trunc(), literal),
        MathFunction::Round => float(number.round_ties_even(), literal),
        MathFunction::Fract => float(number - number.floor(), literal),
        MathFunction::Saturate if number < 0.0 => float(0.0, literal),
        MathFunction::Saturate if number > 1.0 => float(1.0, literal),
        MathFunction::Saturate => Folded::Made(literal),
        MathFunction::Sign if number > 0.0 => float(1.0, literal),
        MathFunction::Sign if number < 0.0 => float(-1.0, literal),
        MathFunction::Sign => float(0.0, literal),
        _ => analytic(function, literal, number),
    }
}

// Whether the first of two values of the same type is less than the second.
fn is_less(left: Literal, right: Literal) -> Option<bool> {
    match fold_binary(BinaryOperator::Less, left, right) {
        Folded::Made(Literal::Bool(holds)) => Some(holds),
        _ => None,
    }
}

// `min` or `max` of two values.
fn extreme(left: Literal, right: Literal, greater: bool) -> Folded {
    match is_less(left, right) {
        Some(holds) if holds == greater => Folded::Made(right),
        Some(_) => Folded::Made(left),
        None => Folded::Open,
    }
}

// `clamp` of a value.
fn clamped(value: Literal, low: Literal, high: Literal) -> Folded {
    match (
        is_less(high, low),
        is_less(value, low),
        is_less(high, value),
    ) {
        (Some(true), _, _) => Folded::Wrong(
            "value of `low` is greater than `high` for clamp built-in function",
        ),
        (Some(false), Some(true), _) => Folded::Made(low),
        (Some(false), _, Some(true)) => Folded::Made(high),
        (Some(false), Some(false), Some(false)) => Folded::Made(value),
        _ => Folded::Open,
    }
}

// The dot product of the bytes of two words.
fn packed_dot(function: MathFunction, first: Literal, second: Literal) -> Folded {
    let (Literal::U32(left), Literal::U32(right)) = (first, second) else {
        return Folded::Open;
    };
    let is_signed = function == MathFunction::Dot4I8Packed;
    let (left, right) = (left.to_le_bytes(), right.to_le_bytes());
    let mut sum: i32 = 0;
    for place in 0..4_usize {
        let (one, other) = (left[place], right[place]);
        let product = byte_of(one, is_signed).saturating_mul(byte_of(other, is_signed));
        sum = sum.saturating_add(product);
    }
    if is_signed {
        Folded::Made(Literal::I32(sum))
    } else {
        Folded::Made(Literal::U32(sum.unsigned_abs()))
    }
}

// The value of a byte, in two's complement or not.
fn byte_of(byte: u8, is_signed: bool) -> i32 {
    if is_signed && byte > 127 {
        i32::from(byte).saturating_sub(256)
    } else {
        i32::from(byte)
    }
}

/// Evaluates a built-in function on scalars of the same type.
pub fn fold_math(function: MathFunction, arguments: &[Literal]) -> Folded {
    match (arguments.first(), arguments.get(1), arguments.get(2)) {
        (Some(first), None, None) => match number_of(*first) {
            Some(number) => of_float(function, *first, number),
            None => of_integer(function, *first),
        },
        (Some(first), Some(second), None) => match function {
            MathFunction::Min => extreme(*first, *second, false),
            MathFunction::Max => extreme(*first, *second, true),
            MathFunction::Step => match is_less(*second, *first) {
                Some(true) => float(0.0, *first),
                Some(false) => float(1.0, *first),
                None => Folded::Open,
            },
            MathFunction::Dot4I8Packed | MathFunction::Dot4U8Packed => packed_dot(
                function, *first, *second,
            ),
            _ => analytic_pair(function, *first, *second),
        },
        (Some(first), Some(second), Some(third)) => match function {
            MathFunction::Clamp => clamped(*first, *second, *third),
            MathFunction::Fma => fused(*first, *second, *third),
            _ => Folded::Open,
        },
        _ => Folded::Open,
    }
}

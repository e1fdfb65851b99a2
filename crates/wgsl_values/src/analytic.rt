// Constant evaluation of exponentials, logarithms, powers and trigonometric functions, with the errors of their domains.

use crate::elementary::{
    acos, acosh, asin, asinh, atan, atan2, atanh, cos, cosh, exp, exp2, ln, log2, pow, sin, sinh,
    tan, tanh,
};
use crate::floats::{float_like, float_or, number_of};
use crate::fold::Folded;
use ir_kinds::{Literal, MathFunction};
use std::num::{f32_to_bits_with_nan, f64_to_bits_with_nan, nearest_f64_to_f32_with_nan};

// `f32`'s pi / 180 and 180 / pi.
const RADIANS: f64 = 0.01745329238474369;

const DEGREES: f64 = 57.295780181884766;

// Why an argument is outside of the domain of a function.
fn domain_error(function: MathFunction, number: f64) -> Option<&'static str> {
    match function {
        MathFunction::Acos if number.abs() > 1.0 => {
            Some("acos built-in function argument is out of valid range")
        }
        MathFunction::Asin if number.abs() > 1.0 => {
            Some("asin built-in function argument is out of valid range")
        }
        MathFunction::Acosh if number < 1.0 => {
            Some("acosh built-in function argument is out of valid range")
        }
        MathFunction::Atanh if number.abs() >= 1.0 => {
            Some("atanh built-in function argument is out of valid range")
        }
        MathFunction::Log if number <= 0.0 => {
            Some("log built-in function argument is out of valid range")
        }
        MathFunction::Log2 if number <= 0.0 => {
            Some("log2 built-in function argument is out of valid range")
        }
        MathFunction::Sqrt if number < 0.0 => {
            Some("sqrt built-in function argument is out of valid range")
        }
        _ => None,
    }
}

// The value of a trigonometric function or an inverse of one, if it is computed.
fn trigonometric(function: MathFunction, number: f64) -> Option<f64> {
    match function {
        MathFunction::Sin => sin(number),
        MathFunction::Cos => cos(number),
        MathFunction::Tan => tan(number),
        MathFunction::Asin => Some(asin(number)),
        MathFunction::Acos => Some(acos(number)),
        MathFunction::Atan => Some(atan(number)),
        MathFunction::Tanh => Some(tanh(number)),
        MathFunction::Asinh => Some(asinh(number)),
        MathFunction::Acosh => Some(acosh(number)),
        MathFunction::Atanh => Some(atanh(number)),
        MathFunction::Log => Some(ln(number)),
        MathFunction::Log2 => Some(log2(number)),
        _ => None,
    }
}

// The value of a function of one float, rounded to its type.
fn growing(function: MathFunction, number: f64, like: Literal) -> Folded {
    match function {
        MathFunction::Exp => float_or(exp(number), like, "exp operation overflowed"),
        MathFunction::Exp2 => float_or(exp2(number), like, "exp2 operation overflowed"),
        MathFunction::Sinh => float_or(sinh(number), like, "sinh operation overflowed"),
        MathFunction::Cosh => float_or(cosh(number), like, "cosh operation overflowed"),
        MathFunction::Radians => match like {
            Literal::F32(_) | Literal::F16(_) => {
                float_or(number * RADIANS, like, "radians operation overflowed")
            }
            _ => float_or(number.to_radians(), like, "radians operation overflowed"),
        },
        MathFunction::Degrees => match like {
            Literal::F32(_) | Literal::F16(_) => {
                float_or(number * DEGREES, like, "degrees operation overflowed")
            }
            _ => float_or(number.to_degrees(), like, "degrees operation overflowed"),
        },
        _ => Folded::Open,
    }
}

// A float rounded to the type of another value; itself, if that is not finite.
fn rounded_as(number: f64, like: Literal) -> f64 {
    match float_like(number, like, "") {
        Folded::Made(literal) => number_of(literal).unwrap_or(number),
        Folded::Wrong(_) | Folded::Open => number,
    }
}

// A float of this type; an abstract one may be infinite or NaN.
fn unchecked(number: f64, like: Literal) -> Folded {
    match like {
        Literal::AbstractFloat(_) => Folded::Made(Literal::AbstractFloat(f64_to_bits_with_nan(
            number,
        ))),
        _ => float_like(number, like, "the operation overflowed"),
    }
}

// `inverseSqrt`, which rounds twice.
fn inverse_sqrt(number: f64, like: Literal) -> Folded {
    if number < 0.0 {
        return unchecked(0.0 / 0.0, like);
    }
    unchecked(1.0 / rounded_as(number.sqrt(), like), like)
}

// Evaluates such a function of one float.
pub(crate) fn analytic(function: MathFunction, like: Literal, number: f64) -> Folded {
    if let Some(text) = domain_error(function, number) {
        return Folded::Wrong(text);
    }
    if number.is_nan() || number.is_infinite() {
        return Folded::Open;
    }
    match function {
        MathFunction::Sqrt => float_like(number.sqrt(), like, "sqrt operation overflowed"),
        MathFunction::InverseSqrt => inverse_sqrt(number, like),
        _ => match trigonometric(function, number) {
            Some(made) => float_like(made, like, "the operation overflowed"),
            None => growing(function, number, like),
        },
    }
}

// Evaluates `pow` or `atan2`.
pub(crate) fn analytic_pair(function: MathFunction, first: Literal, second: Literal) -> Folded {
    let (Some(left), Some(right)) = (number_of(first), number_of(second)) else {
        return Folded::Open;
    };
    if left.is_nan() || left.is_infinite() || right.is_nan() || right.is_infinite() {
        return Folded::Open;
    }
    match function {
        MathFunction::Pow if left < 0.0 || (left == 0.0 && right == 0.0) => {
            Folded::Wrong("pow built-in function argument is out of valid range")
        }
        MathFunction::Pow => float_or(pow(left, right), first, "pow operation overflowed"),
        MathFunction::Atan2 => float_like(atan2(left, right), first, "the operation overflowed"),
        _ => Folded::Open,
    }
}

// An `f32` of an `f64` that has its value.
fn single(number: f64) -> f32 {
    nearest_f64_to_f32_with_nan(number)
}

// Evaluates `fma`, which rounds once; of `f16` to `f32` first.
pub(crate) fn fused(first: Literal, second: Literal, third: Literal) -> Folded {
    let (Some(left), Some(right), Some(more)) = (
        number_of(first),
        number_of(second),
        number_of(third),
    ) else {
        return Folded::Open;
    };
    match first {
        Literal::F32(_) | Literal::F16(_) => {
            let made = single(left).mul_add(single(right), single(more));
            let bits = f32_to_bits_with_nan(made);
            match number_of(Literal::F32(bits)) {
                Some(number) => unchecked(number, first),
                None => Folded::Open,
            }
        }
        _ => unchecked(left.mul_add(right, more), first),
    }
}

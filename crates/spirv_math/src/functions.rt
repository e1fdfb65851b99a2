// The functions of the extended set GLSL.std.450.

use crate::extremes::of_numbers;
use ir_kinds::{MathFunction, ScalarKind};
use spirv_expressions::{
    Builder, Value, as_kind, call, convert, operand, operand_shape, refuse, result_scalar,
};
use spirv_words::{Instruction, Unsupported};

// The functions by their numbers, with the signedness of their arguments.
static FUNCTIONS: [(u32, MathFunction, Option<ScalarKind>); 68] = [
    (1, MathFunction::Round, None),
    (2, MathFunction::Round, None),
    (3, MathFunction::Trunc, None),
    (4, MathFunction::Abs, None),
    (5, MathFunction::Abs, Some(ScalarKind::Sint)),
    (6, MathFunction::Sign, None),
    (7, MathFunction::Sign, Some(ScalarKind::Sint)),
    (8, MathFunction::Floor, None),
    (9, MathFunction::Ceil, None),
    (10, MathFunction::Fract, None),
    (11, MathFunction::Radians, None),
    (12, MathFunction::Degrees, None),
    (13, MathFunction::Sin, None),
    (14, MathFunction::Cos, None),
    (15, MathFunction::Tan, None),
    (16, MathFunction::Asin, None),
    (17, MathFunction::Acos, None),
    (18, MathFunction::Atan, None),
    (19, MathFunction::Sinh, None),
    (20, MathFunction::Cosh, None),
    (21, MathFunction::Tanh, None),
    (22, MathFunction::Asinh, None),
    (23, MathFunction::Acosh, None),
    (24, MathFunction::Atanh, None),
    (25, MathFunction::Atan2, None),
    (26, MathFunction::Pow, None),
    (27, MathFunction::Exp, None),
    (28, MathFunction::Log, None),
    (29, MathFunction::Exp2, None),
    (30, MathFunction::Log2, None),
    (31, MathFunction::Sqrt, None),
    (32, MathFunction::InverseSqrt, None),
    (33, MathFunction::Determinant, None),
    (34, MathFunction::Inverse, None),
    (37, MathFunction::Min, None),
    (38, MathFunction::Min, Some(ScalarKind::Uint)),
    (39, MathFunction::Min, Some(ScalarKind::Sint)),
    (40, MathFunction::Max, None),
    (41, MathFunction::Max, Some(ScalarKind::Uint)),
    (42, MathFunction::Max, Some(ScalarKind::Sint)),
    (43, MathFunction::Clamp, None),
    (44, MathFunction::Clamp, Some(ScalarKind::Uint)),
    (45, MathFunction::Clamp, Some(ScalarKind::Sint)),
    (46, MathFunction::Mix, None),
    (48, MathFunction::Step, None),
    (49, MathFunction::SmoothStep, None),
    (50, MathFunction::Fma, None),
    (53, MathFunction::Ldexp, None),
    (54, MathFunction::Pack4x8snorm, None),
    (55, MathFunction::Pack4x8unorm, None),
    (56, MathFunction::Pack2x16snorm, None),
    (57, MathFunction::Pack2x16unorm, None),
    (58, MathFunction::Pack2x16float, None),
    (60, MathFunction::Unpack2x16snorm, Some(ScalarKind::Uint)),
    (61, MathFunction::Unpack2x16unorm, Some(ScalarKind::Uint)),
    (62, MathFunction::Unpack2x16float, Some(ScalarKind::Uint)),
    (63, MathFunction::Unpack4x8snorm, Some(ScalarKind::Uint)),
    (64, MathFunction::Unpack4x8unorm, Some(ScalarKind::Uint)),
    (66, MathFunction::Length, None),
    (67, MathFunction::Distance, None),
    (68, MathFunction::Cross, None),
    (69, MathFunction::Normalize, None),
    (70, MathFunction::FaceForward, None),
    (71, MathFunction::Reflect, None),
    (72, MathFunction::Refract, None),
    (73, MathFunction::FirstTrailingBit, None),
    (74, MathFunction::FirstLeadingBit, Some(ScalarKind::Sint)),
    (75, MathFunction::FirstLeadingBit, Some(ScalarKind::Uint)),
];

// The function with this number, and the signedness of its arguments.
fn function(number: u32) -> Option<(MathFunction, Option<ScalarKind>)> {
    for row in &FUNCTIONS {
        if row.0 == number {
            return Some((row.1, row.2));
        }
    }
    None
}

// The argument at this index after the first, if there is one.
fn argument<B: Builder>(
    builder: &mut B,
    operation: &Instruction,
    place: usize,
    sign: Option<ScalarKind>,
) -> Option<Value> {
    let id = builder.given(operation, place)?;
    let value = builder.value(id, operation);
    let from = builder.shape(builder.type_of(id)).scalar();
    match (sign, from) {
        (Some(kind), Some(scalar)) => {
            Some(as_kind(builder, operation, value, scalar.kind, kind))
        }
        _ => Some(value),
    }
}

// The exponent of `Ldexp`, which is signed and has 32 bits.
fn exponent<B: Builder>(
    builder: &mut B,
    operation: &Instruction,
    value: Option<Value>,
) -> Option<Value> {
    let (Some(id), Some(value)) = (builder.given(operation, 3), value) else {
        return value;
    };
    match builder.shape(builder.type_of(id)).scalar() {
        Some(scalar) if scalar.kind != ScalarKind::Sint || scalar.width != 4 => {
            Some(convert(builder, operation, value, ScalarKind::Sint, Some(4)))
        }
        _ => Some(value),
    }
}

// Whether the function packs floats into a word.
fn packs(number: u32) -> bool {
    54 <= number && number <= 58
}

// Whether both are integers.
fn are_integers(left: ScalarKind, right: ScalarKind) -> bool {
    let left = matches!(left, ScalarKind::Sint | ScalarKind::Uint);
    let right = matches!(right, ScalarKind::Sint | ScalarKind::Uint);
    left && right
}

/// The call of the function with this number; the operands begin with the set and the number.
pub fn math<B: Builder>(builder: &mut B, operation: &Instruction, number: u32) -> Value {
    if let Some(value) = of_numbers(builder, operation, number) {
        return value;
    }
    let Some((fun, sign)) = function(number) else {
        let what = Unsupported::MathFunction(number);
        return refuse(builder, operation.unsupported_as(what));
    };
    let arg = operand(builder, operation, 2);
    let given = match operand_shape(builder, operation, 2).kind() {
        Some(kind) => kind,
        None => ScalarKind::Float,
    };
    let kind = sign.unwrap_or(given);
    let arg = as_kind(builder, operation, arg, given, kind);
    let mut second = argument(builder, operation, 3, sign);
    if fun == MathFunction::Ldexp {
        second = exponent(builder, operation, second);
    }
    let third = argument(builder, operation, 4, sign);
    let value = call(builder, operation, fun, arg, [second, third, None]);
    let gives = if packs(number) {
        ScalarKind::Uint
    } else {
        kind
    };
    let to = result_scalar(builder, operation).kind;
    if are_integers(gives, to) {
        as_kind(builder, operation, value, gives, to)
    } else {
        value
    }
}

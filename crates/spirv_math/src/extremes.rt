// Minimum, maximum and median of numbers.

use ir_kinds::{BinaryOperator, MathFunction, ScalarKind};
use spirv_expressions::{
    Builder, Value, as_kind, binary, call, operand, result_scalar, select, signed,
};
use spirv_words::Instruction;

// Functions of GLSL.std.450 that ignore NaN.
const N_MIN: u32 = 79;

const N_MAX: u32 = 80;

const N_CLAMP: u32 = 81;

/// `NMin`, `NMax` or `NClamp` of floats, which ignore NaN, by the number of the function in GLSL.std.450.
pub fn of_numbers<B: Builder>(
    builder: &mut B,
    operation: &Instruction,
    number: u32,
) -> Option<Value> {
    let first = match number {
        N_MIN => BinaryOperator::Less,
        N_MAX | N_CLAMP => BinaryOperator::Greater,
        _ => return None,
    };
    let x = operand(builder, operation, 2);
    let y = operand(builder, operation, 3);
    let value = either(builder, operation, first, x, y);
    if number != N_CLAMP {
        return Some(value);
    }
    let most = operand(builder, operation, 4);
    Some(either(builder, operation, BinaryOperator::Less, value, most))
}

// The second of two floats where this relation holds between it and the first, or where the first is NaN; else the first.
fn either<B: Builder>(
    builder: &mut B,
    operation: &Instruction,
    op: BinaryOperator,
    x: Value,
    y: Value,
) -> Value {
    let beyond = binary(builder, operation, op, y, x);
    let chosen = select(builder, operation, beyond, y, x);
    let is_number = binary(builder, operation, BinaryOperator::Equal, x, x);
    select(builder, operation, is_number, chosen, y)
}

/// Minimum, maximum or median of three numbers, by an instruction of SPV_AMD_shader_trinary_minmax: each has three forms in a row, for
/// floats, unsigned and signed integers.
pub fn trinary<B: Builder>(builder: &mut B, operation: &Instruction, number: u32) -> Option<Value> {
    let kind = match number.checked_rem(3) {
        Some(1) => ScalarKind::Float,
        Some(2) => ScalarKind::Uint,
        _ => ScalarKind::Sint,
    };
    let x = signed(builder, operation, 2, kind);
    let y = signed(builder, operation, 3, kind);
    let z = signed(builder, operation, 4, kind);
    let value = match number {
        1..=3 => {
            let least = of_two(builder, operation, MathFunction::Min, x, y);
            of_two(builder, operation, MathFunction::Min, least, z)
        }
        4..=6 => {
            let most = of_two(builder, operation, MathFunction::Max, x, y);
            of_two(builder, operation, MathFunction::Max, most, z)
        }
        7..=9 => {
            let least = of_two(builder, operation, MathFunction::Min, x, y);
            let most = of_two(builder, operation, MathFunction::Max, x, y);
            let rest = of_two(builder, operation, MathFunction::Min, most, z);
            of_two(builder, operation, MathFunction::Max, least, rest)
        }
        _ => return None,
    };
    let to = result_scalar(builder, operation).kind;
    Some(as_kind(builder, operation, value, kind, to))
}

fn of_two<B: Builder>(
    builder: &mut B,
    operation: &Instruction,
    fun: MathFunction,
    left: Value,
    right: Value,
) -> Value {
    call(builder, operation, fun, left, [Some(right), None, None])
}

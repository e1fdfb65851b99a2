// Functions of GLSL.std.450 with two results.

use crate::builder::FunctionBuilder;
use crate::pointers::store_into;
use ir_kinds::{MathFunction, PredeclaredType, Scalar};
use spirv_expressions::{
    Value, call, compose_result, keep, need, operand, operand_scalar, operand_shape, part_of,
    refuse, resized, scalar_of,
};
use spirv_words::{Instruction, Malformed};

const MODF: u32 = 35;

const MODF_STRUCT: u32 = 36;

const FREXP: u32 = 51;

const FREXP_STRUCT: u32 = 52;

/// The value of `Modf` or `Frexp`; `None` for other numbers. The operands begin with the set and the number.
pub fn split<L: FunctionBuilder>(
    lowering: &mut L,
    operation: &Instruction,
    number: u32,
) -> Option<Value> {
    let (fun, is_struct) = match number {
        MODF => (MathFunction::Modf, false),
        MODF_STRUCT => (MathFunction::Modf, true),
        FREXP => (MathFunction::Frexp, false),
        FREXP_STRUCT => (MathFunction::Frexp, true),
        _ => return None,
    };
    let scalar = operand_scalar(lowering, operation, 2);
    let size = operand_shape(lowering, operation, 2).size();
    let (of, exponent) = if fun == MathFunction::Modf {
        (PredeclaredType::ModfResult { size, scalar }, scalar)
    } else {
        (PredeclaredType::FrexpResult { size, scalar }, Scalar::I32)
    };
    lowering.predeclared(of);
    let argument = operand(lowering, operation, 2);
    let both = call(lowering, operation, fun, argument, [None, None, None]);
    let first = part_of(lowering, operation, both, 0);
    let second = part_of(lowering, operation, both, 1);
    if is_struct {
        return Some(as_struct(lowering, operation, first, second, exponent));
    }
    store_second(lowering, operation, second, exponent);
    Some(first)
}

// Both values as the result struct.
fn as_struct<L: FunctionBuilder>(
    lowering: &mut L,
    operation: &Instruction,
    first: Value,
    second: Value,
    from: Scalar,
) -> Value {
    let Some(part) = lowering.part(operation.ty, 1) else {
        return refuse(lowering, operation.malformed(Malformed::WrongType));
    };
    let shape = lowering.shape(part.ty);
    let to = scalar_of(lowering, &shape, operation);
    let second = resized(lowering, operation, second, from, to);
    let mut components = Vec::new(lowering.alloc());
    keep(lowering, &mut components, first);
    keep(lowering, &mut components, second);
    compose_result(lowering, operation, components)
}

// Stores the second value through a pointer.
fn store_second<L: FunctionBuilder>(
    lowering: &mut L,
    operation: &Instruction,
    second: Value,
    from: Scalar,
) {
    let id = need(lowering, operation, 3);
    let place = lowering.pointer(id, operation);
    let ty = lowering.pointer_at(place, operation).ty;
    let shape = lowering.shape(ty);
    let to = scalar_of(lowering, &shape, operation);
    let value = resized(lowering, operation, second, from, to);
    store_into(lowering, place, value, operation);
}

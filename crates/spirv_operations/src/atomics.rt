// Atomic operations (section 3.52.18), and stores to images.

use crate::builder::{FunctionBuilder, Slot};
use ir_blocks::{AtomicFunction, Statement};
use ir_flags::Capabilities;
use ir_kinds::{Literal, PredeclaredType, Scalar, ScalarKind};
use ir_types::Expression;
use spirv_expressions::{Value, as_kind, need, part_of, result_scalar, signed};
use spirv_images::{read_coordinates, widened};
use spirv_numbers::ops;
use spirv_types::Shape;
use spirv_words::{Feature, Instruction, Malformed};

// The atomic function of an opcode on values of this kind, if the IR has one: minimum and maximum have the signedness of the type.
fn function(opcode: u16, kind: ScalarKind) -> Option<AtomicFunction> {
    let is_signed = kind == ScalarKind::Sint;
    let fun = match opcode {
        ops::ATOMIC_I_ADD | ops::ATOMIC_F_ADD_EXT | ops::ATOMIC_I_INCREMENT => AtomicFunction::Add,
        ops::ATOMIC_I_SUB | ops::ATOMIC_I_DECREMENT => AtomicFunction::Subtract,
        ops::ATOMIC_AND => AtomicFunction::And,
        ops::ATOMIC_OR => AtomicFunction::InclusiveOr,
        ops::ATOMIC_XOR => AtomicFunction::ExclusiveOr,
        ops::ATOMIC_S_MIN if is_signed => AtomicFunction::Min,
        ops::ATOMIC_U_MIN if !is_signed => AtomicFunction::Min,
        ops::ATOMIC_S_MAX if is_signed => AtomicFunction::Max,
        ops::ATOMIC_U_MAX if !is_signed => AtomicFunction::Max,
        ops::ATOMIC_EXCHANGE => AtomicFunction::Exchange { compare: None },
        _ => return None,
    };
    Some(fun)
}

/// Translates an atomic operation.
pub fn atomic<L: FunctionBuilder>(lowering: &mut L, operation: &Instruction) {
    let id = need(lowering, operation, 0);
    if let Slot::Texel { image, coordinate } = lowering.slot(id) {
        return change_texel(lowering, operation, image, coordinate);
    }
    let place = lowering.pointer(id, operation);
    let ty = lowering.pointer_at(place, operation).ty;
    let Shape::Scalar(scalar) = lowering.shape(ty) else {
        lowering.fail(operation.malformed(Malformed::WrongType));
        return;
    };
    let pointer = lowering.way(place, operation);
    match operation.opcode {
        ops::ATOMIC_LOAD => {
            let value = lowering.emit(Expression::Load { pointer }, operation);
            lowering.define(operation, value)
        }
        ops::ATOMIC_STORE => {
            let value = signed(lowering, operation, 3, scalar.kind);
            lowering.add(Statement::Store { pointer, value }, operation)
        }
        ops::ATOMIC_COMPARE_EXCHANGE => compare(lowering, operation, pointer, scalar),
        _ => change(lowering, operation, pointer, scalar),
    }
}

// A compare-exchange.
fn compare<L: FunctionBuilder>(
    lowering: &mut L,
    operation: &Instruction,
    pointer: Value,
    scalar: Scalar,
) {
    let ty = lowering.predeclared(PredeclaredType::AtomicCompareExchangeWeakResult(scalar));
    let value = signed(lowering, operation, 4, scalar.kind);
    let compared = signed(lowering, operation, 5, scalar.kind);
    let result = Expression::AtomicResult {
        ty,
        comparison: true,
    };
    let answer = lowering.always(result, operation);
    let exchange = Statement::Atomic {
        pointer,
        fun: AtomicFunction::Exchange {
            compare: Some(compared),
        },
        value,
        result: Some(answer),
    };
    lowering.add(exchange, operation);
    let old = part_of(lowering, operation, answer, 0);
    let to = result_scalar(lowering, operation);
    let old = as_kind(lowering, operation, old, scalar.kind, to.kind);
    lowering.define(operation, old)
}

// A read-modify-write operation.
fn change<L: FunctionBuilder>(
    lowering: &mut L,
    operation: &Instruction,
    pointer: Value,
    scalar: Scalar,
) {
    let Some(fun) = function(operation.opcode, scalar.kind) else {
        return lowering.fail(operation.unsupported());
    };
    let value = argument(lowering, operation, scalar);
    let ty = lowering.vector(None, scalar);
    let result = Expression::AtomicResult {
        ty,
        comparison: false,
    };
    let answer = lowering.always(result, operation);
    let change = Statement::Atomic {
        pointer,
        fun,
        value,
        result: Some(answer),
    };
    lowering.add(change, operation);
    let to = result_scalar(lowering, operation);
    let old = as_kind(lowering, operation, answer, scalar.kind, to.kind);
    lowering.define(operation, old)
}

// The operand of the operation: 1 for increment and decrement.
fn argument<L: FunctionBuilder>(
    lowering: &mut L,
    operation: &Instruction,
    scalar: Scalar,
) -> Value {
    let opcode = operation.opcode;
    let is_one = matches!(opcode, ops::ATOMIC_I_INCREMENT | ops::ATOMIC_I_DECREMENT);
    match Literal::one(scalar) {
        Some(literal) if is_one => lowering.literal(literal, operation),
        _ => signed(lowering, operation, 3, scalar.kind),
    }
}

// An atomic operation on a texel, which has no result in the IR.
fn change_texel<L: FunctionBuilder>(
    lowering: &mut L,
    operation: &Instruction,
    id: u32,
    coordinate: u32,
) {
    let image = lowering.image(id, operation);
    let scalar = image.shape.scalar;
    let fun = match function(operation.opcode, scalar.kind) {
        Some(fun) if operation.opcode != ops::ATOMIC_EXCHANGE => fun,
        _ => return lowering.fail(operation.unsupported_by(Feature::ImageAtomic)),
    };
    lowering.require(Capabilities::TEXTURE_ATOMIC);
    let at = read_coordinates(lowering, operation, &image, coordinate, false);
    let value = argument(lowering, operation, scalar);
    let change = Statement::ImageAtomic {
        image: image.value,
        coordinate: at.coordinate,
        array_index: at.layer,
        fun,
        value,
    };
    lowering.add(change, operation)
}

// Image operands that only order memory.
const ORDERING: u32 = 0x7f00;

/// Stores a texel.
pub fn store_texel<L: FunctionBuilder>(lowering: &mut L, operation: &Instruction) {
    let id = need(lowering, operation, 0);
    let image = lowering.image(id, operation);
    let place = need(lowering, operation, 1);
    let at = read_coordinates(lowering, operation, &image, place, false);
    let mask = lowering.given(operation, 3).unwrap_or(0);
    if mask & !ORDERING != 0 {
        lowering.fail(operation.unsupported_by(Feature::ImageWriteOperands));
        return;
    }
    let value = widened(lowering, operation, 2);
    let store = Statement::ImageStore {
        image: image.value,
        coordinate: at.coordinate,
        array_index: at.layer,
        value,
    };
    lowering.add(store, operation)
}

// Atomic built-in functions and `workgroupUniformLoad`.

use crate::arguments::{argument, check_count, converted, pointed};
use crate::predeclared::result_struct;
use ir_blocks::{AtomicFunction, Statement};
use ir_kinds::{AddressSpace, PredeclaredType, Scalar};
use ir_types::Expression;
use wgsl_builtins::AtomicWord;
use wgsl_expressions::{Lowering, Operand, Value, handle_of};
use wgsl_text::Extent;
use wgsl_types::{Builder, Shape};

// The atomic that the first argument points to: the pointer, and the atomic's scalar.
fn atomic<B: Builder>(
    lowering: &mut Lowering<B>,
    arguments: &[Operand],
    count: usize,
    extent: Extent,
) -> Option<(u32, Scalar)> {
    if !check_count(lowering, arguments, count, extent) {
        return None;
    }
    let first = argument(arguments, 0);
    if let Some(pointee) = pointed(lowering, first) {
        if let Shape::Atomic(scalar) = pointee.shape {
            return Some((pointee.number, scalar));
        }
    }
    lowering.wrong(
        "atomic operation is done on a pointer to a non-atomic",
        first.extent,
    );
    None
}

// `atomicLoad`.
pub(crate) fn load<B: Builder>(
    lowering: &mut Lowering<B>,
    arguments: &[Operand],
    extent: Extent,
) -> Operand {
    let Some((pointer, scalar)) = atomic(lowering, arguments, 1, extent) else {
        return Operand::NOTHING;
    };
    let pointer = handle_of(pointer);
    let value = lowering.compute(Expression::Load { pointer }, extent);
    Operand::computed(value, Shape::Scalar(scalar), extent)
}

// `atomicStore`.
pub(crate) fn store<B: Builder>(
    lowering: &mut Lowering<B>,
    arguments: &[Operand],
    extent: Extent,
) -> Operand {
    let Some((pointer, scalar)) = atomic(lowering, arguments, 2, extent) else {
        return Operand::NOTHING;
    };
    let value = handle_of(converted(lowering, argument(arguments, 1), scalar).0);
    let pointer = handle_of(pointer);
    lowering
        .builder
        .statement(Statement::Store { pointer, value }, extent);
    Operand {
        value: Value::Nothing,
        extent,
    }
}

// The atomic function of the IR.
fn function_of(word: AtomicWord) -> AtomicFunction {
    match word {
        AtomicWord::Add => AtomicFunction::Add,
        AtomicWord::Subtract => AtomicFunction::Subtract,
        AtomicWord::Max => AtomicFunction::Max,
        AtomicWord::Min => AtomicFunction::Min,
        AtomicWord::And => AtomicFunction::And,
        AtomicWord::Or => AtomicFunction::InclusiveOr,
        AtomicWord::Xor => AtomicFunction::ExclusiveOr,
        AtomicWord::Exchange => AtomicFunction::Exchange { compare: None },
    }
}

// Lowers a read-modify-write operation. As a statement, a 64-bit `atomicMin` or `atomicMax` has no result, because fewer devices
// support the form with a result.
pub(crate) fn change<B: Builder>(
    lowering: &mut Lowering<B>,
    word: AtomicWord,
    arguments: &[Operand],
    is_statement: bool,
    extent: Extent,
) -> Operand {
    let Some((pointer, scalar)) = atomic(lowering, arguments, 2, extent) else {
        return Operand::NOTHING;
    };
    let (value, shape) = converted(lowering, argument(arguments, 1), scalar);
    let is_least = matches!(word, AtomicWord::Min | AtomicWord::Max);
    let made = if is_statement && is_least && scalar.width == 8 {
        None
    } else {
        let ty = lowering.type_handle(shape, extent);
        let comparison = false;
        Some(lowering.place(Expression::AtomicResult { ty, comparison }, extent))
    };
    let change = Statement::Atomic {
        pointer: handle_of(pointer),
        fun: function_of(word),
        value: handle_of(value),
        result: made.map(handle_of),
    };
    lowering.builder.statement(change, extent);
    match made {
        Some(number) => Operand::computed(number, shape, extent),
        None => Operand {
            value: Value::Nothing,
            extent,
        },
    }
}

// `atomicCompareExchangeWeak`.
pub(crate) fn compare_exchange<B: Builder>(
    lowering: &mut Lowering<B>,
    arguments: &[Operand],
    extent: Extent,
) -> Operand {
    let Some((pointer, scalar)) = atomic(lowering, arguments, 3, extent) else {
        return Operand::NOTHING;
    };
    let compare = handle_of(converted(lowering, argument(arguments, 1), scalar).0);
    let exchanged = argument(arguments, 2);
    let (value, shape) = converted(lowering, exchanged, scalar);
    let Shape::Scalar(scalar) = shape else {
        lowering.wrong(
            "atomic operand type is inconsistent with the operation",
            exchanged.extent,
        );
        return Operand::NOTHING;
    };
    let of = PredeclaredType::AtomicCompareExchangeWeakResult(scalar);
    let made = result_struct(lowering, of, extent);
    let result = Expression::AtomicResult {
        ty: lowering.type_handle(made, extent),
        comparison: true,
    };
    let number = lowering.place(result, extent);
    let exchange = Statement::Atomic {
        pointer: handle_of(pointer),
        fun: AtomicFunction::Exchange {
            compare: Some(compare),
        },
        value: handle_of(value),
        result: Some(handle_of(number)),
    };
    lowering.builder.statement(exchange, extent);
    Operand::computed(number, made, extent)
}

// `workgroupUniformLoad`, which also loads atomics.
pub(crate) fn uniform_load<B: Builder>(
    lowering: &mut Lowering<B>,
    arguments: &[Operand],
    extent: Extent,
) -> Operand {
    if !check_count(lowering, arguments, 1, extent) {
        return Operand::NOTHING;
    }
    let first = argument(arguments, 0);
    let pointee = match pointed(lowering, first) {
        Some(pointee) if pointee.space == AddressSpace::WorkGroup => pointee,
        _ => {
            lowering.wrong(
                "incorrect type passed to workgroupUniformLoad",
                first.extent,
            );
            return Operand::NOTHING;
        }
    };
    let shape = match pointee.shape {
        Shape::Atomic(scalar) => Shape::Scalar(scalar),
        shape => shape,
    };
    let ty = lowering.type_handle(shape, extent);
    let number = lowering.place(Expression::WorkGroupUniformLoadResult { ty }, extent);
    let load = Statement::WorkGroupUniformLoad {
        pointer: handle_of(pointee.number),
        result: handle_of(number),
    };
    lowering.builder.statement(load, extent);
    Operand::computed(number, shape, extent)
}

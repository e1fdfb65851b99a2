// Subgroup operations.

use crate::arguments::{argument, check_count};
use ir_blocks::{GatherMode, Statement};
use ir_flags::Capabilities;
use ir_kinds::{CollectiveOperation, Direction, Scalar, SubgroupOperation, VectorSize};
use ir_types::Expression;
use wgsl_builtins::GatherWord;
use wgsl_expressions::{Lowering, Operand, handle_of};
use wgsl_text::Extent;
use wgsl_types::{Builder, ExpressionHandle, Shape};

// The result of a subgroup operation, with the type of its argument.
fn placed<B: Builder>(lowering: &mut Lowering<B>, shape: Shape, extent: Extent) -> Operand {
    lowering.builder.require(Capabilities::SUBGROUP);
    let ty = lowering.type_handle(shape, extent);
    let number = lowering.place(Expression::SubgroupOperationResult { ty }, extent);
    Operand::computed(number, shape, extent)
}

// The expression of an operand.
fn handle<B: Builder>(lowering: &mut Lowering<B>, operand: Operand) -> ExpressionHandle {
    handle_of(lowering.value(operand).0)
}

// A reduction or a scan.
pub(crate) fn collective<B: Builder>(
    lowering: &mut Lowering<B>,
    op: SubgroupOperation,
    collective_op: CollectiveOperation,
    arguments: &[Operand],
    extent: Extent,
) -> Operand {
    if !check_count(lowering, arguments, 1, extent) {
        return Operand::NOTHING;
    }
    let (value, shape) = lowering.value(argument(arguments, 0));
    let made = placed(lowering, shape, extent);
    let operation = Statement::SubgroupCollectiveOperation {
        op,
        collective_op,
        argument: handle_of(value),
        result: handle(lowering, made),
    };
    lowering.builder.statement(operation, extent);
    made
}

// `subgroupBallot`, with a predicate or none.
pub(crate) fn ballot<B: Builder>(
    lowering: &mut Lowering<B>,
    arguments: &[Operand],
    extent: Extent,
) -> Operand {
    if !arguments.is_empty() && !check_count(lowering, arguments, 1, extent) {
        return Operand::NOTHING;
    }
    let predicate = match arguments.first() {
        Some(condition) => Some(handle(lowering, *condition)),
        None => None,
    };
    lowering.builder.require(Capabilities::SUBGROUP);
    let number = lowering.place(Expression::SubgroupBallotResult, extent);
    let ballot = Statement::SubgroupBallot {
        result: handle_of(number),
        predicate,
    };
    lowering.builder.statement(ballot, extent);
    let shape = Shape::Vector(VectorSize::Quad, Scalar::U32);
    Operand::computed(number, shape, extent)
}

// The result of a gather from another invocation.
fn gathered<B: Builder>(
    lowering: &mut Lowering<B>,
    mode: GatherMode,
    value: u32,
    shape: Shape,
    extent: Extent,
) -> Operand {
    let made = placed(lowering, shape, extent);
    let gather = Statement::SubgroupGather {
        mode,
        argument: handle_of(value),
        result: handle(lowering, made),
    };
    lowering.builder.statement(gather, extent);
    made
}

// A gather from the invocation that an index, a delta or a mask selects.
pub(crate) fn gather<B: Builder>(
    lowering: &mut Lowering<B>,
    word: GatherWord,
    arguments: &[Operand],
    extent: Extent,
) -> Operand {
    if !check_count(lowering, arguments, 2, extent) {
        return Operand::NOTHING;
    }
    let (value, shape) = lowering.value(argument(arguments, 0));
    let index = handle_of(lowering.value_as(argument(arguments, 1), Scalar::U32).0);
    let mode = match word {
        GatherWord::Broadcast => GatherMode::Broadcast(index),
        GatherWord::Shuffle => GatherMode::Shuffle(index),
        GatherWord::ShuffleUp => GatherMode::ShuffleUp(index),
        GatherWord::ShuffleDown => GatherMode::ShuffleDown(index),
        GatherWord::ShuffleXor => GatherMode::ShuffleXor(index),
        GatherWord::QuadBroadcast => GatherMode::QuadBroadcast(index),
    };
    gathered(lowering, mode, value, shape, extent)
}

// A gather from the first invocation, or from a neighbour in the quad.
fn gather_of_one<B: Builder>(
    lowering: &mut Lowering<B>,
    mode: GatherMode,
    arguments: &[Operand],
    extent: Extent,
) -> Operand {
    if !check_count(lowering, arguments, 1, extent) {
        return Operand::NOTHING;
    }
    let (value, shape) = lowering.value(argument(arguments, 0));
    gathered(lowering, mode, value, shape, extent)
}

// `subgroupBroadcastFirst`.
pub(crate) fn broadcast_first<B: Builder>(
    lowering: &mut Lowering<B>,
    arguments: &[Operand],
    extent: Extent,
) -> Operand {
    gather_of_one(lowering, GatherMode::BroadcastFirst, arguments, extent)
}

// `quadSwapX`, `quadSwapY` or `quadSwapDiagonal`.
pub(crate) fn quad_swap<B: Builder>(
    lowering: &mut Lowering<B>,
    direction: Direction,
    arguments: &[Operand],
    extent: Extent,
) -> Operand {
    gather_of_one(lowering, GatherMode::QuadSwap(direction), arguments, extent)
}

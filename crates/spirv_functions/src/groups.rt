// Barriers and subgroups (sections 3.52.20 and 3.52.24).

use crate::ballots::of_set;
use crate::clusters::clustered;
use ir_blocks::{GatherMode, Statement};
use ir_flags::{Barrier, Capabilities, SubgroupOperationSet};
use ir_kinds::{
    BinaryOperator, CollectiveOperation, Direction, Literal, RelationalFunction, Scalar,
    ScalarKind, SubgroupOperation, VectorSize,
};
use ir_types::Expression;
use spirv_expressions::{
    Value, as_kind, binary, need, operand, result_scalar, select, signed, splat,
};
use spirv_numbers::ops;
use spirv_operations::FunctionBuilder;
use spirv_tables::collective_of;
use spirv_types::TypeHandle;
use spirv_words::{Feature, Instruction};

// Whose scope a barrier or an operation has (section 3.27).
const WORKGROUP: i64 = 2;

const SUBGROUP: i64 = 3;

// Which memory a barrier orders (section 3.25), and what that is in the IR.
static MEMORY: [(i64, Barrier); 5] = [
    (0x40, Barrier::STORAGE),
    (0x80, Barrier::SUB_GROUP),
    (0x100, Barrier::WORK_GROUP),
    (0x800, Barrier::TEXTURE),
    // outputs, which lie in the memory of the workgroup
    (0x1000, Barrier::WORK_GROUP),
];

/// Waits for other invocations, or for memory.
pub fn barrier<L: FunctionBuilder>(lowering: &mut L, operation: &Instruction) {
    let is_control = operation.opcode == ops::CONTROL_BARRIER;
    let semantics = need(lowering, operation, if is_control { 2 } else { 1 });
    let scope = need(lowering, operation, 0);
    let (Some(semantics), Some(scope)) = (lowering.constant(semantics), lowering.constant(scope))
    else {
        lowering.fail(operation.unsupported_by(Feature::BarrierOperand));
        return;
    };
    let mut set = 0;
    for row in &MEMORY {
        if semantics & row.0 != 0 {
            set |= row.1.0;
        }
    }
    if is_control && scope == SUBGROUP {
        set |= Barrier::SUB_GROUP.0;
    } else if is_control && scope != WORKGROUP {
        lowering.fail(operation.unsupported_by(Feature::BarrierScope));
    }
    if set & Barrier::SUB_GROUP.0 != 0 {
        lowering.require(Capabilities::SUBGROUP);
        lowering.require(Capabilities::SUBGROUP_BARRIER);
    }
    let barrier = if is_control {
        Statement::ControlBarrier(Barrier(set))
    } else {
        Statement::MemoryBarrier(Barrier(set))
    };
    lowering.add(barrier, operation);
}

// Opcodes of operations that have no scope among their operands (the extensions shader_ballot and subgroup_vote), and two that
// are made of others.
const ELECT: u16 = 333;

const ALL_EQUAL: u16 = 336;

const BALLOT_KHR: u16 = 4421;

const FIRST_INVOCATION_KHR: u16 = 4422;

const ALL_KHR: u16 = 4428;

const ANY_KHR: u16 = 4429;

const ALL_EQUAL_KHR: u16 = 4430;

const READ_INVOCATION_KHR: u16 = 4432;

/// Whether it is an operation of a subgroup.
pub fn is_group(opcode: u16) -> bool {
    matches!(
        opcode,
        ELECT..=ops::GROUP_NON_UNIFORM_QUAD_SWAP
            | BALLOT_KHR
            | FIRST_INVOCATION_KHR
            | ALL_KHR
            | ANY_KHR
            | ALL_EQUAL_KHR
            | READ_INVOCATION_KHR
            | 5000..=5007
    )
}

/// Translates a subgroup operation.
pub fn group<L: FunctionBuilder>(lowering: &mut L, operation: &Instruction) {
    match operation.opcode {
        BALLOT_KHR => return ballot(lowering, operation, 0),
        FIRST_INVOCATION_KHR => return first_value(lowering, operation),
        ALL_KHR => return vote(lowering, operation, SubgroupOperation::All, 0),
        ANY_KHR => return vote(lowering, operation, SubgroupOperation::Any, 0),
        ALL_EQUAL_KHR => return all_equal(lowering, operation, 0),
        READ_INVOCATION_KHR => return read_invocation(lowering, operation),
        _ => {}
    }
    let scope = need(lowering, operation, 0);
    if lowering.constant(scope) != Some(SUBGROUP) {
        lowering.fail(operation.unsupported_by(Feature::GroupScope));
        return;
    }
    if let Some((op, sign)) = collective_of(operation.opcode) {
        return collective(lowering, operation, op, sign);
    }
    match operation.opcode {
        ELECT => elect(lowering, operation),
        ALL_EQUAL => all_equal(lowering, operation, 1),
        ops::GROUP_NON_UNIFORM_ALL => vote(lowering, operation, SubgroupOperation::All, 1),
        ops::GROUP_NON_UNIFORM_ANY => vote(lowering, operation, SubgroupOperation::Any, 1),
        ops::GROUP_NON_UNIFORM_BALLOT => ballot(lowering, operation, 1),
        _ => match of_set(lowering, operation) {
            Some(value) => lowering.define(operation, value),
            None => gather(lowering, operation),
        },
    }
}

// The value of the invocation with this uniform index.
fn read_invocation<L: FunctionBuilder>(lowering: &mut L, operation: &Instruction) {
    lowering.require_operations(SubgroupOperationSet::SHUFFLE);
    let argument = operand(lowering, operation, 0);
    let index = signed(lowering, operation, 1, ScalarKind::Uint);
    gather_by(lowering, operation, GatherMode::Shuffle(index), argument);
}

// The ballot of the predicate at this operand index.
fn ballot<L: FunctionBuilder>(lowering: &mut L, operation: &Instruction, place: usize) {
    lowering.require_operations(SubgroupOperationSet::BALLOT);
    let predicate = Some(operand(lowering, operation, place));
    let value = lowering.always(Expression::SubgroupBallotResult, operation);
    let ballot = Statement::SubgroupBallot {
        result: value,
        predicate,
    };
    lowering.add(ballot, operation);
    lowering.define(operation, value)
}

// The value of the first invocation.
fn first_value<L: FunctionBuilder>(lowering: &mut L, operation: &Instruction) {
    let argument = operand(lowering, operation, 0);
    let ty = lowering.built(operation.ty, operation);
    let value = broadcast_first(lowering, operation, argument, ty);
    lowering.define(operation, value)
}

// The first invocation's value of this type.
fn broadcast_first<L: FunctionBuilder>(
    lowering: &mut L,
    operation: &Instruction,
    argument: Value,
    ty: TypeHandle,
) -> Value {
    lowering.require_operations(SubgroupOperationSet::BALLOT);
    let first = result_of(lowering, operation, ty);
    let gather = Statement::SubgroupGather {
        mode: GatherMode::BroadcastFirst,
        argument,
        result: first,
    };
    lowering.add(gather, operation);
    first
}

// Bools as the numbers 1 and 0, because no bools can be read from other invocations.
fn numbers_of<L: FunctionBuilder>(
    lowering: &mut L,
    operation: &Instruction,
    condition: Value,
    size: Option<VectorSize>,
) -> Value {
    let one = lowering.literal(Literal::U32(1), operation);
    let zero = lowering.literal(Literal::U32(0), operation);
    let accept = splat(lowering, operation, size, one);
    let reject = splat(lowering, operation, size, zero);
    select(lowering, operation, condition, accept, reject)
}

// Whether the operand at this index is equal in all invocations: equal to that of the first one.
fn all_equal<L: FunctionBuilder>(lowering: &mut L, operation: &Instruction, place: usize) {
    let id = need(lowering, operation, place);
    let ty = lowering.type_of(id);
    let shape = lowering.shape(ty);
    let mut left = operand(lowering, operation, place);
    let is_truth = shape.kind() == Some(ScalarKind::Bool);
    let of_value = if is_truth {
        left = numbers_of(lowering, operation, left, shape.size());
        lowering.vector(shape.size(), Scalar::U32)
    } else {
        lowering.built(ty, operation)
    };
    let right = broadcast_first(lowering, operation, left, of_value);
    let mut equal = binary(lowering, operation, BinaryOperator::Equal, left, right);
    if shape.size().is_some() {
        let fun = RelationalFunction::All;
        let argument = equal;
        equal = lowering.emit(Expression::Relational { fun, argument }, operation);
    }
    vote_on(lowering, operation, SubgroupOperation::All, equal);
}

// Whether no active invocation comes before: the exclusive sum of ones is 0.
fn elect<L: FunctionBuilder>(lowering: &mut L, operation: &Instruction) {
    lowering.require_operations(SubgroupOperationSet::ARITHMETIC);
    let argument = lowering.literal(Literal::U32(1), operation);
    let right = lowering.literal(Literal::U32(0), operation);
    let ty = lowering.vector(None, Scalar::U32);
    let left = result_of(lowering, operation, ty);
    let sum = Statement::SubgroupCollectiveOperation {
        op: SubgroupOperation::Add,
        collective_op: CollectiveOperation::ExclusiveScan,
        argument,
        result: left,
    };
    lowering.add(sum, operation);
    let value = binary(lowering, operation, BinaryOperator::Equal, left, right);
    lowering.define(operation, value)
}

// The result of a subgroup operation.
fn result_of<L: FunctionBuilder>(
    lowering: &mut L,
    operation: &Instruction,
    ty: TypeHandle,
) -> Value {
    lowering.always(Expression::SubgroupOperationResult { ty }, operation)
}

// A vote with the operand at this index.
fn vote<L: FunctionBuilder>(
    lowering: &mut L,
    operation: &Instruction,
    op: SubgroupOperation,
    place: usize,
) {
    let argument = operand(lowering, operation, place);
    vote_on(lowering, operation, op, argument)
}

// A vote with a value.
fn vote_on<L: FunctionBuilder>(
    lowering: &mut L,
    operation: &Instruction,
    op: SubgroupOperation,
    argument: Value,
) {
    lowering.require_operations(SubgroupOperationSet::VOTE);
    let ty = lowering.built(operation.ty, operation);
    let value = result_of(lowering, operation, ty);
    let vote = Statement::SubgroupCollectiveOperation {
        op,
        collective_op: CollectiveOperation::Reduce,
        argument,
        result: value,
    };
    lowering.add(vote, operation);
    lowering.define(operation, value)
}

// A reduction, a scan, or a clustered reduction.
fn collective<L: FunctionBuilder>(
    lowering: &mut L,
    operation: &Instruction,
    op: SubgroupOperation,
    sign: Option<ScalarKind>,
) {
    let collective_op = match need(lowering, operation, 1) {
        0 => CollectiveOperation::Reduce,
        1 => CollectiveOperation::InclusiveScan,
        2 => CollectiveOperation::ExclusiveScan,
        3 => return over_cluster(lowering, operation, op, sign),
        _ => {
            lowering.fail(operation.unsupported_by(Feature::PartOfSubgroup));
            return;
        }
    };
    lowering.require_operations(SubgroupOperationSet::ARITHMETIC);
    let to = result_scalar(lowering, operation);
    let kind = sign.unwrap_or(to.kind);
    let argument = signed(lowering, operation, 2, kind);
    let ty = typed(lowering, operation, to, kind);
    let value = result_of(lowering, operation, ty);
    let collect = Statement::SubgroupCollectiveOperation {
        op,
        collective_op,
        argument,
        result: value,
    };
    lowering.add(collect, operation);
    let value = as_kind(lowering, operation, value, kind, to.kind);
    lowering.define(operation, value)
}

// The type of the result with scalars of this kind.
fn typed<L: FunctionBuilder>(
    lowering: &mut L,
    operation: &Instruction,
    scalar: Scalar,
    kind: ScalarKind,
) -> TypeHandle {
    let mut of_kind = scalar;
    of_kind.kind = kind;
    let size = lowering.shape(operation.ty).size();
    lowering.vector(size, of_kind)
}

// The clustered reduction.
fn over_cluster<L: FunctionBuilder>(
    lowering: &mut L,
    operation: &Instruction,
    op: SubgroupOperation,
    sign: Option<ScalarKind>,
) {
    let to = result_scalar(lowering, operation);
    if to.kind == ScalarKind::Bool {
        return truths_over_cluster(lowering, operation, op);
    }
    let kind = sign.unwrap_or(to.kind);
    let argument = signed(lowering, operation, 2, kind);
    let ty = typed(lowering, operation, to, kind);
    let value = clustered(lowering, operation, op, argument, ty);
    let value = as_kind(lowering, operation, value, kind, to.kind);
    lowering.define(operation, value)
}

// The same on bools, as numbers.
fn truths_over_cluster<L: FunctionBuilder>(
    lowering: &mut L,
    operation: &Instruction,
    op: SubgroupOperation,
) {
    let size = lowering.shape(operation.ty).size();
    let truth = operand(lowering, operation, 2);
    let argument = numbers_of(lowering, operation, truth, size);
    let ty = lowering.vector(size, Scalar::U32);
    let left = clustered(lowering, operation, op, argument, ty);
    let zero = lowering.literal(Literal::U32(0), operation);
    let right = splat(lowering, operation, size, zero);
    let value = binary(lowering, operation, BinaryOperator::NotEqual, left, right);
    lowering.define(operation, value)
}

// A value of another invocation.
fn gather<L: FunctionBuilder>(lowering: &mut L, operation: &Instruction) {
    if !is_gather(operation.opcode) {
        lowering.fail(operation.unsupported());
        return;
    }
    let argument = operand(lowering, operation, 1);
    let mode = gather_mode(lowering, operation);
    gather_by(lowering, operation, mode, argument);
}

// A value of the invocation that is named so.
fn gather_by<L: FunctionBuilder>(
    lowering: &mut L,
    operation: &Instruction,
    mode: GatherMode,
    argument: Value,
) {
    let ty = lowering.built(operation.ty, operation);
    let value = result_of(lowering, operation, ty);
    let gather = Statement::SubgroupGather {
        mode,
        argument,
        result: value,
    };
    lowering.add(gather, operation);
    lowering.define(operation, value)
}

// Whether the instruction reads a value of another invocation.
fn is_gather(opcode: u16) -> bool {
    matches!(
        opcode,
        ops::GROUP_NON_UNIFORM_BROADCAST
            | ops::GROUP_NON_UNIFORM_BROADCAST_FIRST
            | ops::GROUP_NON_UNIFORM_SHUFFLE
            | ops::GROUP_NON_UNIFORM_SHUFFLE_XOR
            | ops::GROUP_NON_UNIFORM_SHUFFLE_UP
            | ops::GROUP_NON_UNIFORM_SHUFFLE_DOWN
            | ops::GROUP_NON_UNIFORM_QUAD_BROADCAST
            | ops::GROUP_NON_UNIFORM_QUAD_SWAP
    )
}

// The index of the invocation whose value is read.
fn gather_mode<L: FunctionBuilder>(lowering: &mut L, operation: &Instruction) -> GatherMode {
    let opcode = operation.opcode;
    if opcode == ops::GROUP_NON_UNIFORM_BROADCAST_FIRST {
        return GatherMode::BroadcastFirst;
    }
    if opcode == ops::GROUP_NON_UNIFORM_QUAD_SWAP {
        return GatherMode::QuadSwap(direction(lowering, operation));
    }
    let index = operand(lowering, operation, 2);
    match opcode {
        ops::GROUP_NON_UNIFORM_BROADCAST => broadcast_mode(lowering, operation, index),
        ops::GROUP_NON_UNIFORM_SHUFFLE => GatherMode::Shuffle(index),
        ops::GROUP_NON_UNIFORM_SHUFFLE_XOR => GatherMode::ShuffleXor(index),
        ops::GROUP_NON_UNIFORM_SHUFFLE_UP => GatherMode::ShuffleUp(index),
        ops::GROUP_NON_UNIFORM_SHUFFLE_DOWN => GatherMode::ShuffleDown(index),
        _ => GatherMode::QuadBroadcast(index),
    }
}

// A value read from an invocation with a uniform index that is no constant becomes a shuffle.
fn broadcast_mode<L: FunctionBuilder>(
    lowering: &mut L,
    operation: &Instruction,
    index: Value,
) -> GatherMode {
    let id = need(lowering, operation, 2);
    if lowering.is_constant(id) {
        return GatherMode::Broadcast(index);
    }
    lowering.require_operations(SubgroupOperationSet::SHUFFLE);
    GatherMode::Shuffle(index)
}

// The direction of a quad swap.
fn direction<L: FunctionBuilder>(lowering: &mut L, operation: &Instruction) -> Direction {
    let id = need(lowering, operation, 2);
    match lowering.constant(id) {
        Some(0) => Direction::X,
        Some(1) => Direction::Y,
        Some(2) => Direction::Diagonal,
        _ => {
            lowering.fail(operation.unsupported_by(Feature::QuadSwapDirection));
            Direction::X
        }
    }
}

// Operations over clusters of a subgroup (section 3.29, ClusteredReduce).

use crate::ballots::{invocation, is_in};
use ir_blocks::{GatherMode, Statement};
use ir_flags::SubgroupOperationSet;
use ir_kinds::{BinaryOperator, Literal, MathFunction, SubgroupOperation};
use ir_types::Expression;
use spirv_expressions::{Value, binary, call, need, refuse, select};
use spirv_operations::FunctionBuilder;
use spirv_types::TypeHandle;
use spirv_words::{Feature, Instruction};

// The most invocations that a subgroup may have.
const MAX_SIZE: u32 = 128;

// How many invocations a cluster has, the operand after the value; a constant power of two.
fn size_of<L: FunctionBuilder>(lowering: &mut L, operation: &Instruction) -> Option<u32> {
    let id = need(lowering, operation, 3);
    let size = u32::try_from(lowering.constant(id)?).ok()?;
    if size.is_power_of_two() {
        Some(size)
    } else {
        None
    }
}

// The operation on two values.
fn combined<L: FunctionBuilder>(
    lowering: &mut L,
    operation: &Instruction,
    op: SubgroupOperation,
    left: Value,
    right: Value,
) -> Value {
    let operator = match op {
        SubgroupOperation::Add => BinaryOperator::Add,
        SubgroupOperation::Mul => BinaryOperator::Multiply,
        SubgroupOperation::All | SubgroupOperation::And => BinaryOperator::And,
        SubgroupOperation::Any | SubgroupOperation::Or => BinaryOperator::InclusiveOr,
        SubgroupOperation::Xor => BinaryOperator::ExclusiveOr,
        SubgroupOperation::Min => {
            let rest = [Some(right), None, None];
            return call(lowering, operation, MathFunction::Min, left, rest);
        }
        SubgroupOperation::Max => {
            let rest = [Some(right), None, None];
            return call(lowering, operation, MathFunction::Max, left, rest);
        }
    };
    binary(lowering, operation, operator, left, right)
}

// Which invocations are active.
fn active<L: FunctionBuilder>(lowering: &mut L, operation: &Instruction) -> Value {
    let result = lowering.always(Expression::SubgroupBallotResult, operation);
    let ballot = Statement::SubgroupBallot {
        result,
        predicate: None,
    };
    lowering.add(ballot, operation);
    result
}

// The value of the invocation whose number differs in these bits.
fn value_across<L: FunctionBuilder>(
    lowering: &mut L,
    operation: &Instruction,
    argument: Value,
    ty: TypeHandle,
    distance: Value,
) -> Value {
    let result = lowering.always(Expression::SubgroupOperationResult { ty }, operation);
    let gather = Statement::SubgroupGather {
        mode: GatherMode::ShuffleXor(distance),
        argument,
        result,
    };
    lowering.add(gather, operation);
    result
}

/// The operation over the values of this type that the active invocations of a cluster have.
pub fn clustered<L: FunctionBuilder>(
    lowering: &mut L,
    operation: &Instruction,
    op: SubgroupOperation,
    argument: Value,
    ty: TypeHandle,
) -> Value {
    let size = match size_of(lowering, operation) {
        Some(size) if size < MAX_SIZE => size,
        _ => return refuse(lowering, operation.unsupported_by(Feature::PartOfSubgroup)),
    };
    if size == 1 {
        return argument;
    }
    lowering.require_operations(SubgroupOperationSet(
        SubgroupOperationSet::BALLOT.0 | SubgroupOperationSet::SHUFFLE.0,
    ));
    let active = active(lowering, operation);
    let here = invocation(lowering, operation);
    let mut whole = argument;
    for step in 1..size {
        if lowering.has_failed() {
            break;
        }
        let distance = lowering.literal(Literal::U32(step), operation);
        let other = value_across(lowering, operation, argument, ty, distance);
        let op_at = BinaryOperator::ExclusiveOr;
        let at = binary(lowering, operation, op_at, here, distance);
        let is_active = is_in(lowering, operation, active, at);
        let both = combined(lowering, operation, op, whole, other);
        whole = select(lowering, operation, is_active, both, whole);
    }
    whole
}

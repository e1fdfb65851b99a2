// Sets of a subgroup's invocations, which are four words with a bit for each (section 3.52.24).

use ir_kinds::{BinaryOperator, Literal, MathFunction, Scalar, ScalarKind, VectorSize};
use ir_types::Expression;
use spirv_expressions::{
    Value, Words, as_kind, binary, call, need, part_of, refuse, result_scalar, select, signed,
};
use spirv_flow::SUBGROUP_NUMBERS;
use spirv_operations::FunctionBuilder;
use spirv_types::span_of;
use spirv_words::{Feature, Instruction};

const INVERSE_BALLOT: u16 = 340;

const BIT_EXTRACT: u16 = 341;

const BIT_COUNT: u16 = 342;

const FIND_LSB: u16 = 343;

const FIND_MSB: u16 = 344;

/// What an operation on a set of invocations is, if it is one.
pub fn of_set<L: FunctionBuilder>(lowering: &mut L, operation: &Instruction) -> Option<Value> {
    let value = match operation.opcode {
        INVERSE_BALLOT => {
            let set = signed(lowering, operation, 1, ScalarKind::Uint);
            let at = invocation(lowering, operation);
            is_in(lowering, operation, set, at)
        }
        BIT_EXTRACT => {
            let set = signed(lowering, operation, 1, ScalarKind::Uint);
            let at = signed(lowering, operation, 2, ScalarKind::Uint);
            is_in(lowering, operation, set, at)
        }
        BIT_COUNT => count(lowering, operation),
        FIND_LSB => find(
            lowering,
            operation,
            MathFunction::FirstTrailingBit,
            [3, 2, 1, 0],
        ),
        FIND_MSB => find(
            lowering,
            operation,
            MathFunction::FirstLeadingBit,
            [0, 1, 2, 3],
        ),
        _ => return None,
    };
    Some(value)
}

/// The number of the invocation in its subgroup.
pub fn invocation<L: FunctionBuilder>(lowering: &mut L, operation: &Instruction) -> Value {
    number(lowering, operation, 0)
}

// A number that each entry point stores for its functions: that of the invocation, or the subgroup's size.
fn number<L: FunctionBuilder>(lowering: &mut L, operation: &Instruction, index: u32) -> Value {
    let place = lowering.pointer(SUBGROUP_NUMBERS, operation);
    let both = lowering.way(place, operation);
    let pointer = part_of(lowering, operation, both, index);
    lowering.emit(Expression::Load { pointer }, operation)
}

fn word<L: FunctionBuilder>(lowering: &mut L, operation: &Instruction, word: u32) -> Value {
    lowering.literal(Literal::U32(word), operation)
}

/// Whether the invocation with this number is in a set.
pub fn is_in<L: FunctionBuilder>(
    lowering: &mut L,
    operation: &Instruction,
    set: Value,
    at: Value,
) -> Value {
    let five = word(lowering, operation, 5);
    let last = word(lowering, operation, 31);
    let one = word(lowering, operation, 1);
    let zero = word(lowering, operation, 0);
    let index = binary(lowering, operation, BinaryOperator::ShiftRight, at, five);
    let base = set;
    let bits = lowering.emit(Expression::Access { base, index }, operation);
    let place = binary(lowering, operation, BinaryOperator::And, at, last);
    let moved = binary(lowering, operation, BinaryOperator::ShiftRight, bits, place);
    let bit = binary(lowering, operation, BinaryOperator::And, moved, one);
    binary(lowering, operation, BinaryOperator::NotEqual, bit, zero)
}

// What of a set lies below an invocation.
fn within<L: FunctionBuilder>(
    lowering: &mut L,
    operation: &Instruction,
    place: usize,
    at: Value,
) -> Value {
    let set = signed(lowering, operation, place, ScalarKind::Uint);
    let ty = lowering.vector(Some(VectorSize::Quad), Scalar::U32);
    let words = Words {
        alloc: lowering.alloc(),
        span: span_of(operation),
    };
    let lower = words.below(lowering, ty, at);
    binary(lowering, operation, BinaryOperator::And, set, lower)
}

// A word with the sign of the result.
fn answered<L: FunctionBuilder>(lowering: &mut L, operation: &Instruction, value: Value) -> Value {
    let to = result_scalar(lowering, operation).kind;
    as_kind(lowering, operation, value, ScalarKind::Uint, to)
}

// How many invocations of a set there are, or are before this one, itself included or not.
fn count<L: FunctionBuilder>(lowering: &mut L, operation: &Instruction) -> Value {
    let end = match need(lowering, operation, 1) {
        0 => number(lowering, operation, 1),
        1 => {
            let at = invocation(lowering, operation);
            let one = word(lowering, operation, 1);
            binary(lowering, operation, BinaryOperator::Add, at, one)
        }
        2 => invocation(lowering, operation),
        _ => return refuse(lowering, operation.unsupported_by(Feature::PartOfSubgroup)),
    };
    let set = within(lowering, operation, 2, end);
    let none = [None, None, None];
    let counts = call(lowering, operation, MathFunction::CountOneBits, set, none);
    let mut sum = part_of(lowering, operation, counts, 0);
    for index in 1..4u32 {
        let part = part_of(lowering, operation, counts, index);
        sum = binary(lowering, operation, BinaryOperator::Add, sum, part);
    }
    answered(lowering, operation, sum)
}

// The first or the last invocation of a set: of the words with a bit that which comes last in this order.
fn find<L: FunctionBuilder>(
    lowering: &mut L,
    operation: &Instruction,
    fun: MathFunction,
    order: [u32; 4],
) -> Value {
    let end = number(lowering, operation, 1);
    let set = within(lowering, operation, 1, end);
    let places = call(lowering, operation, fun, set, [None, None, None]);
    let zero = word(lowering, operation, 0);
    let mut found = zero;
    for index in order {
        let first = word(lowering, operation, index.saturating_mul(32));
        let place = part_of(lowering, operation, places, index);
        let at = binary(lowering, operation, BinaryOperator::Add, place, first);
        let bits = part_of(lowering, operation, set, index);
        let has = binary(lowering, operation, BinaryOperator::NotEqual, bits, zero);
        found = select(lowering, operation, has, at, found);
    }
    answered(lowering, operation, found)
}

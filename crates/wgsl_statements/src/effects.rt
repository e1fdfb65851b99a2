// Assignments, calls, `return` and `const_assert`.

use ir_blocks::Statement;
use ir_kinds::{BinaryOperator, Literal, Scalar};
use wgsl_builtins::FunctionWord;
use wgsl_expressions::{Lowering, Operand, Value, handle_of};
use wgsl_functions::lower_call;
use wgsl_text::Extent;
use wgsl_types::{Builder, Shape};

// Stores a value to a reference.
fn store<B: Builder>(lowering: &mut Lowering<B>, place: Operand, value: Operand) {
    let extent = place.extent.until(value.extent);
    let Value::Place(pointer, shape, _) = place.value else {
        lowering.wrong("invalid left-hand side of assignment", place.extent);
        return;
    };
    let wanted = match shape {
        Shape::Atomic(scalar) => Shape::Scalar(scalar),
        _ => shape,
    };
    let value = lowering.value_for(value, wanted);
    let store = Statement::Store {
        pointer: handle_of(pointer),
        value: handle_of(value),
    };
    lowering.builder.statement(store, extent);
}

// Lowers a simple assignment.
pub(crate) fn assign<B: Builder>(lowering: &mut Lowering<B>) {
    let popped = lowering.pop();
    let value = lowering.load(popped);
    let place = lowering.pop();
    store(lowering, place, value);
}

// The left-hand side of a compound assignment: its value is loaded.
pub(crate) fn target<B: Builder>(lowering: &mut Lowering<B>) {
    let place = lowering.pop();
    if !matches!(place.value, Value::Place(..)) {
        lowering.wrong("invalid left-hand side of assignment", place.extent);
    }
    let loaded = lowering.load(place);
    lowering.push(place);
    lowering.push(loaded);
}

// Lowers a compound assignment.
pub(crate) fn compound<B: Builder>(lowering: &mut Lowering<B>, operator: BinaryOperator) {
    let popped = lowering.pop();
    let right = lowering.load(popped);
    let left = lowering.pop();
    let place = lowering.pop();
    let made = lowering.combine(operator, left, right);
    store(lowering, place, made);
}

// Lowers an increment or a decrement.
pub(crate) fn count<B: Builder>(lowering: &mut Lowering<B>, op: BinaryOperator, token: u32) {
    let place = lowering.pop();
    let extent = place.extent.until(lowering.extent(token));
    let one = match place.value {
        Value::Place(_, Shape::Scalar(scalar), _) if scalar == Scalar::I32 => Literal::I32(1),
        Value::Place(_, Shape::Scalar(scalar), _) if scalar == Scalar::U32 => Literal::U32(1),
        Value::Place(..) => {
            lowering.wrong(
                "increment/decrement operation requires reference type to be one of i32 or u32",
                place.extent,
            );
            return;
        }
        _ => {
            lowering.wrong("invalid left-hand side of assignment", place.extent);
            return;
        }
    };
    let left = lowering.load(place);
    let right = Operand {
        value: Value::Literal(one),
        extent,
    };
    let made = lowering.combine(op, left, right);
    store(lowering, place, made);
}

// Lowers a phony assignment.
pub(crate) fn phony<B: Builder>(lowering: &mut Lowering<B>) {
    let operand = lowering.pop();
    let _ = lowering.value(operand);
}

// Whether the result of a call may be dropped.
fn may_be_left(value: Value) -> bool {
    match value {
        Value::Function(entry) => !entry.must_use,
        Value::BuiltIn(FunctionWord::Texture(word)) => !word.has_value(),
        Value::BuiltIn(FunctionWord::Effect(word)) => word.may_be_dropped(),
        Value::BuiltIn(word) => matches!(word, FunctionWord::Barrier(_)),
        Value::Word(_) => true,
        _ => false,
    }
}

// Lowers a call statement with this many arguments.
pub(crate) fn call<B: Builder>(lowering: &mut Lowering<B>, arguments: u32, token: u32) {
    let place = lowering
        .stack
        .len()
        .saturating_sub(arguments as usize)
        .saturating_sub(1);
    let callee = lowering
        .stack
        .get(place)
        .copied()
        .unwrap_or(Operand::NOTHING);
    lower_call(lowering, arguments, true, token);
    let _ = lowering.pop();
    if !may_be_left(callee.value) {
        lowering.wrong(
            "unused return value from function annotated with @must_use",
            callee.extent,
        );
    }
}

// Lowers a `return`, with a value or not.
pub(crate) fn give<B: Builder>(
    lowering: &mut Lowering<B>,
    gives: Shape,
    has_value: bool,
    extent: Extent,
) {
    let value = if has_value {
        let popped = lowering.pop();
        let operand = lowering.load(popped);
        Some(handle_of(lowering.value_for(operand, gives)))
    } else {
        None
    };
    lowering
        .builder
        .statement(Statement::Return { value }, extent);
}

// Lowers a `const_assert`.
pub(crate) fn assertion<B: Builder>(lowering: &mut Lowering<B>) {
    let operand = lowering.pop();
    match operand.value {
        Value::Literal(Literal::Bool(true)) => {}
        Value::Literal(Literal::Bool(false)) => {
            lowering.wrong("`const_assert` failure", operand.extent);
        }
        Value::Literal(_) => lowering.wrong(
            "must be a const-expression that resolves to a `bool`",
            operand.extent,
        ),
        _ => lowering.unsupported("a `const_assert` of this", operand.extent),
    }
}

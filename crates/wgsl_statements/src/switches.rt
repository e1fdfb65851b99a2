// Switches.

use crate::flow::{Around, CaseEntry, Flow, Selector};
use ir_blocks::{Statement, SwitchCase};
use ir_kinds::{Literal, Scalar, SwitchValue};
use ir_types::Expression;
use wgsl_expressions::{Lowering, Value, handle_of};
use wgsl_text::{Extent, Failure};
use wgsl_types::{Builder, Shape};
use wgsl_values::converted;

// Opens a `switch` with the selector on the stack.
pub(crate) fn select<B: Builder>(lowering: &mut Lowering<B>, flow: &mut Flow, extent: Extent) {
    let popped = lowering.pop();
    let operand = lowering.load(popped);
    let (selector, shape) = lowering.value(operand);
    if shape != Shape::Scalar(Scalar::I32) && shape != Shape::Scalar(Scalar::U32) {
        lowering.wrong("invalid `switch` selector", operand.extent);
    }
    let start = u32::try_from(flow.cases.len()).unwrap_or(u32::MAX);
    let selector = Selector {
        value: selector,
        unsigned: shape == Shape::Scalar(Scalar::U32),
        known: match operand.value {
            Value::Literal(Literal::AbstractInt(number)) => Some(number),
            _ => None,
        },
    };
    flow.push(lowering, Around::Switch(selector, start), extent);
}

// Adds a case value, which falls through to the next one.
fn add<B: Builder>(
    lowering: &mut Lowering<B>,
    flow: &mut Flow,
    value: SwitchValue,
    converts: bool,
) {
    let mut failed = Failure::NONE;
    let entry = CaseEntry {
        value,
        converts,
        falls: true,
    };
    failed.push(&mut flow.cases, entry);
    lowering.join(&failed);
    lowering.builder.open();
}

// Adds a case value.
pub(crate) fn value<B: Builder>(lowering: &mut Lowering<B>, flow: &mut Flow) {
    let operand = lowering.pop();
    let converts = matches!(operand.value, Value::Literal(Literal::AbstractInt(_)));
    let literal = match operand.value {
        Value::Literal(literal) => Some(literal),
        Value::Computed(number, _) => flow.bound(number),
        _ => None,
    };
    let value = match literal {
        Some(Literal::U32(number)) => Some(SwitchValue::U32(number)),
        Some(literal) => match converted(literal, Scalar::I32) {
            Some(Literal::I32(number)) => Some(SwitchValue::I32(number)),
            _ => None,
        },
        None => None,
    };
    match value {
        Some(value) => add(lowering, flow, value, converts),
        None => lowering.wrong("invalid `switch` case selector value", operand.extent),
    }
}

// Adds `default`.
pub(crate) fn default<B: Builder>(lowering: &mut Lowering<B>, flow: &mut Flow) {
    add(lowering, flow, SwitchValue::Default, false);
}

// Opens the body of the last case values: the last of them does not fall through.
pub(crate) fn body<B: Builder>(lowering: &mut Lowering<B>, flow: &mut Flow, extent: Extent) {
    if let Some(last) = flow.cases.last_mut() {
        last.falls = false;
    }
    flow.push(lowering, Around::Case, extent);
}

// A case's value, converted to the selector's type.
fn value_of(entry: &CaseEntry, unsigned: bool) -> SwitchValue {
    match entry.value {
        SwitchValue::I32(number) if unsigned && entry.converts => match u32::try_from(number) {
            Ok(number) => SwitchValue::U32(number),
            Err(_) => entry.value,
        },
        _ => entry.value,
    }
}

// Whether a case value from this index on is a `u32`.
fn is_unsigned(flow: &Flow, start: u32) -> bool {
    for place in start as usize..flow.cases.len() {
        match flow.cases.get(place) {
            Some(entry) if matches!(entry.value, SwitchValue::U32(_)) => return true,
            _ => {}
        }
    }
    false
}

// The selector's expression; an abstract selector gets the type of the cases.
fn selector_of<B: Builder>(
    lowering: &mut Lowering<B>,
    chosen: &Selector,
    unsigned: bool,
    extent: Extent,
) -> u32 {
    let Some(number) = chosen.known else {
        return chosen.value;
    };
    match u32::try_from(number) {
        Ok(number) if unsigned => lowering.place(Expression::Literal(Literal::U32(number)), extent),
        _ => chosen.value,
    }
}

// Closes a `switch`: its cases' blocks were opened one after the other.
pub(crate) fn end<B: Builder>(
    lowering: &mut Lowering<B>,
    flow: &mut Flow,
    chosen: &Selector,
    start: u32,
    extent: Extent,
) {
    let unsigned = chosen.unsigned || is_unsigned(flow, start);
    let mut failed = Failure::NONE;
    let mut backwards = Vec::new(lowering.alloc);
    for _ in start as usize..flow.cases.len() {
        let Some(entry) = flow.cases.pop() else {
            break;
        };
        let case = SwitchCase {
            value: value_of(&entry, unsigned),
            body: lowering.builder.close(),
            fall_through: entry.falls,
        };
        failed.push(&mut backwards, case);
    }
    let mut cases = Vec::new(lowering.alloc);
    for _ in 0..backwards.len() {
        if let Some(case) = backwards.pop() {
            failed.push(&mut cases, case);
        }
    }
    lowering.join(&failed);
    let selector = handle_of(selector_of(lowering, chosen, unsigned, extent));
    lowering
        .builder
        .statement(Statement::Switch { selector, cases }, extent);
}

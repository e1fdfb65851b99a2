// The steps of expressions.

use crate::calls::lower_call;
use ir_kinds::Literal;
use wgsl_access::{address_of, deref, index, member};
use wgsl_expressions::{Lowering, Operand, Value};
use wgsl_tree::{Part, Step, StepKind};
use wgsl_types::Builder;

// A numeric literal.
fn literal<B: Builder>(lowering: &mut Lowering<B>, place: u32, token: u32) {
    let extent = lowering.extent(token);
    let literal = lowering.tree.literals.get(place as usize).copied();
    let literal = literal.unwrap_or(Literal::Bool(false));
    lowering.check_scalar(Some(literal.scalar()), extent);
    let value = Value::Literal(literal);
    lowering.push(Operand { value, extent });
}

// A parenthesized expression.
fn group<B: Builder>(lowering: &mut Lowering<B>, open: u32, token: u32) {
    let operand = lowering.pop();
    let extent = lowering.extent(open).until(lowering.extent(token));
    lowering.push(Operand {
        value: operand.value,
        extent,
    });
}

/// Lowers a step if it belongs to expressions; returns whether it does.
pub fn lower_step<B: Builder>(lowering: &mut Lowering<B>, step: Step) -> bool {
    if lowering.skip(step) {
        return true;
    }
    let token = step.token;
    match step.kind {
        StepKind::Literal(place) => literal(lowering, place, token),
        StepKind::Bool(value) => {
            let extent = lowering.extent(token);
            let value = Value::Literal(Literal::Bool(value));
            lowering.push(Operand { value, extent });
        }
        StepKind::Name(name) => lowering.name(name, token),
        StepKind::Template(count) => lowering.template(count, token),
        StepKind::Call(count) => lower_call(lowering, count, false, token),
        StepKind::Group(open) => group(lowering, open, token),
        _ => return operation(lowering, step),
    }
    true
}

// Lowers a step if it is an operation; returns whether it is.
fn operation<B: Builder>(lowering: &mut Lowering<B>, step: Step) -> bool {
    let token = step.token;
    match step.kind {
        StepKind::Index => index(lowering, token),
        StepKind::Member(name) => member(lowering, name, token),
        StepKind::Unary(operator) => lowering.unary(operator, token),
        StepKind::Deref => deref(lowering, token),
        StepKind::AddressOf => address_of(lowering, token),
        StepKind::Binary(operator) => lowering.binary(operator),
        StepKind::Between(or) => lowering.between(or, token),
        StepKind::Logical(or) => lowering.logical(or),
        _ => return false,
    }
    true
}

/// Lowers the steps of expressions; their operands stay on the stack.
pub fn lower_steps<B: Builder>(lowering: &mut Lowering<B>, part: Part) {
    for place in part.start..part.end {
        if lowering.has_failed() {
            break;
        }
        if let Some(next) = lowering.step_at(place) {
            lower_step(lowering, next);
        }
    }
}

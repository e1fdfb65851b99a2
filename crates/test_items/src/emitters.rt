// Ranges of what was appended.
ghost use Rattle.std.specs.Prelude.{◌≡◌, ◌+◌, OnOk, length};

use ir_arena::arena::Arena;
use ir_arena::span::Span;
use ir_items::{Emitter, Expression, Statement, key};
use ir_kinds::Literal;
use serde_json::Value;
use std::alloc::{AllocError, Global};
use std::ops;
use test_support::call::{freeing, list, span, told};

type Expressions = Arena<Expression, key::Expression>;

fn append(arena: &mut Expressions, span: Span) -> Result<(), AllocError>
    ensures { OnOk result (length arena.new ≡ length arena.old + 1) }
{
    arena.append(Expression::Literal(Literal::U32(1)), span)?;
    Ok(())
}

// Appends an expression for each span.
fn append_all(arena: &mut Expressions, spans: &[Value]) -> Result<(), AllocError> {
    for pair in spans {
        append(arena, span(pair, 0))?;
    }
    Ok(())
}

type Emitted = Option<(ops::Range<u32>, Span)>;

fn range_of(statement: &Statement, span: Span) -> Emitted {
    match statement {
        Statement::Emit(range) => Some((range.index_range(), span)),
        _ => None,
    }
}

// The range of an emitter that ran while these were appended, and whether it was running before, during and after.
fn emitted(
    arena: &mut Expressions,
    spans: &[Value],
) -> Result<((bool, bool, bool), Emitted), AllocError> {
    let mut emitter = Emitter::new();
    let before = emitter.is_running();
    emitter.start(arena);
    let meanwhile = emitter.is_running();
    let length = arena.len();
    append_all(arena, spans)?;
    if arena.len() < length {
        return Ok(((before, meanwhile, true), None));
    }
    let emitted = match emitter.finish(arena) {
        Some((statement, span)) => range_of(&statement, span),
        None => None,
    };
    Ok(((before, meanwhile, emitter.is_running()), emitted))
}

// The same for an arena that first gets the expressions with the first spans.
fn of_arena(alloc: Global, arena: &mut Expressions, call: &Value) -> Result<String, AllocError> {
    append_all(arena, list(call, 1))?;
    told(alloc, emitted(arena, list(call, 2)))
}

/// The emitted range of the expressions with the second spans, after those with the first.
pub fn of_emitter(alloc: Global, call: &Value) -> Result<String, AllocError> {
    let mut arena = Arena::new(alloc);
    freeing(of_arena(alloc, &mut arena, call), arena)
}

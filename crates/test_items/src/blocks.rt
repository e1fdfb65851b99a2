// Calls on a block of statements, where those from some index on only compute, each with its own span or none.
ghost use Rattle.std.specs.Prelude.{◌≤◌, length};
ghost use Rattle.ir_blocks.specs.found.View.{statements_of};

use ir_arena::range::Range;
use ir_arena::span::Span;
use ir_items::{Block, Statement};
use serde_json::Value;
use std::alloc::{AllocError, Global};
use test_support::call::{completed, freeing, list, number, text, told};

fn emit(place: u32) -> Statement {
    Statement::Emit(Range::new(place, 50))
}

// The span of the statement with this number; the first has none.
fn span(place: u32) -> Span {
    if place == 0 {
        return Span::UNDEFINED;
    }
    Span::new(place, 90)
}

// The number of a value.
fn place(value: &Value) -> u32 {
    value.as_u64().unwrap_or(0).min(50) as u32
}

// Appends the statements with these numbers to a block, one by one.
fn push(block: &mut Block, places: &[Value]) -> Result<(), AllocError> {
    for value in places {
        let place = place(value);
        block.push(emit(place), span(place))?;
    }
    Ok(())
}

// The block with these numbers.
fn block(alloc: Global, places: &[Value]) -> Result<Block, AllocError> {
    let mut block = Block::new(alloc);
    completed(push(&mut block, places), block)
}

// Of a statement and its span: the first number where it computes, and the span.
fn shown(statement: &Statement, span: Span) -> (Option<u32>, Span) {
    match statement {
        Statement::Emit(range) => (Some(range.index_range().start), span),
        _ => (None, span),
    }
}

type Shown = Vec<(Option<u32>, Span)>;

// The contents of a block, and the number of statements and spans.
fn seen(alloc: Global, block: &Block) -> Result<(usize, usize, Shown), AllocError> {
    let mut entries = Vec::new(alloc);
    for (statement, span) in block.span_iter() {
        entries.push(shown(statement, *span))?;
    }
    Ok((block.len(), entries.len(), entries))
}

// Inserts the statements with these numbers by one call each, and then none.
fn extend(subject: &mut Block, places: &[Value]) -> Result<bool, AllocError> {
    for value in places {
        let place = place(value);
        subject.extend(Some((emit(place), span(place))))?;
    }
    subject.extend(None)?;
    Ok(true)
}

// Whether a call succeeded: it does if memory suffices.
fn made(answer: Result<(), AllocError>) -> Result<bool, AllocError> {
    match answer {
        Ok(()) => Ok(true),
        Err(error) => Err(error),
    }
}

// Appends the statements with these numbers, moved from another block. Returns whether that one is empty.
fn append_from(
    subject: &mut Block,
    other: &mut Block,
    places: &[Value],
) -> Result<bool, AllocError> {
    push(other, places)?;
    subject.append(other)?;
    Ok(other.is_empty() && other.span_iter().next().is_none())
}

fn append(alloc: Global, subject: &mut Block, places: &[Value]) -> Result<bool, AllocError> {
    let mut other = Block::new(alloc);
    freeing(append_from(subject, &mut other, places), other)
}

fn extend_block(alloc: Global, subject: &mut Block, places: &[Value]) -> Result<bool, AllocError> {
    let other = block(alloc, places)?;
    made(subject.extend_block(other))
}

// Culls the statements of the range after its form in a line, if the block has them.
fn cull(subject: &mut Block, call: &Value) -> bool {
    let (start, end) = (number(call, 4) as usize, number(call, 5) as usize);
    if start > end || end >= subject.len() {
        return false;
    }
    match text(call, 3) {
        "from_to" => subject.cull(start..end),
        "from_through" => subject.cull(start..=end),
        "to" => subject.cull(..end),
        _ => subject.cull(..),
    }
    true
}

// Replaces a range of the block by another block.
fn spliced(
    subject: &mut Block,
    form: &str,
    start: usize,
    end: usize,
    other: Block,
) -> Result<(), AllocError>
    requires order { start ≤ end }
    requires range { end ≤ length (statements_of subject.old) }
{
    match form {
        "from_to" => subject.splice(start..end, other),
        "from" => subject.splice(start.., other),
        "through" if end < subject.len() => subject.splice(..=end, other),
        _ => subject.splice(.., other),
    }
}

// Replaces the range after its form in a line by another block, if the block has it.
fn splice(alloc: Global, subject: &mut Block, call: &Value) -> Result<bool, AllocError> {
    let (start, end) = (number(call, 4) as usize, number(call, 5) as usize);
    if start > end || end > subject.len() {
        return Ok(false);
    }
    let other = block(alloc, list(call, 6))?;
    made(spliced(subject, text(call, 3), start, end, other))
}

// Sets the second statement to `Kill` with another span. Returns whether there is one.
fn change(subject: &mut Block) -> Result<bool, AllocError> {
    let mut is_changed = false;
    for (statement, mark) in subject.span_iter_mut()? {
        if *statement == emit(2) {
            *statement = Statement::Kill;
            *mark = span(8);
            is_changed = true;
        }
    }
    Ok(is_changed)
}

// Sets all statements to `Break`, and returns whether they are.
fn change_all(subject: &mut Block) -> bool {
    for statement in subject.as_mut_slice() {
        *statement = Statement::Break;
    }
    subject
        .as_slice()
        .iter()
        .all(|statement| *statement == Statement::Break)
}

// Makes the call of a line. Returns its result, or whether it succeeded.
fn called(alloc: Global, subject: &mut Block, call: &Value) -> Result<bool, AllocError> {
    match text(call, 1) {
        "extend" => extend(subject, list(call, 3)),
        "append" => append(alloc, subject, list(call, 3)),
        "extend_block" => extend_block(alloc, subject, list(call, 3)),
        "cull" => Ok(cull(subject, call)),
        "splice" => splice(alloc, subject, call),
        "span_iter_mut" => change(subject),
        "as_mut_slice" => Ok(change_all(subject)),
        _ => Ok(false),
    }
}

// The result of a call on a block built for it, and the block's contents afterwards.
fn of_subject(alloc: Global, subject: &mut Block, call: &Value) -> Result<String, AllocError> {
    if text(call, 1) == "extend_block" {
        *subject = Block::with_capacity(alloc, 2)?;
    }
    push(subject, list(call, 2))?;
    let is_made = called(alloc, subject, call)?;
    told(alloc, (is_made, seen(alloc, subject)))
}

/// The result of a call on a block, and its contents afterwards.
pub fn of_block(alloc: Global, call: &Value) -> Result<String, AllocError> {
    let mut subject = Block::new(alloc);
    freeing(of_subject(alloc, &mut subject, call), subject)
}

// Appends the statements with these numbers to a list, followed by `Kill`.
fn add_statements(statements: &mut Vec<Statement>, places: &[Value]) -> Result<(), AllocError> {
    for value in places {
        statements.push(emit(place(value)))?;
    }
    statements.push(Statement::Kill)?;
    Ok(())
}

// The statements with these numbers, followed by `Kill`.
fn statements(alloc: Global, places: &[Value]) -> Result<Vec<Statement>, AllocError> {
    let mut statements = Vec::new(alloc);
    completed(add_statements(&mut statements, places), statements)
}

/// The contents of a block built from statements without spans.
pub fn of_statements(alloc: Global, call: &Value) -> Result<String, AllocError> {
    let subject = Block::from_vec(statements(alloc, list(call, 1))?);
    freeing(told(alloc, seen(alloc, &subject)), subject)
}

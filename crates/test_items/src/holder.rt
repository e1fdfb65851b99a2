// Items that contain others with spans.
use crate::item::{Item, read_at};
use ir_arena::arena::Arena;
use ir_arena::span::Span;
use ir_items::{Block, EntryPoint, Function, Module};
use serde_json::Value;
use std::alloc::{AllocError, Global};
use test_support::call::{completed, freeing, list, no_call, span, text, told};

/// An item to which others are added, each with a span that no document has.
pub trait Holder: Item {
    /// Adds the part that a line gives: a word, the item, and the start and end of its span.
    fn add(&mut self, alloc: Global, part: &Value) -> Result<(), AllocError>;

    /// Appends the spans of its contents to a list.
    fn tell_spans(&self, spans: &mut Vec<Span>) -> Result<(), AllocError>;
}

// Adds these parts to an item.
fn add_all<T: Holder>(alloc: Global, holder: &mut T, parts: &[Value]) -> Result<(), AllocError> {
    for part in parts {
        holder.add(alloc, part)?;
    }
    Ok(())
}

// An item with these parts.
fn filled<T: Holder>(alloc: Global, holder: T, parts: &[Value]) -> Result<Option<T>, AllocError> {
    let mut holder = holder;
    Ok(Some(completed(add_all(alloc, &mut holder, parts), holder)?))
}

// The item of a line with what is added to it.
fn read_with_parts<T: Holder>(
    alloc: Global,
    call: &Value,
    place: usize,
) -> Result<Option<T>, AllocError> {
    match read_at::<T>(alloc, call, place)? {
        Some(holder) => filled(alloc, holder, list(call, place.saturating_add(1))),
        None => Ok(None),
    }
}

fn spans_of<T: Holder>(alloc: Global, holder: &T) -> Result<Vec<Span>, AllocError> {
    let mut spans = Vec::new(alloc);
    holder.tell_spans(&mut spans)?;
    Ok(spans)
}

fn equals<T: Holder>(copy: &T, other: &Option<T>) -> Option<bool> {
    match other {
        Some(other) => Some(*copy == *other),
        None => None,
    }
}

// The report on an item and a copy of it, beside another one.
fn of_copy<T: Holder>(
    alloc: Global,
    source: &T,
    copy: &T,
    other: &Option<T>,
) -> Result<String, AllocError> {
    let spans = spans_of(alloc, copy)?;
    told(alloc, (*copy == *source, equals(copy, other), spans))
}

// The same beside the one of a line.
fn of_other<T: Holder>(
    alloc: Global,
    source: &T,
    copy: &T,
    call: &Value,
) -> Result<String, AllocError> {
    let other: Option<T> = read_with_parts(alloc, call, 3)?;
    freeing(of_copy(alloc, source, copy, &other), other)
}

// The same for an item and a copy of it.
fn of_source<T: Holder>(alloc: Global, source: &T, call: &Value) -> Result<String, AllocError> {
    let copy = source.copy(alloc)?;
    freeing(of_other(alloc, source, &copy, call), copy)
}

/// The report on an item copied with all that was added to it, and on another one.
pub fn compared<T: Holder>(alloc: Global, call: &Value) -> Result<String, AllocError> {
    match read_with_parts::<T>(alloc, call, 1)? {
        Some(source) => freeing(of_source(alloc, &source, call), source),
        None => no_call(alloc),
    }
}

// Appends the statements of a body to a block, each with this span.
fn push_all(block: &mut Block, body: Block, span: Span) -> Result<(), AllocError> {
    for (statement, _) in body.span_into_iter() {
        block.push(statement, span)?;
    }
    Ok(())
}

impl Holder for Block {
    // Each statement of a body is added with the same span.
    fn add(&mut self, alloc: Global, part: &Value) -> Result<(), AllocError> {
        match read_at::<Block>(alloc, part, 1)? {
            Some(body) => push_all(self, body, span(part, 2)),
            None => Ok(()),
        }
    }

    fn tell_spans(&self, spans: &mut Vec<Span>) -> Result<(), AllocError> {
        for (_, span) in self.span_iter() {
            spans.push(*span)?;
        }
        Ok(())
    }
}

// Adds an item to an arena.
fn append<T: Item, K>(
    alloc: Global,
    arena: &mut Arena<T, K>,
    part: &Value,
) -> Result<(), AllocError> {
    if let Some(value) = read_at(alloc, part, 1)? {
        arena.append(value, span(part, 2))?;
    }
    Ok(())
}

fn tell_arena<T, K>(arena: &Arena<T, K>, spans: &mut Vec<Span>) -> Result<(), AllocError> {
    for (handle, _) in arena.iter() {
        spans.push(arena.get_span(handle))?;
    }
    Ok(())
}

impl Holder for Function {
    fn add(&mut self, alloc: Global, part: &Value) -> Result<(), AllocError> {
        match text(part, 0) {
            "local" => append(alloc, &mut self.local_variables, part),
            "expression" => append(alloc, &mut self.expressions, part),
            _ => self.body.add(alloc, part),
        }
    }

    fn tell_spans(&self, spans: &mut Vec<Span>) -> Result<(), AllocError> {
        tell_arena(&self.local_variables, spans)?;
        tell_arena(&self.expressions, spans)?;
        self.body.tell_spans(spans)
    }
}

impl Holder for EntryPoint {
    fn add(&mut self, alloc: Global, part: &Value) -> Result<(), AllocError> {
        self.function.add(alloc, part)
    }

    fn tell_spans(&self, spans: &mut Vec<Span>) -> Result<(), AllocError> {
        self.function.tell_spans(spans)
    }
}

impl Holder for Module {
    fn add(&mut self, alloc: Global, part: &Value) -> Result<(), AllocError> {
        match text(part, 0) {
            "type" => {
                if let Some(value) = read_at(alloc, part, 1)? {
                    self.types.insert(value, span(part, 2))?;
                }
                Ok(())
            }
            "constant" => append(alloc, &mut self.constants, part),
            _ => append(alloc, &mut self.functions, part),
        }
    }

    fn tell_spans(&self, spans: &mut Vec<Span>) -> Result<(), AllocError> {
        for (handle, _) in self.types.iter() {
            spans.push(self.types.get_span(handle))?;
        }
        tell_arena(&self.constants, spans)?;
        tell_arena(&self.functions, spans)
    }
}

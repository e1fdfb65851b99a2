// Spans, and numbers below the maximum.
use ir_arena::handle::NonMaxU32;
use ir_arena::span::Span;
use serde_json::Value;
use std::alloc::{AllocError, Global};
use test_support::call::{list, no_call, number, span, text, told};

fn joined(mut left: Span, right: Span) -> Span {
    left.subsume(right);
    left
}

// The span that covers those of a list.
fn total(list: &[Value]) -> Span {
    Span::total_span(list.iter().map(|pair| span(pair, 0)))
}

/// The result of a call on a span.
pub fn of_span(alloc: Global, call: &Value) -> Result<String, AllocError> {
    let left = span(call, 2);
    let right = span(call, 4);
    match text(call, 1) {
        "default" => told(alloc, (Span::default(), Span::UNDEFINED)),
        "is_defined" => told(alloc, left.is_defined()),
        "subsume" => told(alloc, joined(left, right)),
        "until" => told(alloc, left.until(&right)),
        "to_range" => told(alloc, left.to_range()),
        "total_span" => told(alloc, total(list(call, 2))),
        _ => no_call(alloc),
    }
}

// The sum of two numbers, if both and it are below the maximum.
fn sum(left: u32, right: u32) -> Option<u32> {
    let sum = NonMaxU32::new(left)?.checked_add(right)?;
    Some(sum.get())
}

fn kept(number: u32) -> Option<u32> {
    Some(NonMaxU32::new(number)?.get())
}

/// The result of a call on a number below the maximum.
pub fn of_number(alloc: Global, call: &Value) -> Result<String, AllocError> {
    let left = number(call, 2);
    match text(call, 1) {
        "new" => told(alloc, kept(left)),
        "checked_add" => told(alloc, sum(left, number(call, 3))),
        _ => no_call(alloc),
    }
}

//! A call as a line of test input: a list of words, numbers and lists. A missing part counts as empty or as 0.

use document_forms::{Form, ReadError};
use ir_arena::handle::Handle;
use ir_arena::range::Range;
use ir_arena::span::Span;
use serde_json::Value;
use std::alloc::{AllocError, Global};
use std::fmt::Debug;

/// The string at an index.
pub fn text(call: &Value, place: usize) -> &str {
    match call.get(place) {
        Some(item) => item.as_str().unwrap_or(""),
        None => "",
    }
}

/// The items of the list at an index.
pub fn list(call: &Value, place: usize) -> &[Value] {
    match call.get(place) {
        Some(item) => items(item),
        None => &[],
    }
}

/// The items of a list.
pub fn items(list: &Value) -> &[Value] {
    match list.as_array() {
        Some(items) => items.as_slice(),
        None => &[],
    }
}

/// The number at an index, capped at the maximum.
pub fn number(call: &Value, place: usize) -> u32 {
    match call.get(place) {
        Some(item) => item.as_u64().unwrap_or(0).min(4294967295) as u32,
        None => 0,
    }
}

/// The handle of the number at an index, or the last handle if it is greater.
pub fn handle<K>(call: &Value, place: usize) -> Handle<K> {
    Handle::at(number(call, place).min(4294967294) as usize)
}

/// The span whose start is at an index and whose end follows it.
pub fn span(call: &Value, place: usize) -> Span {
    Span::new(number(call, place), number(call, place.saturating_add(1)))
}

/// The range whose first handle is at an index and whose last follows it.
pub fn range<K>(call: &Value, place: usize) -> Range<K> {
    Range::new(number(call, place), number(call, place.saturating_add(1)))
}

/// A result, after the value it was computed from is freed: one call, which is cheaper to prove than a drop on every way out.
pub fn freeing<A, T: Drop>(answer: A, value: T) -> A {
    drop(value);
    answer
}

/// A value, or the error of an operation on it, after which the value is freed.
pub fn completed<T: Drop>(done: Result<(), AllocError>, value: T) -> Result<T, AllocError> {
    match done {
        Ok(()) => Ok(value),
        Err(error) => {
            drop(value);
            Err(error)
        }
    }
}

/// Appends a string, unless memory runs out.
pub fn push(text: &mut String, piece: Result<String, AllocError>) -> Result<(), AllocError> {
    match piece {
        Ok(piece) => freeing(text.push_str(&piece), piece),
        Err(error) => Err(error),
    }
}

/// The printed result of a call.
pub fn told<A: Debug + Drop>(alloc: Global, answer: A) -> Result<String, AllocError> {
    format!(in alloc; "{answer:?}")
}

/// The printed result of an unknown call.
pub fn no_call(alloc: Global) -> Result<String, AllocError> {
    String::from_str(alloc, "no such call")
}

/// The item in this form, or `None` if the value has another form.
pub fn found<F: Form>(alloc: Global, value: &Value) -> Result<Option<F::Item>, AllocError> {
    match F::read(alloc, value) {
        Ok(item) => Ok(Some(item)),
        Err(ReadError::Memory) => Err(AllocError),
        Err(ReadError::Malformed { .. }) => Ok(None),
    }
}

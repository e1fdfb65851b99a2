// The report on an item of a line: on its copy, beside it and beside another one.
use crate::item::{Item, read_at};
use serde_json::Value;
use std::alloc::{AllocError, Global};
use test_support::call::{freeing, no_call};

/// An item that a line has a question about.
pub trait Told: Item {
    /// The report on a copy of an item, which may be changed.
    fn tell(
        &mut self,
        alloc: Global,
        source: &Self,
        other: &Option<Self>,
        call: &Value,
    ) -> Result<String, AllocError>;
}

// The report on an item, and on another one.
fn of_copy<T: Told>(
    alloc: Global,
    source: &T,
    other: &Option<T>,
    call: &Value,
) -> Result<String, AllocError> {
    let mut copy = source.copy(alloc)?;
    freeing(copy.tell(alloc, source, other, call), copy)
}

// The report on an item, and on the one after it.
fn of_source<T: Told>(alloc: Global, source: &T, call: &Value) -> Result<String, AllocError> {
    let other: Option<T> = read_at(alloc, call, 2)?;
    freeing(of_copy(alloc, source, &other, call), other)
}

/// The report on the item after a call's name. It is freed here, where its type is a parameter.
pub fn of_item<T: Told>(alloc: Global, call: &Value) -> Result<String, AllocError> {
    match read_at::<T>(alloc, call, 1)? {
        Some(source) => freeing(of_source(alloc, &source, call), source),
        None => no_call(alloc),
    }
}

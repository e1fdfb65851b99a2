// Handles and ranges of handles.
use crate::item::Tag;
use ir_arena::handle::{BadHandle, Handle, Kind, NonMaxU32};
use ir_arena::range::{BadRangeError, Range};
use serde_json::Value;
use std::alloc::{AllocError, Global};
use std::ops;
use test_support::call::{handle, no_call, number, range, text, told};

// The index of the handle for a number.
fn place_of_new<K>(index: u32) -> Option<usize> {
    let handle: Handle<K> = Handle::new(NonMaxU32::new(index)?);
    Some(handle.index())
}

fn place_of_clone<K>(handle: Handle<K>) -> Option<usize> {
    match handle.clone() {
        Ok(copy) => Some(copy.index()),
        Err(_) => None,
    }
}

/// The result of a call on a handle.
pub fn of_handle<K: Kind>(alloc: Global, call: &Value) -> Result<String, AllocError> {
    let left: Handle<K> = handle(call, 3);
    let right = handle(call, 4);
    match text(call, 2) {
        "new" => told(alloc, place_of_new::<K>(number(call, 3))),
        "at" => told(alloc, left.index()),
        "clone" => told(alloc, place_of_clone(left)),
        "equal" => told(alloc, left == right),
        "less" => told(alloc, left < right),
        "bad" => told(alloc, BadHandle::new(left)),
        "bad_text" => format!(in alloc; "{}", BadHandle::new(left)),
        _ => no_call(alloc),
    }
}

// The indices of the handles after this many steps.
fn steps<K>(
    alloc: Global,
    mut range: Range<K>,
    count: u32,
) -> Result<Vec<Option<usize>>, AllocError> {
    let mut places = Vec::new(alloc);
    for _ in 0..count {
        places.push(place_of(range.next()))?;
    }
    Ok(places)
}

// The number of handles of a range.
fn counted<K>(range: Range<K>) -> usize {
    let mut count = 0usize;
    for _ in range {
        count = count.wrapping_add(1);
    }
    count
}

fn place_of<K>(handle: Option<Handle<K>>) -> Option<usize> {
    Some(handle?.index())
}

fn first_and_last<K>(range: &Range<K>) -> Option<(usize, usize)> {
    let (first, last) = range.first_and_last()?;
    Some((first.index(), last.index()))
}

// Whether a clone of a range equals it.
fn is_cloned<K>(range: Range<K>) -> Result<bool, AllocError> {
    Ok(range.clone()? == range)
}

// The rest of a copy of a range after some steps.
fn gone_on(range: &Range<Tag>) -> ops::Range<u32> {
    let mut copy = *range;
    copy.next();
    copy.index_range()
}

/// The result of a call on a range.
pub fn of_range<K: Kind>(alloc: Global, call: &Value) -> Result<String, AllocError> {
    let range: Range<K> = range(call, 3);
    match text(call, 2) {
        "next" => told(alloc, steps(alloc, range, number(call, 5))),
        "clone" => told(alloc, is_cloned(range)),
        "new_from_bounds" => told(alloc, bounded::<K>(call)),
        "first_and_last" => told(alloc, first_and_last(&range)),
        "index_range" => told(alloc, range.index_range()),
        "count" => told(alloc, counted(range)),
        "last" => told(alloc, place_of(range.last())),
        "bad" => told(alloc, told_range(&BadRangeError::new(range))),
        "bad_text" => format!(in alloc; "{}", BadRangeError::new(range)),
        "bad_equal" => told(alloc, is_bad_alike(range)),
        _ => no_call(alloc),
    }
}

/// The rest of a copy of a range after some steps, and the range.
pub fn of_copy(alloc: Global, call: &Value) -> Result<String, AllocError> {
    let range: Range<Tag> = range(call, 1);
    told(alloc, (gone_on(&range), range.index_range()))
}

// The range from one handle to another.
fn bounded<K>(call: &Value) -> ops::Range<u32> {
    let range: Range<K> = Range::new_from_bounds(handle(call, 3), handle(call, 4));
    range.index_range()
}

// The fields of the error of a range.
fn told_range(error: &BadRangeError) -> (&'static str, ops::Range<u32>) {
    (error.kind, error.range.index_range())
}

// Whether the error of a range equals that of the range's indices.
fn is_bad_alike<K: Kind>(range: Range<K>) -> bool {
    let places = range.index_range();
    BadRangeError::new(range)
        == BadRangeError {
            kind: K::word(),
            range: Range::new(places.start, places.end),
        }
}

// Arenas, each beside another for comparison.
ghost use Rattle.std.specs.Prelude.{◌≡◌, ◌<◌, length};
ghost use Rattle.ir_arena.specs.found.Arenas.{with_value};

use crate::item::Item;
use ir_arena::arena::Arena;
use ir_arena::handle::{Handle, Kind};
use ir_arena::range::Range;
use ir_arena::span::Span;
use serde_json::Value;
use std::alloc::{AllocError, Global};
use std::{mem, ops};
use test_support::call::{handle, no_call, number, range, span, text, told};

/// Two arenas. Calls are made on the first.
#[derive(Drop)]
pub struct Arenas<T, K> {
    pub first: Arena<T, K>,
    second: Arena<T, K>,
}

impl<T: Item, K: Kind> Arenas<T, K> {
    /// Two empty arenas.
    pub fn new(alloc: Global) -> Self {
        Arenas {
            first: Arena::new(alloc),
            second: Arena::new(alloc),
        }
    }

    /// The result of a call on an arena.
    pub fn answer(&mut self, alloc: Global, call: &Value) -> Result<String, AllocError> {
        match text(call, 2) {
            "compare" => told(alloc, self.first == self.second),
            "swap" => told(alloc, mem::swap(&mut self.first, &mut self.second)),
            "into_inner" => told(alloc, values_of(alloc, &mut self.first)),
            "append" => told(alloc, added(alloc, &mut self.first, call)),
            "put" => told(alloc, changed(alloc, &mut self.first, call)),
            "add" => told(alloc, added_to(&mut self.first, number(call, 3) as usize)),
            "mark_each" => told(alloc, mark_each(&mut self.first)),
            "retain_mut" => told(alloc, retain(&mut self.first)),
            "drain" => told(alloc, entries(alloc, &mut self.first)),
            _ => seen(alloc, &self.first, call),
        }
    }
}

// Adds a value with a span, in one of the ways, and returns its index.
fn added<T: Item, K>(
    alloc: Global,
    arena: &mut Arena<T, K>,
    call: &Value,
) -> Result<usize, AllocError> {
    let value: T = Item::read(alloc, call, 3)?;
    let span = span(call, 4);
    let handle = match text(call, 6) {
        "or_fetch" => arena.fetch_or_append(value, span),
        "or_greater" => arena.fetch_if_or_append(value, span, |old, new| old.size() > new.size()),
        "or_alike" => arena.fetch_if_or_append(value, span, |old, new| old.size() == new.size()),
        _ => arena.append(value, span),
    };
    Ok(handle?.index())
}

fn values_of<T: Item, K>(alloc: Global, arena: &mut Arena<T, K>) -> Vec<T> {
    mem::replace(arena, Arena::new(alloc)).into_inner()
}

// What a caller sees of a value that it changes.
fn put<T: Drop, K>(arena: &mut Arena<T, K>, handle: Handle<K>, value: T)
    requires { handle < length arena.old }
    ensures { arena.new ≡ with_value arena.old handle value }
{
    *arena.get_mut(handle) = value;
}

// Replaces the value at an index, and returns whether there is one.
fn changed<T: Item, K>(
    alloc: Global,
    arena: &mut Arena<T, K>,
    call: &Value,
) -> Result<bool, AllocError> {
    let place = number(call, 3) as usize;
    let value: T = Item::read(alloc, call, 4)?;
    if place >= arena.len() {
        return Ok(false);
    }
    put(arena, Handle::at(place), value);
    Ok(true)
}

// Adds to the value at an index, if there is one.
fn added_to<T: Item, K>(arena: &mut Arena<T, K>, place: usize) -> Result<bool, AllocError> {
    if place >= arena.len() {
        return Ok(false);
    }
    arena.get_mut(Handle::at(place)).add()?;
    Ok(true)
}

fn mark_each<T: Item, K>(arena: &mut Arena<T, K>) -> Result<(), AllocError> {
    for (handle, value) in arena.iter_mut() {
        value.mark(handle.index())?;
    }
    Ok(())
}

fn retain<T: Item, K>(arena: &mut Arena<T, K>) {
    arena.retain_mut(|handle, value| value.keep(handle.index()));
}

/// Values with their indices and spans.
pub type Entries<T> = Vec<(usize, T, Span)>;

// Whether the arena is empty once its values are drained, and the drained values.
fn entries<T: Item, K>(
    alloc: Global,
    arena: &mut Arena<T, K>,
) -> Result<(bool, Entries<T>), AllocError> {
    let taken = arena.drain();
    let is_emptied = arena.is_empty();
    let mut entries = Vec::new(alloc);
    for (handle, value, span) in taken {
        entries.push((handle.index(), value, span))?;
    }
    Ok((is_emptied, entries))
}

// The result of a call that changes nothing.
fn seen<T: Item, K: Kind>(
    alloc: Global,
    arena: &Arena<T, K>,
    call: &Value,
) -> Result<String, AllocError> {
    let handle = handle(call, 3);
    match text(call, 2) {
        "len" => told(alloc, (arena.len(), arena.is_empty())),
        "iter" => told(alloc, values(alloc, arena)),
        "try_get" => told(alloc, arena.try_get(handle)),
        "get_span" => told(alloc, arena.get_span(handle)),
        "check_contains_handle" => told(alloc, arena.check_contains_handle(handle)),
        "index" => told(alloc, indexed(arena, number(call, 3) as usize)),
        "fetch_above" => told(alloc, fetched_above(arena, number(call, 3) as usize)),
        "fetch_sized" => told(alloc, fetched_sized(arena, number(call, 3) as usize)),
        _ => ranged(alloc, arena, range(call, 3), text(call, 2)),
    }
}

// The index of the first greater value.
fn fetched_above<T: Item, K>(arena: &Arena<T, K>, size: usize) -> Option<usize> {
    Some(arena.fetch_if(|value| value.size() > size)?.index())
}

// The index of the first equal value.
fn fetched_sized<T: Item, K>(arena: &Arena<T, K>, size: usize) -> Option<usize> {
    Some(arena.fetch_if(|value| value.size() == size)?.index())
}

// The values with their indices.
fn values<T: Item, K>(alloc: Global, arena: &Arena<T, K>) -> Result<Vec<(usize, &T)>, AllocError> {
    let mut values = Vec::new(alloc);
    for (handle, value) in arena.iter() {
        values.push((handle.index(), value))?;
    }
    Ok(values)
}

fn indexed<T, K>(arena: &Arena<T, K>, place: usize) -> Option<&T> {
    if place < arena.len() {
        Some(&arena[Handle::at(place)])
    } else {
        None
    }
}

// The result of a call on a range of an arena.
fn ranged<T: Item, K: Kind>(
    alloc: Global,
    arena: &Arena<T, K>,
    range: Range<K>,
    call: &str,
) -> Result<String, AllocError> {
    match call {
        "check_contains_range" => told(alloc, checked(arena, &range)),
        "has_range" => told(alloc, arena.has_range(&range)),
        "from_index_range" => told(alloc, from_places(arena, &range)),
        "get_range" => told(alloc, values_within(arena, range)),
        "get_range_spans" => told(alloc, spans_within(arena, range)),
        _ => no_call(alloc),
    }
}

// The missing handles of a range, as its error.
fn checked<T, K: Kind>(arena: &Arena<T, K>, range: &Range<K>) -> Result<(), ops::Range<u32>> {
    match arena.check_contains_range(range) {
        Ok(()) => Ok(()),
        Err(bad) => Err(bad.range.index_range()),
    }
}

fn from_places<T, K>(arena: &Arena<T, K>, range: &Range<K>) -> bool {
    let places = range.index_range();
    if places.start <= places.end && places.end as usize <= arena.len() {
        Range::from_index_range(places, arena) == *range
    } else {
        false
    }
}

fn values_within<T, K>(arena: &Arena<T, K>, range: Range<K>) -> Option<&[T]> {
    let places = range.index_range();
    if places.start <= places.end && places.end as usize <= arena.len() {
        Some(arena.get_range(range))
    } else {
        None
    }
}

fn spans_within<T, K>(arena: &Arena<T, K>, range: Range<K>) -> Option<&[Span]> {
    let places = range.index_range();
    if places.start <= places.end && places.end as usize <= arena.len() {
        Some(arena.get_range_spans(range))
    } else {
        None
    }
}

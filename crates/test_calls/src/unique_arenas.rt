// Unique arenas, each beside another for comparison.
use crate::arenas::Entries;
use crate::item::Item;
use ir_arena::handle::{Handle, Kind};
use ir_sets::unique_arena::UniqueArena;
use serde_json::Value;
use std::alloc::{AllocError, Global};
use std::mem;
use test_support::call::{handle, no_call, number, span, text, told};

/// Two unique arenas. Calls are made on the first.
#[derive(Drop)]
pub struct UniqueArenas<T: Item, K> {
    pub first: UniqueArena<T, K>,
    second: UniqueArena<T, K>,
}

impl<T: Item, K: Kind> UniqueArenas<T, K> {
    /// Two empty arenas.
    pub fn new(alloc: Global) -> Self {
        UniqueArenas {
            first: UniqueArena::new(alloc),
            second: UniqueArena::new(alloc),
        }
    }

    /// The result of a call on a unique arena.
    pub fn answer(&mut self, alloc: Global, call: &Value) -> Result<String, AllocError> {
        match text(call, 2) {
            "compare" => told(alloc, self.first == self.second),
            "swap" => told(alloc, mem::swap(&mut self.first, &mut self.second)),
            "clear" => told(alloc, self.first.clear()),
            "take" => told(alloc, self.take()),
            "drain_all" => told(alloc, entries(alloc, &mut self.first)),
            "insert" => told(alloc, inserted(alloc, &mut self.first, call)),
            "replace" => told(alloc, replaced(alloc, &mut self.first, call)),
            _ => seen(alloc, &self.first, call),
        }
    }

    // Moves the first arena into the second. Returns whether it is then empty, and how many were moved.
    fn take(&mut self) -> (bool, usize) {
        self.second = self.first.take();
        (self.first.is_empty(), self.second.len())
    }
}

// Inserts a value with a span, and returns its index.
fn inserted<T: Item, K>(
    alloc: Global,
    arena: &mut UniqueArena<T, K>,
    call: &Value,
) -> Result<usize, AllocError> {
    let value: T = Item::read(alloc, call, 3)?;
    Ok(arena.insert(value, span(call, 4))?.index())
}

// Replaces a value by one that the arena lacks, and returns whether that is possible.
#[tactic(auto, using(ir_arena::proofs::Found::passes_nowhere))]
fn replaced<T: Item, K>(
    alloc: Global,
    arena: &mut UniqueArena<T, K>,
    call: &Value,
) -> Result<bool, AllocError> {
    let old = number(call, 3) as usize;
    let new: T = Item::read(alloc, call, 4)?;
    if old >= arena.len() {
        return Ok(false);
    }
    match arena.get(&new) {
        Some(_) => Ok(false),
        None => {
            arena.replace(Handle::at(old), new)?;
            Ok(true)
        }
    }
}

// Whether the arena is empty once its values are drained, and the drained values.
fn entries<T: Item, K>(
    alloc: Global,
    arena: &mut UniqueArena<T, K>,
) -> Result<(bool, Entries<T>), AllocError> {
    let taken = arena.drain_all();
    let is_emptied = arena.is_empty();
    let mut entries = Vec::new(alloc);
    for (handle, value, span) in taken {
        entries.push((handle.index(), value, span))?;
    }
    Ok((is_emptied, entries))
}

// The result of a call that changes nothing.
fn seen<T: Item, K: Kind>(
    alloc: Global,
    arena: &UniqueArena<T, K>,
    call: &Value,
) -> Result<String, AllocError> {
    let handle = handle(call, 3);
    match text(call, 2) {
        "len" => told(alloc, (arena.len(), arena.is_empty())),
        "iter" => told(alloc, values(alloc, arena)),
        "get" => told(alloc, place_of(alloc, arena, call)),
        "get_handle" => told(alloc, arena.get_handle(handle)),
        "get_span" => told(alloc, arena.get_span(handle)),
        "check_contains_handle" => told(alloc, arena.check_contains_handle(handle)),
        "index" => told(alloc, indexed(arena, number(call, 3) as usize)),
        _ => no_call(alloc),
    }
}

fn place_of<T: Item, K>(
    alloc: Global,
    arena: &UniqueArena<T, K>,
    call: &Value,
) -> Result<Option<usize>, AllocError> {
    let value: T = Item::read(alloc, call, 3)?;
    Ok(arena.get(&value).map(Handle::index))
}

// The values with their indices.
fn values<T: Item, K>(
    alloc: Global,
    arena: &UniqueArena<T, K>,
) -> Result<Vec<(usize, &T)>, AllocError> {
    let mut values = Vec::new(alloc);
    for (handle, value) in arena.iter() {
        values.push((handle.index(), value))?;
    }
    Ok(values)
}

fn indexed<T: Item, K>(arena: &UniqueArena<T, K>, place: usize) -> Option<&T> {
    if place < arena.len() {
        Some(&arena[Handle::at(place)])
    } else {
        None
    }
}

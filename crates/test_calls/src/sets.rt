// Sets of handles, and values by handle.
use crate::item::Item;
use ir_arena::arena::Arena;
use ir_arena::handle::Handle;
use ir_sets::handle_set::{ArenaType, HandleSet};
use ir_sets::handle_vec::HandleVec;
use serde_json::Value;
use std::alloc::{AllocError, Global};
use test_support::call::{handle, no_call, number, text, told};

/// The number of handles of an arena of either kind.
pub fn handle_count<K, A: ArenaType<K>>(arena: &A) -> usize {
    arena.len()
}

// The indices of the members, in order.
fn members<K>(alloc: Global, set: &HandleSet<K>) -> Result<Vec<usize>, AllocError> {
    let mut places = Vec::new(alloc);
    for handle in set.iter() {
        places.push(handle.index())?;
    }
    Ok(places)
}

// Inserts each handle of the arena.
fn insert_all<T, K>(set: &mut HandleSet<K>, arena: &Arena<T, K>) -> Result<(), AllocError> {
    for handle in HandleSet::all_possible(arena) {
        set.insert(handle)?;
    }
    Ok(())
}

// The number of handles that an iteration over a set gives.
fn counted<K>(set: &HandleSet<K>) -> usize {
    let mut count = 0usize;
    for _ in set.iter() {
        count = count.saturating_add(1);
    }
    count
}

/// The result of a call on a set, beside an arena with its handles.
pub fn of_set<T, K>(
    alloc: Global,
    set: &mut HandleSet<K>,
    arena: &Arena<T, K>,
    call: &Value,
) -> Result<String, AllocError> {
    let handle = handle(call, 3);
    match text(call, 2) {
        "len" => told(alloc, (set.len(), set.is_empty())),
        "iter" => told(alloc, (counted(set), members(alloc, set))),
        "contains" => told(alloc, set.contains(handle)),
        "insert" => told(alloc, set.insert(handle)),
        "remove" => told(alloc, set.remove(handle)),
        "pop" => told(alloc, set.pop().map(Handle::index)),
        "clear" => told(alloc, set.clear()),
        _ => of_arena(alloc, set, arena, text(call, 2)),
    }
}

// The result of a call that looks at the arena.
fn of_arena<T, K>(
    alloc: Global,
    set: &mut HandleSet<K>,
    arena: &Arena<T, K>,
    call: &str,
) -> Result<String, AllocError> {
    match call {
        "for_arena" => {
            *set = HandleSet::for_arena(alloc, arena);
            told(alloc, (set.len(), set.is_empty()))
        }
        "clear_for_arena" => told(alloc, set.clear_for_arena(arena)),
        "all_possible" => told(alloc, HandleSet::all_possible(arena).index_range()),
        "insert_all" => told(alloc, insert_all(set, arena)),
        _ => no_call(alloc),
    }
}

/// The result of a call on values by handle.
pub fn of_values<T: Item, K>(
    alloc: Global,
    values: &mut HandleVec<K, T>,
    call: &Value,
) -> Result<String, AllocError> {
    match text(call, 2) {
        "len" => told(alloc, (values.len(), values.is_empty())),
        "insert" => told(alloc, inserted(alloc, values, call)),
        "get" => told(alloc, values.get(handle(call, 3))),
        "index" => told(alloc, indexed(values, number(call, 3) as usize)),
        "clear" => told(alloc, values.clear()),
        _ => no_call(alloc),
    }
}

// Adds the value of the next handle, and returns whether it is that.
fn inserted<T: Item, K>(
    alloc: Global,
    values: &mut HandleVec<K, T>,
    call: &Value,
) -> Result<bool, AllocError> {
    let place = number(call, 3).min(4294967294) as usize;
    let value: T = Item::read(alloc, call, 4)?;
    if place != values.len() {
        return Ok(false);
    }
    values.insert(Handle::at(place), value)?;
    Ok(true)
}

fn indexed<T: Item, K>(values: &HandleVec<K, T>, place: usize) -> Option<&T> {
    if place < values.len() && place < 4294967295 {
        Some(&values[Handle::at(place)])
    } else {
        None
    }
}

// The subjects of all calls, for one type of values and one of handles.
use crate::arenas::Arenas;
use crate::item::Item;
use crate::unique_arenas::UniqueArenas;
use crate::{handles, sets};
use ir_arena::handle::Kind;
use ir_sets::handle_set::HandleSet;
use ir_sets::handle_vec::HandleVec;
use serde_json::Value;
use std::alloc::{AllocError, Global};
use test_support::call::{no_call, text, told};

/// Arenas, unique arenas, a set of handles and values by handle.
#[derive(Drop)]
pub struct Subject<T: Item, K> {
    arenas: Arenas<T, K>,
    unique_arenas: UniqueArenas<T, K>,
    set: HandleSet<K>,
    values: HandleVec<K, T>,
}

impl<T: Item, K: Kind> Subject<T, K> {
    /// All of them empty.
    pub fn new(alloc: Global) -> Self {
        Subject {
            arenas: Arenas::new(alloc),
            unique_arenas: UniqueArenas::new(alloc),
            set: HandleSet::new(alloc),
            values: HandleVec::new(alloc),
        }
    }

    /// The result of a call.
    pub fn answer(&mut self, alloc: Global, call: &Value) -> Result<String, AllocError> {
        match text(call, 1) {
            "arena" => self.arenas.answer(alloc, call),
            "unique_arena" => self.unique_arenas.answer(alloc, call),
            "set" => sets::of_set(alloc, &mut self.set, &self.arenas.first, call),
            "values" => sets::of_values(alloc, &mut self.values, call),
            "handle" => handles::of_handle::<K>(alloc, call),
            "range" => handles::of_range::<K>(alloc, call),
            "counts" => told(alloc, self.counts()),
            _ => no_call(alloc),
        }
    }

    // The number of handles of the two arenas.
    fn counts(&self) -> (usize, usize) {
        (
            sets::handle_count(&self.arenas.first),
            sets::handle_count(&self.unique_arenas.first),
        )
    }
}

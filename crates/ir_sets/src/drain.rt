//! The iterator that moves the values out of a unique arena.

ghost use Rattle.std.specs.Prelude.{◌≡◌, ◌≤◌, length};
ghost use Rattle.std.specs.List.{zip};
ghost use Rattle.ir_arena.specs.judged.Handles.{entries_from};

use crate::keyed::KeyedState;
use indexmap::{IndexSet, set};
use ir_arena::handle::Handle;
use ir_arena::span::Span;
use std::hash::Hash;
use std::marker::{Model, PhantomData};
use std::vec;

/// The values moved out of an arena, in order, each with the handle that it had there and
/// its span. In a contract it is the list of the remaining items.
///
/// It owns them, so the arena is empty as soon as it is drained.
#[derive(Drop)]
pub struct UniqueArenaDrain<T, K> {
    values: set::IntoIter<T>,
    spans: vec::IntoIter<Span>,
    place: usize,
    key: PhantomData<K>,
}

impl<T, K> Model for UniqueArenaDrain<T, K> {
    ghost use Rattle.std.specs.Prelude.{◌≡◌, ℕ, List, ◌≤◌, ◌+◌, length};
    ghost use Rattle.std.specs.List.{zip};
    ghost use Rattle.std.specs.Vec.Iter.{into_iter_items};
    ghost use Rattle.ir_arena.specs.declared.span.Span.{Span};
    ghost use Rattle.ir_arena.specs.judged.Handles.{entries_from};

    ghost Value = { List (ℕ × T × Span) };

    ghost view = { λ d. entries_from d.place (zip d.values (into_iter_items d.spans)) };

    ghost invariant = { λ d. (length (into_iter_items d.spans) ≡ length d.values) × (d.place + length d.values ≤ 4294967295) };
}

impl<T: Eq + Hash + Drop, K> UniqueArenaDrain<T, K> {
    // The iterator over these values and spans.
    pub(crate) fn new(values: IndexSet<T, KeyedState>, spans: Vec<Span>) -> Self
        requires even { length spans.items ≡ length values.keys }
        requires few { length values.keys ≤ 4294967295 }
        ensures { result ≡ entries_from 0 (zip values.keys spans.items) }
    {
        UniqueArenaDrain {
            values: values.into_iter(),
            spans: spans.into_iter(),
            place: 0,
            key: PhantomData,
        }
    }
}

impl<T: Drop, K> Iterator for UniqueArenaDrain<T, K> {
    ghost use Rattle.std.specs.Iterator.{YieldsFirst, item_count};

    type Item = (Handle<K>, T, Span);

    ghost next_gives = { YieldsFirst (λ d. d) };

    ghost remaining = { item_count (λ d. d) };

    fn next(&mut self) -> Option<(Handle<K>, T, Span)> {
        let span = self.spans.next()?;
        let value = self.values.next()?;
        let handle = Handle::at(self.place);
        self.place += 1;
        Some((handle, value, span))
    }
}

//! The iterator over an arena.

ghost use Rattle.std.specs.Prelude.{◌≡◌, ◌≤◌, length};
ghost use Rattle.std.specs.List.{enumerate_from};

use crate::handle::Handle;
use std::marker::{Model, PhantomData};

/// The values of an arena in order, each with its handle. In a contract it is the list of the
/// remaining items.
#[derive(Drop)]
pub struct Iter<'a, T, K> {
    values: &'a [T],
    place: usize,
    key: PhantomData<K>,
}

impl<'a, T, K> Model for Iter<'a, T, K> {
    ghost use Rattle.std.specs.Prelude.{ℕ, List, ◌≤◌, ◌+◌, length};
    ghost use Rattle.std.specs.List.{enumerate_from};

    ghost Value = { List (ℕ × T) };

    ghost view = { λ i. enumerate_from i.place i.values.now };

    ghost invariant = { λ i. i.place + length i.values.now ≤ 4294967295 };
}

impl<'a, T, K> Iter<'a, T, K> {
    /// An iterator over `values`, whose first has the handle 0.
    pub fn new(values: &'a [T]) -> Self
        requires { length values.now ≤ 4294967295 }
        ensures { result ≡ enumerate_from 0 values.now }
    {
        Iter {
            values,
            place: 0,
            key: PhantomData,
        }
    }
}

impl<'a, T, K> Iterator for Iter<'a, T, K> {
    ghost use Rattle.std.specs.Iterator.{YieldsFirstBy, item_count};
    ghost use Rattle.ir_arena.specs.judged.Handles.{handle_with_value};

    type Item = (Handle<K>, &'a T);

    ghost next_gives = { YieldsFirstBy handle_with_value (λ i. i) };

    ghost remaining = { item_count (λ i. i) };

    fn next(&mut self) -> Option<(Handle<K>, &'a T)> {
        let (first, rest) = self.values.split_first()?;
        let handle = Handle::at(self.place);
        self.values = rest;
        self.place += 1;
        Some((handle, first))
    }
}

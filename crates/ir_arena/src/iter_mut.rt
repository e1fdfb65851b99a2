//! The iterator over an arena with mutable references to the values.

ghost use Rattle.std.specs.Prelude.{◌≡◌, ◌≤◌, ◌+◌, length};
ghost use Rattle.std.specs.Slice.Iter.{iter_mut_rest};

use crate::handle::Handle;
use std::marker::PhantomData;
use std::slice;

/// The values of an arena in order, each with its handle, as mutable references.
#[derive(Drop)]
pub struct IterMut<'a, T, K> {
    values: slice::IterMut<'a, T>,
    place: usize,
    key: PhantomData<K>,
    ghost small: { place + length (iter_mut_rest values) ≤ 4294967295 },
}

impl<'a, T, K> IterMut<'a, T, K> {
    ghost use Rattle.std.specs.List.{enumerate_from};
    ghost use Rattle.ir_arena.specs.found.IterMut.{values_to_come, loan_name};

    /// An iterator over `values`, whose first has the handle 0.
    pub fn new(values: &'a mut [T]) -> Self
        requires { length values.old ≤ 4294967295 }
        ensures rest { values_to_come result ≡ enumerate_from 0 values.old }
        ensures name { loan_name result ≡ values.entry.ghost_name }
    {
        IterMut {
            values: values.iter_mut(),
            place: 0,
            key: PhantomData,
        }
    }
}

impl<'a, T, K> Iterator for IterMut<'a, T, K> {
    ghost use Rattle.std.specs.Iterator.{YieldsFirstBy, item_count};
    ghost use Rattle.ir_arena.specs.found.IterMut.{values_to_come, handle_with_value_to_change};

    type Item = (Handle<K>, &'a mut T);

    ghost next_gives = { YieldsFirstBy handle_with_value_to_change values_to_come };

    ghost remaining = { item_count values_to_come };

    fn next(&mut self) -> Option<(Handle<K>, &'a mut T)> {
        let value = self.values.next()?;
        let handle = Handle::at(self.place);
        self.place += 1;
        Some((handle, value))
    }
}

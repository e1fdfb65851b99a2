//! Ranges of consecutive handles, and the error of a range that is not in an arena.

ghost use Rattle.std.specs.Prelude.{◌≡◌, ◌<◌, ◌≤◌, ◌+◌, ◌-◌, ◌↔◌, IsSome, IfSome, length};

use crate::arena::Arena;
use crate::handle::{Handle, Kind};
use std::marker::{Model, PhantomData};
use std::ops;
use thiserror::Error;

/// The consecutive handles from a start, included, to an end, excluded. It is empty if the start
/// is not less than the end.
///
/// In a contract it is the pair of its start and its end, with no invariant: the
/// end may be less than the start, and the handles need not be in any arena
/// (see [`Arena::check_contains_range`]).
///
/// `T` is that of its handles. Iterating consumes a range, so that what is left is what has not
/// been yielded; a copy keeps the whole.
#[derive_where(Clone, Copy, PartialEq, Eq, Hash, Debug)]
pub struct Range<T> {
    first: u32,
    end: u32,
    marker: PhantomData<T>,
}

impl<T> Model for Range<T> {
    ghost use Rattle.std.specs.Prelude.{ℕ};

    ghost Value = { ℕ × ℕ };

    ghost view = { λ r. (r.first, r.end) };

    ghost inverse = { λ p. record { first = p.0; end = p.1; marker = record {} } };
}

impl<T> Range<T> {
    /// The handles from index `first`, included, to `end`, excluded. Naga makes such a range only
    /// if an arena has its handles.
    pub fn new(first: u32, end: u32) -> Self
        ensures { result ≡ (first, end) }
    {
        Range {
            first,
            end,
            marker: PhantomData,
        }
    }

    /// The handles from `first` to `last`, both included.
    pub fn new_from_bounds(first: Handle<T>, last: Handle<T>) -> Self
        ensures { result ≡ (first, last + 1) }
    {
        let first = first.index();
        let last = last.index();
        Range::new(first as u32, last as u32 + 1)
    }

    /// The first and the last handle, or `None` if the range is empty.
    pub fn first_and_last(&self) -> Option<(Handle<T>, Handle<T>)>
        ensures found { IsSome result ↔ (self.now.0 < self.now.1) }
        ensures value { IfSome result (λ bounds. bounds ≡ (self.now.0, self.now.1 - 1)) }
    {
        if self.first >= self.end {
            return None;
        }
        Some((
            Handle::at(self.first as usize),
            Handle::at(self.end as usize - 1),
        ))
    }

    /// The indices `start..end`.
    pub fn index_range(&self) -> ops::Range<u32>
        ensures start { result.start ≡ self.now.0 }
        ensures end { result.end ≡ self.now.1 }
    {
        self.first..self.end
    }

    /// The handles of the indices `inner`, which are in `arena`. Naga panics if they are not.
    pub fn from_index_range<U>(inner: ops::Range<u32>, arena: &Arena<U, T>) -> Self
        requires ordered { inner.start ≤ inner.end }
        requires in_bounds { inner.end ≤ length arena.now }
        ensures { result ≡ (inner.start, inner.end) }
    {
        Range::new(inner.start, inner.end)
    }
}

impl<T> Iterator for Range<T> {
    ghost use Rattle.std.specs.Iterator.{YieldsFirst, item_count};
    ghost use Rattle.ir_arena.specs.judged.Handles.{handles_between};

    type Item = Handle<T>;

    ghost next_gives = { YieldsFirst handles_between };

    ghost remaining = { item_count handles_between };

    fn next(&mut self) -> Option<Handle<T>> {
        if self.first < self.end {
            let handle = Handle::at(self.first as usize);
            self.first += 1;
            Some(handle)
        } else {
            None
        }
    }
}

/// The error of a range that is not in an arena. In naga `kind` is the type name of the values.
#[derive(Clone, Copy, PartialEq, Eq, Hash, Debug, Error)]
#[error("Handle range {first}..{end} of {kind} is either not present, or inaccessible yet", first = .range.first, end = .range.end)]
pub struct BadRangeError {
    /// The kind of the range's handles: the word of their [`Kind`].
    pub kind: &'static str,
    /// The range, with the type of its handles erased.
    pub range: Range<()>,
}

impl BadRangeError {
    /// The error of `range`.
    pub fn new<K: Kind>(range: Range<K>) -> Self
        ensures kind { result.kind.now ≡ K.word }
        ensures range { result.range ≡ range }
    {
        BadRangeError {
            kind: K::word(),
            range: Range::new(range.first, range.end),
        }
    }
}

//! Values and their spans, in two lists of equal length.

ghost use Rattle.std.specs.Prelude.{◌≡◌, ◌<◌, ◌++◌, [], ◌∷◌, Some, length, map, position, take, IfOk, IfSome, OnOk, OnErr};
ghost use Rattle.std.specs.Borrow.{sem};
ghost use Rattle.std.specs.List.{swap, zip};
ghost use Rattle.ir_arena.specs.found.Arenas.{value_of_entry, span_of_entry, value_at, span_at, found_at, with_value};
ghost use Rattle.ir_arena.specs.found.Lends.{LendsOne, LendsAll};

use crate::span::Span;
use std::alloc::{AllocError, Global};
use std::marker::Model;
use std::mem;

/// Values in order, each with its span. In a contract it is the list of the pairs.
#[derive(Drop)]
#[derive_where(Debug; T)]
pub struct Spanned<T> {
    values: Vec<T>,
    spans: Vec<Span>,
}

impl<T> Model for Spanned<T> {
    ghost use Rattle.std.specs.Prelude.{◌≡◌, List, length};
    ghost use Rattle.std.specs.List.{zip};
    ghost use Rattle.ir_arena.specs.declared.span.Span.{Span};

    ghost Value = { List (T × Span) };

    ghost view = { λ s. zip s.values.items s.spans.items };

    ghost invariant = { λ s. length s.spans.items ≡ length s.values.items };
}

impl<T: PartialEq> PartialEq for Spanned<T> {
    ghost use Rattle.ir_arena.specs.found.Equality.{same_entries, same_entries_per};

    ghost eq = { same_entries T.eq };

    ghost laws = { same_entries_per T.laws };

    fn eq(&self, other: &Self) -> bool {
        self.values == other.values && self.spans == other.spans
    }
}

impl<T> Spanned<T> {
    /// An empty list.
    pub fn new(alloc: Global) -> Self
        ensures { result ≡ [] }
    {
        Spanned {
            values: Vec::new(alloc),
            spans: Vec::new(alloc),
        }
    }

    /// An empty list with capacity. The error is out of memory.
    pub fn with_capacity(alloc: Global, count: usize) -> Result<Self, AllocError>
    where
        T: Drop,
        ensures { IfOk result (λ s. s ≡ []) }
    {
        Ok(Spanned {
            values: Vec::with_capacity(alloc, count)?,
            spans: Vec::with_capacity(alloc, count)?,
        })
    }

    /// The number of values.
    pub fn len(&self) -> usize
        ensures { result ≡ length self.now }
    {
        self.values.len()
    }

    /// The allocator of both lists.
    pub fn allocator(&self) -> Global {
        *self.values.allocator()
    }

    /// The values in order.
    pub fn values(&self) -> &[T]
        ensures { result.now ≡ map value_of_entry self.now }
    {
        self.values.as_slice()
    }

    /// The spans in order.
    pub fn spans(&self) -> &[Span]
        ensures { result.now ≡ map span_of_entry self.now }
    {
        self.spans.as_slice()
    }

    /// The value at an index.
    pub fn value(&self, place: usize) -> &T
        requires { place < length self.now }
        ensures { Some result.now ≡ value_at self.now place }
    {
        &self.values[place]
    }

    /// The span at an index, or [`Span::UNDEFINED`] if there is none.
    pub fn span(&self, place: usize) -> Span
        ensures { result ≡ span_at self.now place }
    {
        if place < self.spans.len() {
            return self.spans[place];
        }
        Span::UNDEFINED
    }

    /// The index of the first value that is equal to `value`.
    pub fn find(&self, value: &T) -> Option<usize>
    where
        T: PartialEq,
        ensures value { result ≡ found_at T.eq self.now value.now }
        ensures in_range { IfSome result (λ place. place < length self.now) }
    {
        first_equal(self.values.as_slice(), value)
    }

    /// Appends a value with its span. The error is out of memory, and leaves values and spans unchanged.
    pub fn push(&mut self, value: T, span: Span) -> Result<(), AllocError>
    where
        T: Drop,
        ensures ok { OnOk result (self.new ≡ self.old ++ (value, span) ∷ []) }
        ensures err { OnErr result (self.new ≡ self.old) }
    {
        self.spans.reserve(1)?;
        self.values.push(value)?;
        self.spans.push_reserved(span);
        Ok(())
    }

    /// Replaces a value; the span stays.
    pub fn replace(&mut self, place: usize, value: T)
    where
        T: Drop,
        requires { place < length self.old }
        ensures { self.new ≡ with_value self.old place value }
    {
        self.values[place] = value;
    }

    /// The value at an index, as a mutable reference.
    pub fn value_mut(&mut self, place: usize) -> &mut T
        requires { place < length self.old }
        ensures* writes_back { sem 𝓛 (LendsOne T.row self.entry place result) }
        ensures value { Some result.now ≡ value_at self.old place }
    {
        &mut self.values[place]
    }

    /// The values in order, as a mutable slice. The spans stay.
    pub fn values_mut(&mut self) -> &mut [T]
        ensures* writes_back { sem 𝓛 (LendsAll T.row self.entry result) }
        ensures value { result.now ≡ map value_of_entry self.old }
    {
        self.values.as_mut_slice()
    }

    /// Swaps two entries.
    pub fn swap(&mut self, left: usize, right: usize)
        requires left { left < length self.old }
        requires right { right < length self.old }
        ensures { self.new ≡ swap self.old left right }
    {
        self.values.swap(left, right);
        self.spans.swap(left, right);
    }

    /// Drops the entries from an index on.
    pub fn truncate(&mut self, count: usize)
    where
        T: Drop,
        ensures { self.new ≡ take count self.old }
    {
        self.values.truncate(count);
        self.spans.truncate(count);
    }

    /// Drops all entries. The capacity stays.
    pub fn clear(&mut self)
    where
        T: Drop,
        ensures { self.new ≡ [] }
    {
        self.values.clear();
        self.spans.clear();
    }

    /// Moves all entries out, and leaves the list empty.
    pub fn take(&mut self) -> Self
        ensures taken { result ≡ self.old }
        ensures emptied { self.new ≡ [] }
    {
        let empty = Spanned::new(self.allocator());
        mem::replace(self, empty)
    }

    /// The two lists.
    pub fn into_lists(self) -> (Vec<T>, Vec<Span>)
        ensures pairs { zip result.0.items result.1.items ≡ self }
        ensures even { length result.1.items ≡ length result.0.items }
        ensures values { result.0.items ≡ map value_of_entry self }
    {
        let Spanned { values, spans } = self;
        (values, spans)
    }
}

// The index of the first value that is equal to `value`.
fn first_equal<T: PartialEq>(values: &[T], value: &T) -> Option<usize>
    ensures value { result ≡ position (T.eq value.now) values.now }
    ensures in_range { IfSome result (λ place. place < length values.now) }
{
    values.iter().position(|other| *value == *other)
}

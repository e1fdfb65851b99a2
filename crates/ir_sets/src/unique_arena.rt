//! The arena of distinct values.

ghost use Rattle.std.specs.Prelude.{◌≡◌, ◌<◌, ◌≤◌, ◌++◌, ◌↔◌, Some, true, false, [], ◌∷◌, length, map, IsTrue, IsOk, IfOk, IfErr, IfSome, IfNone, OnOk, OnErr};
ghost use Rattle.ir_arena.specs.found.Arenas.{value_of_entry, span_of_entry, value_at, span_at, with_value, has_equal, found_at, place_of, with_entry, IsDistinctBy};
ghost use Rattle.ir_arena.specs.found.Copies.{ComparesByView, entry_of};
ghost use Rattle.ir_arena.specs.judged.Handles.{handles_from, entries_from};

use crate::drain::UniqueArenaDrain;
use crate::keyed::KeyedState;
use indexmap::IndexSet;
use ir_arena::copied::Copied;
use ir_arena::handle::{BadHandle, Handle, Kind};
use ir_arena::iter::Iter;
use ir_arena::span::Span;
use std::alloc::{AllocError, Global};
use std::hash::Hash;
use std::marker::{Model, PhantomData};
use std::mem;
use std::ops::Index;

/// A list of distinct values with their spans. A value's handle is its index, so
/// two values of the arena are equal exactly if their handles are.
///
/// In a contract it is the list of the pairs of a value and its span. An arena has at most
/// 4294967295 values.
///
/// Its values are in an `IndexSet`, their spans in a list of the same length. The hashers have the key that
/// was given to the arena's constructor.
///
/// Its handles are of type `Handle<K>`, like those of [`ir_arena::arena::Arena`].
#[derive(Drop)]
#[derive_where(Debug; T)]
pub struct UniqueArena<T: Eq + Hash, K = T> {
    values: IndexSet<T, KeyedState>,
    spans: Vec<Span>,
    key: PhantomData<K>,
}

impl<T: Eq + Hash, K> Model for UniqueArena<T, K> {
    ghost use Rattle.std.specs.Prelude.{List, ◌≡◌, ◌≤◌, length};
    ghost use Rattle.std.specs.List.{zip};
    ghost use Rattle.ir_arena.specs.declared.span.Span.{Span};

    ghost Value = { List (T × Span) };

    ghost view = { λ a. zip a.values.keys a.spans.items };

    ghost invariant = { λ a. (length a.spans.items ≡ length a.values.keys) × (length a.values.keys ≤ 4294967295) };
}

/// Two arenas are equal if they have equally many values, and the values and spans at each index are
/// equal.
impl<T: Eq + Hash, K> PartialEq for UniqueArena<T, K> {
    ghost use Rattle.ir_arena.specs.found.Equality.{same_entries, same_entries_per};

    ghost eq = { same_entries T.eq };

    ghost laws = { same_entries_per T.PartialEq.laws };

    fn eq(&self, other: &Self) -> bool {
        self.values.as_slice() == other.values.as_slice() && self.spans == other.spans
    }
}

impl<T: Eq + Hash, K> Eq for UniqueArena<T, K> {
    ghost use Rattle.ir_arena.specs.found.Equality.{same_entries_equiv};

    ghost laws = { same_entries_equiv T.Eq.laws };
}

impl<T: Eq + Hash, K> UniqueArena<T, K> {
    /// An empty arena, which allocates nothing. Its hashers have a publicly known key; for
    /// attacker-controlled values use [`UniqueArena::with_hasher`].
    pub fn new(alloc: Global) -> Self
        ensures { result ≡ [] }
    {
        UniqueArena::with_hasher(alloc, KeyedState::with_keys(0, 0))
    }

    /// An empty arena, which allocates nothing, whose hashers have this key.
    pub fn with_hasher(alloc: Global, hash_builder: KeyedState) -> Self
        ensures { result ≡ [] }
    {
        UniqueArena {
            values: IndexSet::with_hasher(alloc, hash_builder),
            spans: Vec::new(alloc),
            key: PhantomData,
        }
    }

    /// An empty arena with this capacity, whose hashers have this key.
    ///
    /// # Errors
    ///
    /// `AllocError` on out of memory.
    pub fn with_capacity_and_hasher(
        alloc: Global,
        count: usize,
        hash_builder: KeyedState,
    ) -> Result<Self, AllocError>
    where
        T: Drop,
        ensures { IfOk result (λ arena. arena ≡ []) }
    {
        Ok(UniqueArena {
            values: IndexSet::with_capacity_and_hasher(alloc, count, hash_builder)?,
            spans: Vec::with_capacity(alloc, count)?,
            key: PhantomData,
        })
    }

    /// A copy of the arena: values with the same views, and the same spans. It requires that values with equal views
    /// compare equal, so that the copies of distinct values are distinct.
    ///
    /// # Errors
    ///
    /// `AllocError` on out of memory.
    pub fn clone(&self, alloc: Global) -> Result<Self, AllocError>
    where
        T: Copied + Drop,
        requires { ComparesByView T.view T.eq }
        ensures { IfOk result (λ copy. map (entry_of T.view) copy ≡ map (entry_of T.view) self.now) }
    {
        let mut copy = UniqueArena::with_hasher(alloc, *self.values.hasher());
        let values = self.values();
        let spans = self.spans();
        for place in 0..self.len() {
            copy.insert(values[place].copied(alloc)?, spans[place])?;
        }
        Ok(copy)
    }

    /// The number of values.
    pub fn len(&self) -> usize
        ensures value { result ≡ length self.now }
        ensures in_range { length self.now ≤ 4294967295 }
        ensures distinct { IsDistinctBy T.eq self.now }
    {
        self.values.len()
    }

    /// Whether the arena is empty.
    pub fn is_empty(&self) -> bool
        ensures { IsTrue result ↔ (self.now ≡ []) }
    {
        self.len() == 0
    }

    /// The values in order, each with its handle.
    pub fn iter(&self) -> Iter<'_, T, K>
        ensures { result ≡ handles_from 0 self.now }
    {
        Iter::new(self.values())
    }

    // The values in order.
    fn values(&self) -> &[T]
        ensures values { result.now ≡ map value_of_entry self.now }
        ensures len { length result.now ≡ length self.now }
        ensures few { length result.now ≤ 4294967295 }
    {
        self.values.as_slice()
    }

    // The spans in order.
    fn spans(&self) -> &[Span]
        ensures spans { result.now ≡ map span_of_entry self.now }
        ensures len { length result.now ≡ length self.now }
    {
        self.spans.as_slice()
    }

    // The index of the value that is equal to `value`.
    fn find(&self, value: &T) -> Option<usize>
        ensures value { result ≡ found_at T.eq self.now value.now }
        ensures in_range { IfSome result (λ place. (place < length self.now) × (place < 4294967295)) }
        ensures present { IfSome result (λ place. (has_equal T.eq self.now value.now ≡ true) × (place_of T.eq self.now value.now ≡ place)) }
        ensures absent { IfNone result ((has_equal T.eq self.now value.now ≡ false) × (place_of T.eq self.now value.now ≡ length self.now)) }
    {
        self.values.get_index_of(value)
    }

    /// The handle of the value that is equal to `value`. If there is none, appends
    /// `value`. A value that is present keeps its first span.
    ///
    /// # Errors
    ///
    /// `AllocError` on out of memory for a new value, or if the arena has 4294967295 values
    /// already. The arena is then unchanged.
    pub fn insert(&mut self, value: T, span: Span) -> Result<Handle<K>, AllocError>
    where
        T: Drop,
        ensures handle { IfOk result (λ h. h ≡ place_of T.eq self.old value) }
        ensures in_range { IfOk result (λ h. (h < length self.new) × (h < 4294967295)) }
        ensures ok { OnOk result (self.new ≡ with_entry T.eq self.old value span) }
        ensures err { OnErr result (self.new ≡ self.old) }
        ensures err_absent { OnErr result (has_equal T.eq self.old value ≡ false) }

        // a value that is equal to none is appended
        ensures appends_to { IfOk result (λ h. has_equal T.eq self.old value ≡ false → h ≡ length self.old) }
        ensures appends { OnOk result (has_equal T.eq self.old value ≡ false → self.new ≡ self.old ++ (value, span) ∷ []) }
    {
        match self.find(&value) {
            Some(place) => Ok(Handle::at(place)),
            None => {
                let place = self.len();
                if place >= 4294967295 {
                    return Err(AllocError);
                }
                self.push(value, span)?;
                Ok(Handle::at(place))
            }
        }
    }

    // Appends a value that is equal to none.
    fn push(&mut self, value: T, span: Span) -> Result<(), AllocError>
    where
        T: Drop,
        requires absent { has_equal T.eq self.old value ≡ false }
        requires few { length self.old < 4294967295 }
        ensures ok { OnOk result (self.new ≡ self.old ++ (value, span) ∷ []) }
        ensures err { OnErr result (self.new ≡ self.old) }
    {
        self.spans.reserve(1)?;
        self.values.insert(value)?;
        self.spans.push_reserved(span);
        Ok(())
    }

    /// Replaces the value at `old` by `new`; the span stays.
    ///
    /// # Errors
    ///
    /// `AllocError` on out of memory for one more value, because `new` is appended before the value at
    /// `old` is removed. The arena is then unchanged.
    pub fn replace(&mut self, old: Handle<K>, new: T) -> Result<(), AllocError>
    where
        T: Drop,
        requires contained { old < length self.old }
        requires absent { has_equal T.eq self.old new ≡ false }
        ensures ok { OnOk result (self.new ≡ with_value self.old old new) }
        ensures err { OnErr result (self.new ≡ self.old) }
    {
        self.values.insert(new)?;
        self.values.swap_remove_index(old.index());
        Ok(())
    }

    /// The handle of the value that is equal to `value`, if any.
    pub fn get(&self, value: &T) -> Option<Handle<K>>
        ensures value { result ≡ found_at T.eq self.now value.now }
        ensures in_range { IfSome result (λ h. h < length self.now) }
    {
        match self.find(value) {
            Some(place) => Some(Handle::at(place)),
            None => None,
        }
    }

    /// The value at `handle`.
    ///
    /// # Errors
    ///
    /// [`BadHandle`] if the handle is not in the arena.
    pub fn get_handle(&self, handle: Handle<K>) -> Result<&T, BadHandle>
    where
        K: Kind,
        ensures found { IsOk result ↔ (handle < length self.now) }
        ensures value { IfOk result (λ value. Some value.now ≡ value_at self.now handle) }
        ensures bad { IfErr result (λ e. (e.index ≡ handle) × (e.kind.now ≡ K.word)) }
    {
        let index = handle.index();
        if index >= self.len() {
            return Err(BadHandle {
                kind: K::word(),
                index,
            });
        }
        Ok(&self.values()[index])
    }

    /// The span of the value at `handle`, or [`Span::UNDEFINED`] if the handle is not in the arena.
    pub fn get_span(&self, handle: Handle<K>) -> Span
        ensures { result ≡ span_at self.now handle }
    {
        let place = handle.index();
        if place < self.len() {
            return self.spans()[place];
        }
        Span::UNDEFINED
    }

    /// Checks that `handle` is in the arena.
    ///
    /// # Errors
    ///
    /// [`BadHandle`] if it is not.
    pub fn check_contains_handle(&self, handle: Handle<K>) -> Result<(), BadHandle>
    where
        K: Kind,
        ensures found { IsOk result ↔ (handle < length self.now) }
        ensures bad { IfErr result (λ e. (e.index ≡ handle) × (e.kind.now ≡ K.word)) }
    {
        let index = handle.index();
        if index < self.len() {
            Ok(())
        } else {
            Err(BadHandle {
                kind: K::word(),
                index,
            })
        }
    }

    /// Drops all values. The arena keeps its memory.
    pub fn clear(&mut self)
    where
        T: Drop,
        ensures { self.new ≡ [] }
    {
        self.values.clear();
        self.spans.clear();
    }

    /// Moves all values into a new arena, and leaves this one empty. Their handles stay.
    pub fn take(&mut self) -> Self
        ensures taken { result ≡ self.old }
        ensures emptied { self.new ≡ [] }
    {
        let empty = UniqueArena::with_hasher(*self.spans.allocator(), *self.values.hasher());
        mem::replace(self, empty)
    }

    /// Moves all values out, and leaves the arena empty.
    pub fn drain_all(&mut self) -> UniqueArenaDrain<T, K>
    where
        T: Drop,
        ensures taken { result ≡ entries_from 0 self.old }
        ensures emptied { self.new ≡ [] }
    {
        let UniqueArena { values, spans, .. } = self.take();
        UniqueArenaDrain::new(values, spans)
    }
}

impl<T: Eq + Hash, K> Index<Handle<K>> for UniqueArena<T, K> {
    type Output = T;

    ghost can_index = { λ a h. h < length a };

    ghost index_gives = { λ a h x. Some x ≡ value_at a h };

    /// The value at a handle of this arena.
    fn index(&self, handle: Handle<K>) -> &T
        requires { handle < length self.now }
        ensures { Some result.now ≡ value_at self.now handle }
    {
        &self.values()[handle.index()]
    }
}

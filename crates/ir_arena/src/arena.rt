//! The arena of values with spans, in which equal values may occur.

ghost use Rattle.std.specs.Prelude.{◌≡◌, ◌<◌, ◌≤◌, ◌++◌, ◌⊎◌, ◌↔◌, Some, false, [], ◌∷◌, length, map, slice_range, IsTrue, IsOk, IfOk, IfErr, IfSome, IfNone, OnOk, OnErr};
ghost use Rattle.std.specs.Borrow.{sem};
ghost use Rattle.std.specs.Fn.{FnReturnsAt, FnReturnsAtPair};
ghost use Rattle.ir_arena.specs.found.Arenas.{value_of_entry, span_of_entry, value_at, span_at, has_equal, found_at, place_of, with_entry, IsFirstPassing, PassesNowhere};
ghost use Rattle.ir_arena.specs.found.Copies.{entry_of};
ghost use Rattle.ir_arena.specs.found.IterMut.{values_to_come, loan_name};
ghost use Rattle.ir_arena.specs.found.Lends.{LendsValue, LendsValues, KeepsSpans};
ghost use Rattle.ir_arena.specs.found.Retains.{KeepsAt, RetainsFrom};
ghost use Rattle.ir_arena.specs.judged.Handles.{handles_from, entries_from};

use crate::copied::Copied;
use crate::drain::Drain;
use crate::handle::{BadHandle, Handle, Kind};
use crate::iter::Iter;
use crate::iter_mut::IterMut;
use crate::range::{BadRangeError, Range};
use crate::span::Span;
use crate::spanned::Spanned;
use std::alloc::{AllocError, Global};
use std::marker::{Model, PhantomData};
use std::ops::Index;

/// A list of values, each with its span. A value's handle is its index, so the handles are those
/// below the length, and a value keeps its handle while the arena grows.
///
/// In a contract it is the list of the pairs of a value and its span. An arena has at most
/// 4294967295 values.
///
/// Its handles are of type `Handle<K>`, where `K` defaults to `T`. An arena whose values
/// contain handles of the same arena names a tag as `K`, an empty type, so that the type of the values is
/// not recursive.
#[derive(Drop)]
#[derive_where(Debug; T)]
pub struct Arena<T, K = T> {
    entries: Spanned<T>,
    key: PhantomData<K>,
}

impl<T, K> Model for Arena<T, K> {
    ghost use Rattle.std.specs.Prelude.{List, length, ◌≤◌};
    ghost use Rattle.ir_arena.specs.declared.span.Span.{Span};

    ghost Value = { List (T × Span) };

    ghost view = { λ a. a.entries };

    ghost invariant = { λ a. length a.entries ≤ 4294967295 };
}

/// Two arenas are equal if they have equally many values, and the values and spans at each index are
/// equal.
impl<T: PartialEq, K> PartialEq for Arena<T, K> {
    ghost use Rattle.ir_arena.specs.found.Equality.{same_entries, same_entries_per};

    ghost eq = { same_entries T.eq };

    ghost laws = { same_entries_per T.laws };

    fn eq(&self, other: &Self) -> bool {
        self.entries == other.entries
    }
}

impl<T: Eq, K> Eq for Arena<T, K> {
    ghost use Rattle.ir_arena.specs.found.Equality.{same_entries_equiv};

    ghost laws = { same_entries_equiv T.Eq.laws };
}

impl<T, K> Arena<T, K> {
    /// An empty arena, which allocates nothing.
    pub fn new(alloc: Global) -> Self
        ensures { result ≡ [] }
    {
        Arena {
            entries: Spanned::new(alloc),
            key: PhantomData,
        }
    }

    /// An empty arena with capacity for `count` values.
    ///
    /// # Errors
    ///
    /// `AllocError` on out of memory.
    pub fn with_capacity(alloc: Global, count: usize) -> Result<Self, AllocError>
    where
        T: Drop,
        ensures { IfOk result (λ arena. arena ≡ []) }
    {
        Ok(Arena {
            entries: Spanned::with_capacity(alloc, count)?,
            key: PhantomData,
        })
    }

    /// A copy of the arena: equal values with the same spans.
    ///
    /// # Errors
    ///
    /// `AllocError` on out of memory.
    pub fn clone(&self, alloc: Global) -> Result<Self, AllocError>
    where
        T: Copied + Drop,
        ensures { IfOk result (λ copy. map (entry_of T.view) copy ≡ map (entry_of T.view) self.now) }
    {
        let mut copy = Arena::new(alloc);
        let values = self.entries.values();
        let spans = self.entries.spans();
        for place in 0..values.len() {
            copy.append(values[place].copied(alloc)?, spans[place])?;
        }
        Ok(copy)
    }

    /// The number of values.
    pub fn len(&self) -> usize
        ensures value { result ≡ length self.now }
        ensures in_range { length self.now ≤ 4294967295 }
    {
        self.entries.len()
    }

    /// Whether the arena is empty.
    pub fn is_empty(&self) -> bool
        ensures { IsTrue result ↔ (self.now ≡ []) }
    {
        self.len() == 0
    }

    /// The values in order, each with its handle.
    pub fn iter(&self) -> Iter<'_, T, K>
        ensures { result ≡ handles_from 0 self.now }
    {
        Iter::new(self.entries.values())
    }

    /// The values in order, each with its handle, as mutable references. The spans stay.
    pub fn iter_mut(&mut self) -> IterMut<'_, T, K>
        ensures* writes_back { sem 𝓛 (LendsValues T.row K.row self.entry (loan_name result)) }
        ensures keeps { KeepsSpans self.old }
        ensures values { values_to_come result ≡ handles_from 0 self.old }
    {
        IterMut::new(self.entries.values_mut())
    }

    /// Appends a value, and returns its handle.
    ///
    /// # Errors
    ///
    /// `AllocError` on out of memory, or if the arena has 4294967295 values already. The
    /// arena is then unchanged.
    pub fn append(&mut self, value: T, span: Span) -> Result<Handle<K>, AllocError>
    where
        T: Drop,
        ensures handle { IfOk result (λ h. h ≡ length self.old) }
        ensures room { OnOk result (length self.old < 4294967295) }
        ensures ok { OnOk result (self.new ≡ self.old ++ (value, span) ∷ []) }
        ensures err { OnErr result (self.new ≡ self.old) }
    {
        let place = self.entries.len();
        if place >= 4294967295 {
            return Err(AllocError);
        }
        self.entries.push(value, span)?;
        Ok(Handle::at(place))
    }

    // The index of the first value that is equal to `value`.
    fn find(&self, value: &T) -> Option<usize>
    where
        T: PartialEq,
        ensures value { result ≡ found_at T.eq self.now value.now }
        ensures in_range { IfSome result (λ place. (place < length self.now) × (place < 4294967295)) }
    {
        self.entries.find(value)
    }

    /// The handle of the first value that is equal to `value`. If there is none, appends
    /// `value`. A value that is present keeps its span.
    ///
    /// # Errors
    ///
    /// Those of [`Arena::append`], if `value` is appended.
    pub fn fetch_or_append(&mut self, value: T, span: Span) -> Result<Handle<K>, AllocError>
    where
        T: PartialEq + Drop,
        ensures handle { IfOk result (λ h. h ≡ place_of T.eq self.old value) }
        ensures in_range { IfOk result (λ h. (h < length self.new) × (h < 4294967295)) }
        ensures ok { OnOk result (self.new ≡ with_entry T.eq self.old value span) }
        ensures err { OnErr result (self.new ≡ self.old) }
        ensures err_absent { OnErr result (has_equal T.eq self.old value ≡ false) }
    {
        match self.find(&value) {
            Some(place) => Ok(Handle::at(place)),
            None => self.append(value, span),
        }
    }

    /// The handle of the first value for which `fun` returns true, if any.
    pub fn fetch_if<F: Fn(&T) -> bool>(&self, fun: F) -> Option<Handle<K>>
        requires { F.IsAlwaysCallable fun }
        ensures found { IfSome result (IsFirstPassing (FnReturnsAt F.Fn fun) self.now) }
        ensures none { IfNone result (PassesNowhere (FnReturnsAt F.Fn fun) self.now) }
    {
        match first_passing(&self.entries, &fun) {
            Some(place) => Some(Handle::at(place)),
            None => None,
        }
    }

    /// The handle of the first value for which `fun` returns true, called with it and `value`. If there is none, appends
    /// `value`. A value that is present keeps its span.
    ///
    /// # Errors
    ///
    /// Those of [`Arena::append`], if `value` is appended.
    pub fn fetch_if_or_append<F: Fn(&T, &T) -> bool>(
        &mut self,
        value: T,
        span: Span,
        fun: F,
    ) -> Result<Handle<K>, AllocError>
    where
        T: Drop,
        requires { F.IsAlwaysCallable fun }
        ensures found { IfOk result (λ h. h < length self.old → IsFirstPassing (λ old. FnReturnsAtPair F.Fn fun old value) self.old h) }
        ensures kept { IfOk result (λ h. h < length self.old → self.new ≡ self.old) }

        // a handle that the arena did not have is that of the appended value
        ensures absent { IfOk result (λ h. length self.old ≤ h → PassesNowhere (λ old. FnReturnsAtPair F.Fn fun old value) self.old) }
        ensures appends_to { IfOk result (λ h. length self.old ≤ h → h ≡ length self.old) }
        ensures appends { IfOk result (λ h. length self.old ≤ h → self.new ≡ self.old ++ (value, span) ∷ []) }

        ensures err { OnErr result (self.new ≡ self.old) }
        ensures err_absent { OnErr result (PassesNowhere (λ old. FnReturnsAtPair F.Fn fun old value) self.old) }
    {
        match first_related(&self.entries, &value, &fun) {
            Some(place) => Ok(Handle::at(place)),
            None => self.append(value, span),
        }
    }

    /// The value at `handle`.
    ///
    /// # Errors
    ///
    /// [`BadHandle`] if the handle is not in the arena.
    pub fn try_get(&self, handle: Handle<K>) -> Result<&T, BadHandle>
    where
        K: Kind,
        ensures found { IsOk result ↔ (handle < length self.now) }
        ensures value { IfOk result (λ value. Some value.now ≡ value_at self.now handle) }
        ensures bad { IfErr result (λ e. (e.index ≡ handle) × (e.kind.now ≡ K.word)) }
    {
        let index = handle.index();
        if index >= self.entries.len() {
            return Err(BadHandle {
                kind: K::word(),
                index,
            });
        }
        Ok(self.entries.value(index))
    }

    /// The value at `handle`, as a mutable reference.
    pub fn get_mut(&mut self, handle: Handle<K>) -> &mut T
        requires { handle < length self.old }
        ensures* writes_back { sem 𝓛 (LendsValue T.row K.row self.entry handle result) }
        ensures value { Some result.now ≡ value_at self.old handle }
    {
        self.entries.value_mut(handle.index())
    }

    /// The span of the value at `handle`, or [`Span::UNDEFINED`] if the handle is not in the arena.
    pub fn get_span(&self, handle: Handle<K>) -> Span
        ensures { result ≡ span_at self.now handle }
    {
        self.entries.span(handle.index())
    }

    /// Checks that `handle` is in the arena.
    ///
    /// # Errors
    ///
    /// [`BadHandle`] if it is not.
    pub fn check_contains_handle(&self, handle: Handle<K>) -> Result<(), BadHandle>
    where
        K: Kind,
        ensures found { IsOk result ↔ (handle < length self.now) }
        ensures bad { IfErr result (λ e. (e.index ≡ handle) × (e.kind.now ≡ K.word)) }
    {
        let index = handle.index();
        if index < self.entries.len() {
            Ok(())
        } else {
            Err(BadHandle {
                kind: K::word(),
                index,
            })
        }
    }

    /// Whether the start of `range` is at most its end, and its end at most the length. Unlike
    /// [`Arena::check_contains_range`] it requires this of an empty range too.
    pub fn has_range(&self, range: &Range<K>) -> bool
        ensures { IsTrue result ↔ ((range.now.0 ≤ range.now.1) × (range.now.1 ≤ length self.now)) }
    {
        let places = range.index_range();
        places.start <= places.end && places.end as usize <= self.entries.len()
    }

    /// Checks that each handle of `range` is in the arena. An empty range passes for every arena,
    /// even past the arena's end, unless its end is less than its start; see
    /// [`Arena::has_range`].
    ///
    /// # Errors
    ///
    /// [`BadRangeError`] if the end is less than the start, or if a handle is not in the arena.
    pub fn check_contains_range(&self, range: &Range<K>) -> Result<(), BadRangeError>
    where
        K: Kind,
        ensures contained { IsOk result ↔ ((range.now.0 ≡ range.now.1) ⊎ (range.now.0 < range.now.1) × (range.now.1 ≤ length self.now)) }
        ensures bad { IfErr result (λ e. (e.range ≡ range.now) × (e.kind.now ≡ K.word)) }
    {
        let places = range.index_range();
        if places.start == places.end || self.has_range(range) {
            return Ok(());
        }
        Err(BadRangeError::new(Range::<K>::new(places.start, places.end)))
    }

    /// The values of `range` (naga's `arena[range]`).
    pub fn get_range(&self, range: Range<K>) -> &[T]
        requires ordered { range.0 ≤ range.1 }
        requires in_bounds { range.1 ≤ length self.now }
        ensures { result.now ≡ map value_of_entry (slice_range self.now range.0 range.1) }
    {
        let places = range.index_range();
        &self.entries.values()[places.start as usize..places.end as usize]
    }

    /// The spans of the values of `range`.
    pub fn get_range_spans(&self, range: Range<K>) -> &[Span]
        requires ordered { range.0 ≤ range.1 }
        requires in_bounds { range.1 ≤ length self.now }
        ensures { result.now ≡ map span_of_entry (slice_range self.now range.0 range.1) }
    {
        let places = range.index_range();
        &self.entries.spans()[places.start as usize..places.end as usize]
    }

    /// Calls `keep` on each value in turn, with the handle that it has before the call, and retains the values
    /// for which it returns true, in order, as it left them. The handles of the values after a removed one
    /// change.
    pub fn retain_mut<F: FnMut(Handle<K>, &mut T) -> bool>(&mut self, mut keep: F)
    where
        T: Drop,
        requires { F.IsAlwaysCallable keep }
        ensures { RetainsFrom (KeepsAt F.FnMut) keep 0 self.old self.new }
    {
        keep_entries(&mut self.entries, &mut keep);
    }

    /// Moves all values out, and leaves the arena empty.
    pub fn drain(&mut self) -> Drain<T, K>
        ensures taken { result ≡ entries_from 0 self.old }
        ensures emptied { self.new ≡ [] }
    {
        Drain::new(self.entries.take())
    }

    /// All values, without their spans.
    pub fn into_inner(self) -> Vec<T>
        ensures { result.items ≡ map value_of_entry self }
    {
        let Arena { entries, key: _ } = self;
        let (values, _) = entries.into_lists();
        values
    }
}

// The index of the first entry for whose value `fun` returns true.
fn first_passing<T, F: Fn(&T) -> bool>(entries: &Spanned<T>, fun: &F) -> Option<usize>
    requires callable { F.IsAlwaysCallable fun.now }
    requires in_range { length entries.now ≤ 4294967295 }
    ensures found { IfSome result (IsFirstPassing (FnReturnsAt F.Fn fun.now) entries.now) }
    ensures in_range { IfSome result (λ place. place < 4294967295) }
    ensures none { IfNone result (PassesNowhere (FnReturnsAt F.Fn fun.now) entries.now) }
{
    for place in 0..entries.len() {
        if answer(entries.value(place), fun) {
            return Some(place);
        }
    }
    None
}

// The result of `fun` on the value.
fn answer<T, F: Fn(&T) -> bool>(value: &T, fun: &F) -> bool
    requires { F.IsAlwaysCallable fun.now }
    ensures { FnReturnsAt F.Fn fun.now value.now result }
{
    fun(value)
}

// The index of the first entry for whose value and `value` `fun` returns true.
fn first_related<T, F: Fn(&T, &T) -> bool>(
    entries: &Spanned<T>,
    value: &T,
    fun: &F,
) -> Option<usize>
    requires callable { F.IsAlwaysCallable fun.now }
    requires in_range { length entries.now ≤ 4294967295 }
    ensures found { IfSome result (IsFirstPassing (λ old. FnReturnsAtPair F.Fn fun.now old value.now) entries.now) }
    ensures in_range { IfSome result (λ place. (place < 4294967295) × (place < length entries.now)) }
    ensures none { IfNone result (PassesNowhere (λ old. FnReturnsAtPair F.Fn fun.now old value.now) entries.now) }
{
    for place in 0..entries.len() {
        if relate(entries.value(place), value, fun) {
            return Some(place);
        }
    }
    None
}

// The result of `fun` on the two values.
fn relate<T, F: Fn(&T, &T) -> bool>(old: &T, value: &T, fun: &F) -> bool
    requires { F.IsAlwaysCallable fun.now }
    ensures { FnReturnsAtPair F.Fn fun.now old.now value.now result }
{
    fun(old, value)
}

// Retains the entries for which `keep` returns true, in order.
fn keep_entries<T: Drop, K, F: FnMut(Handle<K>, &mut T) -> bool>(
    entries: &mut Spanned<T>,
    keep: &mut F,
)
    requires callable { F.IsAlwaysCallable keep.old }
    requires in_range { length entries.old ≤ 4294967295 }
    ensures in_range { length entries.new ≤ length entries.old }
    ensures kept { RetainsFrom (KeepsAt F.FnMut) keep.old 0 entries.old entries.new }
{
    let mut kept = 0;
    for place in 0..entries.len() {
        if ask(entries.value_mut(place), Handle::at(place), keep) {
            entries.swap(kept, place);
            kept += 1;
        }
    }
    entries.truncate(kept);
}

// The result of `keep` on the value, which it may mutate.
fn ask<T, K, F: FnMut(Handle<K>, &mut T) -> bool>(
    value: &mut T,
    handle: Handle<K>,
    keep: &mut F,
) -> bool
    requires { F.IsAlwaysCallable keep.old }
    ensures callable { F.IsAlwaysCallable keep.new }
    ensures asked { KeepsAt F.FnMut keep.old handle value.old result keep.new value.new }
{
    keep(handle, value)
}

impl<T, K> Index<Handle<K>> for Arena<T, K> {
    type Output = T;

    ghost can_index = { λ a h. h < length a };

    ghost index_gives = { λ a h x. Some x ≡ value_at a h };

    /// The value at a handle of this arena.
    fn index(&self, handle: Handle<K>) -> &T
        requires { handle < length self.now }
        ensures { Some result.now ≡ value_at self.now handle }
    {
        self.entries.value(handle.index())
    }
}

//! Sets of the handles of an arena.

ghost use Rattle.std.specs.Prelude.{◌≡◌, ℕ, ◌*◌, ◌-◌, ◌<◌, ◌≤◌, ◌↔◌, [], length, not, IsTrue, IsNone, IfNone, IfSome, IfOk, OnOk, OnErr};
ghost use Rattle.std.specs.FinSet as set;
ghost use Rattle.ir_sets.specs.Bits.{bits_of, AreShown};
ghost use Rattle.ir_sets.specs.Places.{ListsMembers};

use crate::bits;
use crate::unique_arena::UniqueArena;
use ir_arena::arena::Arena;
use ir_arena::handle::Handle;
use ir_arena::range::Range;
use std::alloc::{AllocError, Global};
use std::hash::Hash;
use std::marker::{Model, PhantomData};

/// An arena of any kind, as a number of handles. `K` is the type parameter
/// of its handles.
pub trait ArenaType<K> {
    ghost handle_count: { Self → ℕ };

    /// The number of values, which is the number of handles.
    fn len(&self) -> usize
        ensures value { result ≡ handle_count self.now }
        ensures in_range { handle_count self.now ≤ 4294967295 };
}

impl<T, K> ArenaType<K> for Arena<T, K> {
    ghost handle_count = { length };

    fn len(&self) -> usize {
        Arena::len(self)
    }
}

impl<T: Eq + Hash, K> ArenaType<K> for UniqueArena<T, K> {
    ghost handle_count = { length };

    fn len(&self) -> usize {
        UniqueArena::len(self)
    }
}

/// A set of handles: a bit for each, in words of 64 up to the word of the greatest one. In a contract it is the set of their
/// indices.
///
/// Naga's set stores the number of handles of its arena; here
/// [`HandleSet::all_possible`] takes the arena as an argument.
#[derive(Drop)]
#[derive_where(Debug)]
pub struct HandleSet<K> {
    words: Vec<u64>,
    as_keys: PhantomData<K>,
}

impl<K> Model for HandleSet<K> {
    ghost use Rattle.std.specs.Ordering.{nat_cmp};
    ghost use Rattle.std.specs.FinSet as set;
    ghost use Rattle.std.specs.Coded.{coded_ℕ};
    ghost use Rattle.ir_sets.specs.Bits.{members, AreWords};

    ghost Value = { set.FinSet nat_cmp };

    ghost coded = { set.code coded_ℕ };

    ghost view = { λ s. members s.words.items };

    ghost invariant = { λ s. AreWords s.words.items };
}

impl<K> HandleSet<K> {
    /// An empty set for the handles of `arena`. It allocates nothing, and grows up to its greatest
    /// member, where naga allocates for each handle of the arena beforehand.
    pub fn for_arena<A: ArenaType<K>>(alloc: Global, _arena: &A) -> Self
        ensures { result ≡ set.empty }
    {
        HandleSet::new(alloc)
    }

    /// All handles of `arena`.
    pub fn all_possible<A: ArenaType<K>>(arena: &A) -> Range<K>
        ensures { result ≡ (0, A.handle_count arena.now) }
    {
        Range::new(0, arena.len() as u32)
    }

    /// A set with no handle, which allocates nothing.
    pub fn new(alloc: Global) -> Self
        ensures { result ≡ set.empty }
    {
        HandleSet {
            words: Vec::new(alloc),
            as_keys: PhantomData,
        }
    }

    /// The number of members, counted word by word, in time linear in the greatest member.
    pub fn len(&self) -> usize
        ensures { result ≡ set.len self.now }
    {
        bits::count(&self.words)
    }

    /// Whether the set is empty.
    pub fn is_empty(&self) -> bool
        ensures { IsTrue result ↔ (self.now ≡ set.empty) }
    {
        bits::greatest(&self.words).is_none()
    }

    /// Whether `handle` is a member.
    pub fn contains(&self, handle: Handle<K>) -> bool
        ensures { result ≡ set.contains self.now handle }
    {
        bits::contains(&self.words, handle.index())
    }

    /// Inserts `handle`, and returns whether it is new.
    ///
    /// # Errors
    ///
    /// `AllocError` on out of memory for a new member. The set is then unchanged.
    pub fn insert(&mut self, handle: Handle<K>) -> Result<bool, AllocError>
        ensures added { IfOk result (λ added. added ≡ not (set.contains self.old handle)) }
        ensures ok { OnOk result (self.new ≡ set.insert self.old handle) }
        ensures err { OnErr result (self.new ≡ self.old) }
        ensures err_absent { OnErr result (IsTrue (not (set.contains self.old handle))) }
    {
        let place = handle.index();
        if bits::contains(&self.words, place) {
            return Ok(false);
        }
        bits::reserve(&mut self.words, place + 1)?;
        bits::insert(&mut self.words, place);
        Ok(true)
    }

    /// Removes `handle`, and returns whether it was a member. If it was the greatest, the words after the next greatest are
    /// truncated; each of them was added by an earlier [`HandleSet::insert`], so the time is amortised.
    pub fn remove(&mut self, handle: Handle<K>) -> bool
        ensures removed { result ≡ set.contains self.old handle }
        ensures members { self.new ≡ set.remove self.old handle }
    {
        let place = handle.index();
        if !bits::contains(&self.words, place) {
            return false;
        }
        bits::remove(&mut self.words, place);
        bits::trim(&mut self.words);
        true
    }

    /// Removes and returns the greatest member, or `None` if the set is empty.
    pub fn pop(&mut self) -> Option<Handle<K>>
        ensures empty { IsNone result ↔ (self.old ≡ set.empty) }
        ensures member { IfSome result (λ h. IsTrue (set.contains self.old h)) }
        ensures greatest { IfSome result (λ h. (q : _) → IsTrue (set.contains self.old q) → q ≤ h) }
        ensures rest { IfSome result (λ h. self.new ≡ set.remove self.old h) }
        ensures none { IfNone result (self.new ≡ self.old) }
    {
        let place = bits::greatest(&self.words)?;
        bits::remove(&mut self.words, place);
        bits::trim(&mut self.words);
        Some(Handle::at(place))
    }

    /// Removes all members. The set keeps its memory.
    pub fn clear(&mut self)
        ensures { self.new ≡ set.empty }
    {
        self.words.clear();
    }

    /// Removes all members, so that the set can be used for `arena`. The set keeps its memory.
    pub fn clear_for_arena<A: ArenaType<K>>(&mut self, _arena: &A)
        ensures { self.new ≡ set.empty }
    {
        self.clear();
    }

    /// The members in ascending order.
    pub fn iter(&self) -> Iter<'_, K>
        ensures { ListsMembers self.now result }
    {
        Iter::new(&self.words)
    }
}

/// The members of a set in ascending order. In a contract it is the list of the indices of the
/// remaining members.
#[derive(Drop)]
pub struct Iter<'a, K> {
    words: &'a [u64],
    // the index from which on members are still to be yielded
    next: usize,
    as_keys: PhantomData<K>,
}

impl<'a, K> Model for Iter<'a, K> {
    ghost use Rattle.std.specs.Prelude.{ℕ, ◌*◌, ◌-◌, List, length};
    ghost use Rattle.ir_sets.specs.Bits.{bits_from, AreShown};

    ghost Value = { List ℕ };

    ghost view = { λ i. bits_from i.words.now i.next (64 * length i.words.now - i.next) };

    ghost invariant = { λ i. AreShown i.words.now };
}

impl<'a, K> Iter<'a, K> {
    // An iterator over all members of these words.
    fn new(words: &'a [u64]) -> Self
        requires { AreShown words.now }
        ensures { result ≡ bits_of words.now }
    {
        Iter {
            words,
            next: 0,
            as_keys: PhantomData,
        }
    }
}

impl<'a, K> Iterator for Iter<'a, K> {
    ghost use Rattle.std.specs.Iterator.{YieldsFirst, item_count};

    type Item = Handle<K>;

    ghost next_gives = { YieldsFirst (λ i. i) };

    ghost remaining = { item_count (λ i. i) };

    fn next(&mut self) -> Option<Handle<K>> {
        let place = bits::first_between(self.words, self.next, 64 * self.words.len())?;
        self.next = place + 1;
        Some(Handle::at(place))
    }
}

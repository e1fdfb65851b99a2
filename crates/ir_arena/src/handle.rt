//! Handles of an arena, and the error of a handle that is not in an arena.

ghost use Rattle.std.specs.Prelude.{◌≡◌, ◌<◌, ◌+◌, ◌↔◌, ℕ, List, IsSome, IfSome};

use std::fmt;
use std::marker::{Model, PhantomData};
use thiserror::Error;

/// A number below 4294967295, which is `u32::MAX`. In a contract it is that number.
#[derive(Clone, Copy, PartialEq, Eq, PartialOrd, Ord, Hash, Debug)]
pub struct NonMaxU32 {
    value: u32,
}

impl Model for NonMaxU32 {
    ghost use Rattle.std.specs.Prelude.{ℕ, ◌<◌};

    ghost Value = { ℕ };

    ghost view = { λ n. n.value };

    ghost invariant = { λ n. n.value < 4294967295 };

    ghost inverse = { λ n. record { value = n } };
}

impl NonMaxU32 {
    /// `n`, or `None` for `u32::MAX`.
    pub fn new(n: u32) -> Option<Self>
        ensures some { IsSome result ↔ (n < 4294967295) }
        ensures value { IfSome result (λ r. r ≡ n) }
    {
        if n < u32::MAX {
            Some(NonMaxU32 { value: n })
        } else {
            None
        }
    }

    /// The sum of this number and `n`, or `None` if it is 4294967295 or more.
    pub fn checked_add(self, n: u32) -> Option<Self>
        ensures some { IsSome result ↔ (self + n < 4294967295) }
        ensures value { IfSome result (λ r. r ≡ self + n) }
    {
        match self.get().checked_add(n) {
            Some(sum) => NonMaxU32::new(sum),
            None => None,
        }
    }

    /// The number as `u32`.
    pub fn get(self) -> u32
        ensures value { result ≡ self }
        ensures in_range { result < 4294967295 }
    {
        self.value
    }
}

/// The index of a handle, from 0.
pub type Index = NonMaxU32;

/// The index of a value in an arena, from 0. In a contract it is that number.
///
/// `T` only distinguishes the handles of different arenas: a handle stores no `T`, and its copies,
/// comparisons and hashes require nothing of `T`. An arena whose values contain handles of the same arena takes a
/// tag as the `T` of its handles (see [`crate::arena::Arena`]).
#[derive_where(Clone, Copy, PartialEq, Eq, PartialOrd, Ord, Hash)]
pub struct Handle<T> {
    index: NonMaxU32,
    marker: PhantomData<T>,
}

impl<T> Model for Handle<T> {
    ghost use Rattle.std.specs.Prelude.{ℕ};

    ghost Value = { ℕ };

    ghost view = { λ h. h.index };

    ghost inverse = { λ n. record { index = n; marker = record {} } };
}

// The index in square brackets.
impl<T> fmt::Debug for Handle<T> {
    fn fmt<W: fmt::Write>(&self, f: &mut fmt::Formatter<W>) -> fmt::Result {
        write!(f, "[{}]", self.index.get())
    }
}

impl<T> Handle<T> {
    /// The handle of index `index`.
    pub fn new(index: Index) -> Self
        ensures { result ≡ index }
    {
        Handle {
            index,
            marker: PhantomData,
        }
    }

    /// The handle of an index that is known to be in an arena. In naga `from_usize`, which
    /// panics if the index is too large.
    pub fn at(place: usize) -> Self
        requires { place < 4294967295 }
        ensures { result ≡ place }
    {
        Handle {
            index: NonMaxU32 {
                value: place as u32,
            },
            marker: PhantomData,
        }
    }

    /// The index of the handle, from 0.
    pub fn index(self) -> usize
        ensures value { result ≡ self }
        ensures in_range { result < 4294967295 }
    {
        self.index.get() as usize
    }
}

/// The kind of a handle's arena: each tag of an arena (see [`crate::arena::Arena`]) has a word for it.
pub trait Kind {
    ghost word: { List ℕ };

    /// The word: `type`, `expression` and the like.
    fn word() -> &'static str
        ensures { result.now ≡ word };
}

/// The error of a handle that is not in an arena. In naga `kind` is the type name of the value.
#[derive(Clone, Copy, PartialEq, Eq, Hash, Debug, Error)]
#[error("Handle {index} of {kind} is either not present, or inaccessible yet")]
pub struct BadHandle {
    /// The kind of the handle: the word of its [`Kind`].
    pub kind: &'static str,
    /// The index of the handle, from 0.
    pub index: usize,
}

impl BadHandle {
    /// The error of `handle`.
    pub fn new<K: Kind>(handle: Handle<K>) -> Self
        ensures kind { result.kind.now ≡ K.word }
        ensures index { result.index ≡ handle }
    {
        BadHandle {
            kind: K::word(),
            index: handle.index(),
        }
    }
}

//! Vectors that are indexed by handles.

ghost use Rattle.std.specs.Prelude.{◌≡◌, ◌<◌, ◌++◌, ◌↔◌, [], ◌∷◌, Some, length, slice_get, IsTrue, IsSome, OnOk, OnErr};
ghost use Rattle.std.specs.Option.{option_copied};

use ir_arena::handle::Handle;
use std::alloc::{AllocError, Global};
use std::marker::{Model, PhantomData};
use std::ops::Index;

/// A vector with a value for each of the first handles of an arena, in order. In a contract it is the
/// list of the values.
///
/// `T` is the type parameter of the handles, `U` the type of the values.
#[derive(Drop)]
#[derive_where(Debug; U)]
pub struct HandleVec<T, U> {
    inner: Vec<U>,
    as_keys: PhantomData<T>,
}

impl<T, U> Model for HandleVec<T, U> {
    ghost use Rattle.std.specs.Prelude.{List};

    ghost Value = { List U };

    ghost view = { λ v. v.inner.items };
}

impl<T, U> HandleVec<T, U> {
    /// An empty vector, which allocates nothing.
    pub fn new(alloc: Global) -> Self
        ensures { result ≡ [] }
    {
        HandleVec {
            inner: Vec::new(alloc),
            as_keys: PhantomData,
        }
    }

    /// The number of values.
    pub fn len(&self) -> usize
        ensures { result ≡ length self.now }
    {
        self.inner.len()
    }

    /// Whether the vector is empty.
    pub fn is_empty(&self) -> bool
        ensures { IsTrue result ↔ (self.now ≡ []) }
    {
        self.inner.is_empty()
    }

    /// Appends the value of the next handle. Naga panics at any other handle.
    ///
    /// # Errors
    ///
    /// `AllocError` on out of memory. The vector is then unchanged.
    pub fn insert(&mut self, handle: Handle<T>, value: U) -> Result<(), AllocError>
    where
        U: Drop,
        requires { handle ≡ length self.old }
        ensures ok { OnOk result (self.new ≡ self.old ++ value ∷ []) }
        ensures err { OnErr result (self.new ≡ self.old) }
    {
        prove_eq!(handle.index(), self.inner.len());
        self.inner.push(value)?;
        Ok(())
    }

    /// The value of `handle`, if any.
    pub fn get(&self, handle: Handle<T>) -> Option<&U>
        ensures found { IsSome result ↔ (handle < length self.now) }
        ensures value { option_copied result ≡ slice_get self.now handle }
    {
        self.inner.get(handle.index())
    }

    /// Drops all values. The vector keeps its memory.
    pub fn clear(&mut self)
    where
        U: Drop,
        ensures { self.new ≡ [] }
    {
        self.inner.clear();
    }
}

impl<T, U> Index<Handle<T>> for HandleVec<T, U> {
    type Output = U;

    ghost can_index = { λ v h. h < length v };

    ghost index_gives = { λ v h x. Some x ≡ slice_get v h };

    /// The value of a handle that has one.
    fn index(&self, handle: Handle<T>) -> &U
        requires { handle < length self.now }
        ensures { Some result.now ≡ slice_get self.now handle }
    {
        &self.inner[handle.index()]
    }
}

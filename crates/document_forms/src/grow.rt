// Collections that are built item by item.
ghost use Rattle.std.specs.Prelude.{◌≡◌, ◌≢◌, List, [], ◌∷◌, ◌++◌, map, IfOk, IfErr, OnOk};
ghost use Rattle.ir_arena.specs.declared.span.Span.{Span};
ghost use Rattle.document_forms.specs.declared.error.ReadError.TheVariants.{Memory};

use crate::error::ReadError;
use crate::form::Form;
use ir_arena::arena::Arena;
use ir_arena::span::Span;
use std::alloc::{AllocError, Global};

/// A collection to which a decoder appends the items of a form, in order.
pub trait Grow<F: Form>: Drop {
    ghost items: { Self → List F.Item };

    /// Whether an item is rejected after these, for example because it is equal to one of them.
    ghost refuses: { List F.Item → F.Item → Type 0 };

    /// An empty collection with capacity for `room` items.
    fn with_room(alloc: Global, room: usize) -> Result<Self, AllocError>
        ensures { IfOk result (λ all. items all ≡ []) };

    /// Appends an item. An error other than out of memory says that it is rejected.
    fn add(&mut self, item: F::Item) -> Result<(), ReadError>
        ensures added { OnOk result (items self.new ≡ items self.old ++ item ∷ []) }
        ensures refused { IfErr result (λ e. e ≢ Memory → refuses (items self.old) item) };
}

impl<F: Form> Grow<F> for Vec<F::Item> {
    ghost items = { λ v. v.items };

    ghost refuses = { λ xs x. ⊥ };

    fn with_room(alloc: Global, room: usize) -> Result<Self, AllocError> {
        Vec::with_capacity(alloc, room)
    }

    fn add(&mut self, item: F::Item) -> Result<(), ReadError> {
        self.push(item)?;
        Ok(())
    }
}

impl<F: Form, K> Grow<F> for Arena<F::Item, K> {
    ghost items = { λ a. map (λ e. e.0) a };

    ghost refuses = { λ xs x. ⊥ };

    fn with_room(alloc: Global, room: usize) -> Result<Self, AllocError> {
        let arena = Arena::with_capacity(alloc, room)?;
        Ok(arena)
    }

    fn add(&mut self, item: F::Item) -> Result<(), ReadError> {
        self.append(item, Span::UNDEFINED)?;
        Ok(())
    }
}

// The types of a document, which are distinct.
ghost use Rattle.std.specs.Prelude.{◌≡◌, ◌∷◌, ◌++◌, [], OnOk, IfErr};

use crate::types::TypeForm;
use document_forms::{Grow, ReadError, Wanted};
use ir_arena::span::Span;
use ir_sets::unique_arena::UniqueArena;
use ir_types::{IrType, key};
use std::alloc::{AllocError, Global};

impl Grow<TypeForm> for UniqueArena<IrType, key::IrType> {
    ghost use Rattle.std.specs.Prelude.{List, map, Contains};
    ghost use Rattle.ir_types.specs.judged.Plain.{type_view};

    ghost items = { λ a. map (λ e. e.0) a };

    ghost refuses = { λ xs x. Contains (map type_view xs) (type_view x) };

    fn with_room(alloc: Global, _room: usize) -> Result<Self, AllocError> {
        Ok(UniqueArena::new(alloc))
    }

    fn add(&mut self, item: IrType) -> Result<(), ReadError> {
        let before = self.len();
        self.insert(item, Span::UNDEFINED)?;
        if self.len() == before {
            return Err(ReadError::here(Wanted::Distinct));
        }
        Ok(())
    }
}

// The JSON forms of special types.
ghost use Rattle.std.specs.Prelude.{◌≡◌, ℕ, List, option_map};
ghost use Rattle.serde_json.specs.View.{view as data_of};
ghost use Rattle.ir_kinds.specs.declared.predeclared.PredeclaredType.{PredeclaredType};
ghost use Rattle.ir_items.specs.judged.GlobalPlain.{PlainSpecialTypes};
ghost use Rattle.ir_items.specs.found.GlobalView.{special_view};
ghost use Rattle.document_items.specs.found.Special.{a_predeclared, a_pair, the_pairs, the_special};

use crate::kinds::PredeclaredKind;
use document_forms::{
    At, Form, Maybe, ReadError, Size, Wanted, WordOf, read_at, read_items, read_row, read_tag,
};
use indexmap::IndexMap;
use ir_arena::handle::Handle;
use ir_items::SpecialTypes;
use ir_kinds::{PredeclaredType, Scalar};
use ir_types::key;
use serde_json::Value;
use std::alloc::Global;

type T = At<key::IrType>;

/// The JSON form of a predeclared type.
pub struct PredeclaredForm;

impl Form for PredeclaredForm {
    type Item = PredeclaredType;

    ghost Plain = { PredeclaredType };

    ghost view = { λ p. p };

    ghost form = { a_predeclared };

    #[tactic(auto, unfolding(crate::specs::found::Special::predeclared_with))]
    fn read(alloc: Global, value: &Value) -> Result<PredeclaredType, ReadError> {
        let (kind, rest) = read_tag(value)?;
        match kind {
            PredeclaredKind::AtomicCompareExchangeWeakResult => {
                let (scalar,) = read_items::<(WordOf<Scalar>,)>(alloc, rest)?;
                Ok(PredeclaredType::AtomicCompareExchangeWeakResult(scalar))
            }
            PredeclaredKind::ModfResult => {
                let (size, scalar) = read_items::<(Maybe<Size>, WordOf<Scalar>)>(alloc, rest)?;
                Ok(PredeclaredType::ModfResult { size, scalar })
            }
            PredeclaredKind::FrexpResult => {
                let (size, scalar) = read_items::<(Maybe<Size>, WordOf<Scalar>)>(alloc, rest)?;
                Ok(PredeclaredType::FrexpResult { size, scalar })
            }
        }
    }
}

/// The JSON form of a predeclared type with the handle of that type in the module.
pub struct PairForm;

impl Form for PairForm {
    type Item = (PredeclaredType, Handle<key::IrType>);

    ghost Plain = { PredeclaredType × ℕ };

    ghost view = { λ t. t };

    ghost form = { a_pair };

    fn read(
        alloc: Global,
        value: &Value,
    ) -> Result<(PredeclaredType, Handle<key::IrType>), ReadError> {
        read_row::<(PredeclaredForm, T)>(alloc, value)
    }
}

/// The JSON form of pairs of predeclared types and handles, with distinct predeclared types. The pairs keep their order.
pub struct PairsForm;

impl Form for PairsForm {
    type Item = IndexMap<PredeclaredType, Handle<key::IrType>>;

    ghost Plain = { List (PredeclaredType × ℕ) };

    ghost view = { λ m. m.entries };

    ghost form = { the_pairs };

    #[tactic(auto, unfolding(crate::specs::found::Special::pairs_of, crate::specs::found::Special::pair_of))]
    fn read(
        alloc: Global,
        value: &Value,
    ) -> Result<IndexMap<PredeclaredType, Handle<key::IrType>>, ReadError> {
        let Some(items) = value.as_array() else {
            return Err(ReadError::here(Wanted::List));
        };
        let mut found = IndexMap::new(alloc);
        let mut index = 0usize;
        for item in items {
            let next = read_at::<PairForm>(alloc, item, index)?;
            if found.insert(next.0, next.1)?.is_some() {
                return Err(ReadError::here(Wanted::Distinct).at(index));
            }
            index = index.saturating_add(1);
        }
        Ok(found)
    }
}

/// The JSON form of the special types.
pub struct SpecialForm;

impl Form for SpecialForm {
    type Item = SpecialTypes;

    ghost Plain = { PlainSpecialTypes };

    ghost view = { special_view };

    ghost form = { the_special };

    fn read(alloc: Global, value: &Value) -> Result<SpecialTypes, ReadError> {
        let (ray_desc, ray_intersection, ray_vertex_return, predeclared_types) = read_row::<
            (Maybe<T>, Maybe<T>, Maybe<T>, PairsForm),
        >(alloc, value)?;
        Ok(SpecialTypes {
            ray_desc,
            ray_intersection,
            ray_vertex_return,
            predeclared_types,
        })
    }
}

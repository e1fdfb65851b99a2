// The JSON forms of built-ins, bindings and resource bindings.
ghost use Rattle.std.specs.Prelude.{◌≡◌, option_map};
ghost use Rattle.serde_json.specs.View.{view as data_of, items_view};
ghost use Rattle.ir_kinds.specs.declared.bindings.BuiltIn.{BuiltIn};
ghost use Rattle.ir_kinds.specs.declared.bindings.Binding.{Binding};
ghost use Rattle.ir_kinds.specs.declared.bindings.ResourceBinding.{ResourceBinding};
ghost use Rattle.document_forms.specs.found.Answers.{Answers};
ghost use Rattle.document_items.specs.found.Types.{marked_of, a_built_in, a_binding, a_resource};

use crate::kinds::BindingKind;
use document_forms::{
    End, Form, Maybe, ReadError, Row, Truth, U32, Wanted, WordOf, read_items, read_row, read_tag,
};
use document_words::find_word;
use ir_kinds::{Binding, BuiltIn, Interpolation, ResourceBinding, Sampling};
use serde_json::Value;
use std::alloc::Global;

// Decodes a built-in that has a bool after its word; the bool has the index `index`.
fn marked(alloc: Global, word: &str, rest: &[Value], index: usize) -> Result<BuiltIn, ReadError>
    ensures { Answers result (λ found. found ≡ marked_of word.now (items_view rest.now)) }
{
    if word == "Position" {
        let (invariant,) = <(Truth,) as Row>::read(alloc, rest, index.saturating_add(1))?;
        Ok(BuiltIn::Position { invariant })
    } else if word == "Barycentric" {
        let (perspective,) = <(Truth,) as Row>::read(alloc, rest, index.saturating_add(1))?;
        Ok(BuiltIn::Barycentric { perspective })
    } else {
        Err(ReadError::here(Wanted::BuiltIn).at(index))
    }
}

/// The JSON form of a built-in: its word, for two built-ins followed by a bool.
pub struct BuiltInRow;

impl Row for BuiltInRow {
    type Items = BuiltIn;

    ghost Plain = { BuiltIn };

    ghost view = { λ b. b };

    ghost form = { a_built_in };

    #[tactic(auto, unfolding(crate::specs::found::Types::built_in_of))]
    fn read(alloc: Global, items: &[Value], index: usize) -> Result<BuiltIn, ReadError> {
        let Some((item, rest)) = items.split_first() else {
            return Err(ReadError::here(Wanted::BuiltIn).at(index));
        };
        let Some(word) = item.as_str() else {
            return Err(ReadError::here(Wanted::BuiltIn).at(index));
        };
        match find_word(word) {
            Some(built_in) => {
                End::read(alloc, rest, index.saturating_add(1))?;
                Ok(built_in)
            }
            None => marked(alloc, word, rest, index),
        }
    }
}

/// The JSON form of a binding.
pub struct BindingForm;

impl Form for BindingForm {
    type Item = Binding;

    ghost Plain = { Binding };

    ghost view = { λ b. b };

    ghost form = { a_binding };

    #[tactic(auto, unfolding(crate::specs::found::Types::binding_with))]
    fn read(alloc: Global, value: &Value) -> Result<Binding, ReadError> {
        let (kind, rest) = read_tag(value)?;
        match kind {
            BindingKind::BuiltIn => {
                let built_in = read_items::<BuiltInRow>(alloc, rest)?;
                Ok(Binding::BuiltIn(built_in))
            }
            BindingKind::Location => {
                let (location, interpolation, sampling, blend_src, per_primitive) = read_items::<
                    LocationRow,
                >(alloc, rest)?;
                Ok(Binding::Location {
                    location,
                    interpolation,
                    sampling,
                    blend_src,
                    per_primitive,
                })
            }
        }
    }
}

type LocationRow = (
    U32,
    Maybe<WordOf<Interpolation>>,
    Maybe<WordOf<Sampling>>,
    Maybe<U32>,
    Truth,
);

/// The JSON form of a resource binding: the group and the binding number.
pub struct ResourceForm;

impl Form for ResourceForm {
    type Item = ResourceBinding;

    ghost Plain = { ResourceBinding };

    ghost view = { λ r. r };

    ghost form = { a_resource };

    fn read(alloc: Global, value: &Value) -> Result<ResourceBinding, ReadError> {
        let (group, binding) = read_row::<(U32, U32)>(alloc, value)?;
        Ok(ResourceBinding { group, binding })
    }
}

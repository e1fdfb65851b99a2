// The JSON forms of constants, overrides and global variables.
ghost use Rattle.std.specs.Prelude.{◌≡◌, option_map};
ghost use Rattle.ir_items.specs.judged.GlobalPlain.{PlainConstant, PlainOverride, PlainGlobal};
ghost use Rattle.ir_items.specs.found.GlobalView.{constant_view, override_view, global_view};
ghost use Rattle.document_items.specs.found.Items.{a_constant, an_override, a_global};

use crate::bindings::ResourceForm;
use crate::spaces::SpaceForm;
use document_forms::{At, Form, Maybe, ReadError, SetOf, Text, U16, read_row};
use ir_flags::MemoryDecorations;
use ir_items::{Constant, GlobalVariable, Override};
use ir_types::key;
use serde_json::Value;
use std::alloc::Global;

type T = At<key::IrType>;

type E = At<key::Expression>;

/// The JSON form of a constant.
pub struct ConstantForm;

impl Form for ConstantForm {
    type Item = Constant;

    ghost Plain = { PlainConstant };

    ghost view = { constant_view };

    ghost form = { a_constant };

    fn read(alloc: Global, value: &Value) -> Result<Constant, ReadError> {
        let (name, ty, init) = read_row::<(Maybe<Text>, T, E)>(alloc, value)?;
        Ok(Constant { name, ty, init })
    }
}

/// The JSON form of an override.
pub struct OverrideForm;

impl Form for OverrideForm {
    type Item = Override;

    ghost Plain = { PlainOverride };

    ghost view = { override_view };

    ghost form = { an_override };

    fn read(alloc: Global, value: &Value) -> Result<Override, ReadError> {
        let (name, id, ty, init) = read_row::<(Maybe<Text>, Maybe<U16>, T, Maybe<E>)>(
            alloc, value,
        )?;
        Ok(Override { name, id, ty, init })
    }
}

/// The JSON form of a global variable.
pub struct GlobalForm;

type GlobalRow = (
    Maybe<Text>,
    SpaceForm,
    Maybe<ResourceForm>,
    T,
    Maybe<E>,
    SetOf<MemoryDecorations>,
);

impl Form for GlobalForm {
    type Item = GlobalVariable;

    ghost Plain = { PlainGlobal };

    ghost view = { global_view };

    ghost form = { a_global };

    fn read(alloc: Global, value: &Value) -> Result<GlobalVariable, ReadError> {
        let (name, space, binding, ty, init, memory_decorations) = read_row::<GlobalRow>(
            alloc, value,
        )?;
        Ok(GlobalVariable {
            name,
            space,
            binding,
            ty,
            init,
            memory_decorations,
        })
    }
}

//! Literals, constants, overrides and zero values.

ghost use Rattle.std.specs.Prelude.{◌≡◌, ◌<◌, List, length, map, option_map, slice_get};
ghost use Rattle.ir_items.specs.found.GlobalView.{values_of, constant_view, override_view};
ghost use Rattle.ir_kinds.specs.judged.Values.{literal_scalar};
ghost use Rattle.ir_types.specs.judged.Plain.{PlainType};
ghost use Rattle.typing_forms.specs.declared.form.Form.TheVariants as form;
ghost use Rattle.spec_expressions.specs.judged.Context.{form_if};
ghost use Rattle.typing_errors.specs.Answers.{form_given};

use ir_arena::arena::Arena;
use ir_arena::handle::Handle;
use ir_items::{Constant, Override};
use ir_kinds::Literal;
use ir_types::{LiteralExt, key};
use typing_forms::TypeResolution;

// The type of a literal: its scalar.
pub(crate) fn literal_type(value: Literal) -> TypeResolution
    ensures { (types : List PlainType) → form_given types result ≡ form.Scalar (literal_scalar value) }
{
    TypeResolution::Value(value.ty_inner())
}

// The type of a constant: the declared one.
#[tactic(auto, using(ir_items::proofs::Lookups::found))]
pub(crate) fn constant_type(
    constants: &Arena<Constant, key::Constant>,
    constant: Handle<key::Constant>,
) -> TypeResolution
    requires { constant < length constants.now }
    ensures { (types : List PlainType) → form_given types result
        ≡ form_if types (option_map (λ k. k.ty) (slice_get (map constant_view (values_of constants.now)) constant)) }
{
    TypeResolution::Handle(constants[constant].ty)
}

// The type of an override: the declared one.
#[tactic(auto, using(ir_items::proofs::Lookups::found))]
pub(crate) fn override_type(
    overrides: &Arena<Override, key::Override>,
    id: Handle<key::Override>,
) -> TypeResolution
    requires { id < length overrides.now }
    ensures { (types : List PlainType) → form_given types result
        ≡ form_if types (option_map (λ o. o.ty) (slice_get (map override_view (values_of overrides.now)) id)) }
{
    TypeResolution::Handle(overrides[id].ty)
}

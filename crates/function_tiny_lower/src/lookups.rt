//! The types of declarations: arguments, and the results of functions.

ghost use Rattle.std.specs.Prelude.{◌≡◌, map, option_map, slice_get};
ghost use Rattle.ir_items.specs.found.View.{argument_view, function_view, module_view};
ghost use Rattle.function_tiny_lower.specs.Typing.{answer_of, answer_type, argument_type, type_at};
ghost use Rattle.typing_forms.specs.judged.Resolutions.{types_view};

use crate::value_type::{ValueType, type_of_inner};
use ir_arena::handle::Handle;
use ir_items::{Function, FunctionArgument, FunctionResult, Module};
use ir_sets::unique_arena::UniqueArena;
use ir_types::{IrType, key};
use typing_forms::inner_of;

/// The value type of the type at a handle.
pub(crate) fn type_at(
    types: &UniqueArena<IrType, key::IrType>,
    ty: Handle<key::IrType>,
) -> Option<ValueType>
    ensures { result ≡ type_at (types_view types.now) ty }
{
    match inner_of(types, ty) {
        Some(inner) => type_of_inner(inner),
        None => None,
    }
}

/// The type of one of these arguments.
pub(crate) fn argument_type(
    types: &UniqueArena<IrType, key::IrType>,
    arguments: &[FunctionArgument],
    place: u32,
) -> Option<ValueType>
    ensures { result ≡ argument_type (types_view types.now) (slice_get (map argument_view arguments.now) place) }
{
    match arguments.get(place as usize) {
        Some(argument) => type_at(types, argument.ty),
        None => None,
    }
}

// The function at a handle, if it exists.
#[tactic(auto, using(typing_references::proofs::Entries::entries))]
fn function_at(module: &Module, function: Handle<key::Function>) -> Option<&Function>
    ensures { option_map (λ f. function_view f.now) result ≡ slice_get (module_view «module».now).functions function }
{
    match module.functions.try_get(function) {
        Ok(found) => Some(found),
        Err(_) => None,
    }
}

// The declared result of a function.
fn answer_of(module: &Module, function: Handle<key::Function>) -> Option<FunctionResult>
    ensures { result ≡ answer_of (slice_get (module_view «module».now).functions function) }
{
    match function_at(module, function) {
        Some(found) => found.result,
        None => None,
    }
}

/// The type of a function's result.
pub(crate) fn answer_type(module: &Module, function: Handle<key::Function>) -> Option<ValueType>
    ensures { result ≡ answer_type (module_view «module».now).types (slice_get (module_view «module».now).functions function) }
{
    match answer_of(module, function) {
        Some(answer) => type_at(&module.types, answer.ty),
        None => None,
    }
}

//! Types and initializers of referenced items, and forward dependencies.

ghost use Rattle.std.specs.Prelude.{◌≡◌, option_map, option_and_then, slice_get};
ghost use Rattle.ir_types.specs.judged.ExpressionPlain.{expression_view};
ghost use Rattle.ir_items.specs.found.GlobalView.{constant_view, override_view};
ghost use Rattle.ir_items.specs.found.View.{module_view};
ghost use Rattle.module_handles.specs.LookupFound.{type_of, init_of, forward};
ghost use Rattle.spec_expressions.specs.judged.ExpressionNames.{expression_item};

use ir_arena::handle::Handle;
use ir_items::{Constant, Expression, Module, Override, key};
use spec_expressions::{ItemKind, Target};
use typing_references::{HandleFault, item_of};

// The constant at a handle, if it exists.
#[tactic(auto, using(typing_references::proofs::Entries::entries))]
fn constant_at(module: &Module, handle: Handle<key::Constant>) -> Option<&Constant>
    ensures { option_map (λ x. constant_view x.now) result ≡ slice_get (module_view «module».now).constants handle }
{
    match module.constants.try_get(handle) {
        Ok(constant) => Some(constant),
        Err(_) => None,
    }
}

// The override at a handle, if it exists.
#[tactic(auto, using(typing_references::proofs::Entries::entries))]
fn override_at(module: &Module, handle: Handle<key::Override>) -> Option<&Override>
    ensures { option_map (λ x. override_view x.now) result ≡ slice_get (module_view «module».now).overrides handle }
{
    match module.overrides.try_get(handle) {
        Ok(found) => Some(found),
        Err(_) => None,
    }
}

/// The index of a handle.
pub fn place_of<K>(handle: Option<Handle<K>>) -> Option<usize>
    ensures { result ≡ handle }
{
    match handle {
        Some(handle) => Some(handle.index()),
        None => None,
    }
}

/// The type of an item.
pub fn type_of(module: &Module, item: Target) -> Option<Handle<key::IrType>>
    ensures { result ≡ type_of (module_view «module».now) item }
{
    match item {
        Target::Type(handle) => Some(handle),
        Target::Constant(handle) => match constant_at(module, handle) {
            Some(constant) => Some(constant.ty),
            None => None,
        },
        Target::Override(handle) => match override_at(module, handle) {
            Some(found) => Some(found.ty),
            None => None,
        },
        Target::GlobalVariable(_)
        | Target::LocalVariable(_)
        | Target::Function(_)
        | Target::DiagnosticFilter(_) => None,
    }
}

/// The initializer of a constant or an override.
pub fn init_of(module: &Module, item: Target) -> Option<Handle<key::Expression>>
    ensures { result ≡ init_of (module_view «module».now) item }
{
    match item {
        Target::Constant(handle) => match constant_at(module, handle) {
            Some(constant) => Some(constant.init),
            None => None,
        },
        Target::Override(handle) => match override_at(module, handle) {
            Some(found) => found.init,
            None => None,
        },
        Target::Type(_)
        | Target::GlobalVariable(_)
        | Target::LocalVariable(_)
        | Target::Function(_)
        | Target::DiagnosticFilter(_) => None,
    }
}

/// The type that a global expression references, or that of the constant or override which it references.
pub fn type_named(module: &Module, expression: &Expression) -> Option<usize>
    ensures { result ≡ option_and_then (type_of (module_view «module».now)) (expression_item (expression_view expression.now)) }
{
    match item_of(expression) {
        Some(item) => place_of(type_of(module, item)),
        None => None,
    }
}

/// The initializer of the constant or override that a global expression references.
pub fn init_named(module: &Module, expression: &Expression) -> Option<usize>
    ensures { result ≡ option_and_then (init_of (module_view «module».now)) (expression_item (expression_view expression.now)) }
{
    match item_of(expression) {
        Some(item) => place_of(init_of(module, item)),
        None => None,
    }
}

/// The error of an item whose dependency does not precede it.
pub fn forward(kind: ItemKind, index: usize, depends_on: Option<usize>) -> Option<HandleFault>
    ensures { result ≡ option_and_then (forward kind index) depends_on }
{
    match depends_on {
        Some(depends_on) => if depends_on < index {
            None
        } else {
            Some(HandleFault::Forward {
                kind,
                index,
                depends_on,
            })
        },
        None => None,
    }
}

//! Whether the functions that a function refers to come before it.

ghost use Rattle.std.specs.Prelude.{◌↔◌, IsTrue};
ghost use Rattle.ir_items.specs.found.View.{function_view};
ghost use Rattle.spec_expressions.specs.judged.FunctionHandles.{CalleesPrecede};

use ir_items::{Function, Module};
use typing_references::forward_callee;

/// Whether each function that the function refers to, by a call or by a call result, is one of the first
/// `before` functions of its module: for a function those before it, for an entry point all.
pub fn callees_precede(function: &Function, _module: &Module, before: usize) -> bool
    ensures { IsTrue result ↔ CalleesPrecede before (function_view function.now) }
{
    match forward_callee(function, before) {
        Some(_) => false,
        None => true,
    }
}

//! Whether the items that a function refers to exist.

ghost use Rattle.std.specs.Prelude.{◌↔◌, IsTrue};
ghost use Rattle.ir_items.specs.found.View.{function_view, module_view};
ghost use Rattle.spec_expressions.specs.judged.FunctionHandles.{HandlesInRange};

use ir_items::{Function, Module};
use typing_references::missing_in_function;

/// Whether each handle and each range of the function refers to existing items: the types of its arguments, its result
/// and its variables, the variables' initializers, its diagnostic filter, and the items that its expressions and statements
/// refer to, result expressions included. Handles are not followed.
pub fn handles_in_range(function: &Function, module: &Module) -> bool
    ensures { IsTrue result ↔ HandlesInRange (module_view «module».now) (function_view function.now) }
{
    match missing_in_function(function, module) {
        Some(_) => false,
        None => true,
    }
}

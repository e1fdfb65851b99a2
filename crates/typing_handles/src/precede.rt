//! Whether the operands of expressions come before them.

ghost use Rattle.std.specs.Prelude.{◌↔◌, IsTrue};
ghost use Rattle.ir_items.specs.found.View.{function_view};
ghost use Rattle.spec_expressions.specs.judged.FunctionHandles.{OperandsPrecede};

use ir_items::{Function, Module};
use typing_references::forward_operand;

/// Whether the operands of each expression of the function come before it.
pub fn operands_precede(function: &Function, _module: &Module) -> bool
    ensures { IsTrue result ↔ OperandsPrecede ((function_view function.now).expressions) }
{
    match forward_operand(&function.expressions) {
        Some(_) => false,
        None => true,
    }
}

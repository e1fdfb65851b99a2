//! Handles of global expressions.

ghost use Rattle.std.specs.Prelude.{◌≡◌, option_and_then};
ghost use Rattle.std.specs.Option.{MatchOption};
ghost use Rattle.ir_types.specs.judged.ExpressionPlain.{expression_view};
ghost use Rattle.ir_items.specs.found.View.{module_view};
ghost use Rattle.module_handles.specs.Found.{named_missing, init_forward};
ghost use Rattle.module_handles.specs.InOrder.{IsFaultIn, GlobalExpressionsOK};

use crate::lists::{ItemCheck, fault_of_values};
use crate::{forward, init_named};
use ir_items::{Expression, Module};
use spec_expressions::ItemKind;
use typing_references::{Bounds, HandleFault, item_of};

fn named_missing(expression: &Expression, bounds: &Bounds) -> Option<HandleFault>
    ensures { result ≡ named_missing bounds.now (expression_view expression.now) }
{
    bounds.missing_if(item_of(expression))
}

// The error of the initializer of the constant or the override that a global expression references, if it does not precede
// the expression.
fn init_forward(module: &Module, expression: &Expression, index: usize) -> Option<HandleFault>
    ensures { result ≡ init_forward (module_view «module».now) index (expression_view expression.now) }
{
    forward(ItemKind::Expression, index, init_named(module, expression))
}

// The global expressions of a module.
#[derive(Drop)]
struct Globals<'a> {
    module: &'a Module,
}

impl ItemCheck<Expression> for Globals<'_> {
    ghost use Rattle.ir_types.specs.judged.ExpressionPlain.{expression_view};
    ghost use Rattle.ir_items.specs.found.View.{module_view};
    ghost use Rattle.module_handles.specs.InOrder.{GlobalExpressionOK, IsGlobalExpressionFault};

    ghost passes = { λ t e x. GlobalExpressionOK (module_view t.«module».now) e (expression_view x) };

    ghost fails = { λ t e x h. IsGlobalExpressionFault (module_view t.«module».now) e (expression_view x) h };

    fn check(&self, index: usize, expression: &Expression) -> Option<HandleFault> {
        if let Some(fault) = named_missing(expression, &Bounds::outside_functions(self.module)) {
            return Some(fault);
        }
        init_forward(self.module, expression, index)
    }
}

/// The error of a handle of a global expression, operands aside, if it is out of bounds, or if the initializer of the item does
/// not precede the expression.
pub(crate) fn fault_of_expressions(module: &Module) -> Option<HandleFault>
    ensures { MatchOption result (GlobalExpressionsOK (module_view «module».now)) (IsFaultIn (module_view «module».now)) }
{
    let globals = Globals { module };
    fault_of_values(&globals, &module.global_expressions)
}

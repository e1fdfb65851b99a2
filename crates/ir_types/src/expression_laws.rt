// Laws of the views of expressions.
ghost use Rattle.ir_types.specs.judged.ExpressionPlain.{expression_view};
ghost use Rattle.ir_types.specs.found.ExpressionViews.{HoldsNoComposition};

use crate::expressions::Expression;

/// The view of an expression is never a `Compose` as it is, because a `Compose` is viewed by its components.
#[tactic(auto, using(crate::specs::found::ExpressionViews::holds_no_composition))]
pub fn no_composition_is_held(expression: &Expression)
    ensures { HoldsNoComposition (expression_view expression.now) }
{
    let _ = expression;
}

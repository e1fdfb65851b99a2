//! Result expressions of statements.

ghost use Rattle.std.specs.Prelude.{◌≡◌, ◌↔◌, IsTrue, MatchResult, Some, true, slice_get};
ghost use Rattle.function_interface.specs.Answered.{Stands, AllAnswered, IsUnansweredFault};
ghost use Rattle.ir_types.specs.judged.ExpressionPlain.{expression_view};
ghost use Rattle.ir_items.specs.found.View.{function_view};

use ir_arena::handle::Handle;
use ir_items::Function;
use ir_types::Expression;
use typing_errors::FunctionError;

// Whether an expression is the result of a call or an atomic operation.
const fn stands_for_answer(expression: &Expression) -> bool
    ensures { IsTrue result ↔ Stands (expression_view expression.now) }
{
    match *expression {
        Expression::CallResult(_) | Expression::AtomicResult { .. } => true,
        Expression::Literal(_)
        | Expression::Constant(_)
        | Expression::Override(_)
        | Expression::ZeroValue(_)
        | Expression::Compose { .. }
        | Expression::Access { .. }
        | Expression::AccessIndex { .. }
        | Expression::Splat { .. }
        | Expression::Swizzle { .. }
        | Expression::FunctionArgument(_)
        | Expression::GlobalVariable(_)
        | Expression::LocalVariable(_)
        | Expression::Load { .. }
        | Expression::ImageSample { .. }
        | Expression::ImageLoad { .. }
        | Expression::ImageQuery { .. }
        | Expression::Unary { .. }
        | Expression::Binary { .. }
        | Expression::Select { .. }
        | Expression::Derivative { .. }
        | Expression::Relational { .. }
        | Expression::Math { .. }
        | Expression::As { .. }
        | Expression::WorkGroupUniformLoadResult { .. }
        | Expression::ArrayLength(_)
        | Expression::RayQueryVertexPositions { .. }
        | Expression::RayQueryProceedResult
        | Expression::RayQueryGetIntersection { .. }
        | Expression::SubgroupBallotResult
        | Expression::SubgroupOperationResult { .. }
        | Expression::CooperativeLoad { .. }
        | Expression::CooperativeMultiplyAdd { .. } => false,
    }
}

// Whether an expression is the result of a statement, if it is a result expression.
fn is_answered(expression: &Expression, answered: &[bool], index: usize) -> bool
    ensures { IsTrue result ↔ (Stands (expression_view expression.now) → slice_get answered.now index ≡ Some true) }
{
    if !stands_for_answer(expression) {
        return true;
    }
    match answered.get(index) {
        Some(answered) => *answered,
        None => false,
    }
}

/// Whether each result of a call or an atomic operation belongs to a statement (the last part of naga's `validate_function`).
/// `answered` has this for each expression.
///
/// # Errors
///
/// [`FunctionError::UnvisitedExpression`] for the first that does not.
pub fn check_answered(function: &Function, answered: &[bool]) -> Result<(), FunctionError>
    ensures { MatchResult result
        (λ _. AllAnswered (function_view function.now).expressions answered.now)
        (IsUnansweredFault (function_view function.now).expressions answered.now) }
{
    let expressions = &function.expressions;
    for index in 0..expressions.len() {
        let handle = Handle::at(index);
        if !is_answered(&expressions[handle], answered, index) {
            return Err(FunctionError::UnvisitedExpression(handle));
        }
    }
    Ok(())
}

//! Which expressions of a function are results of statements.

ghost use Rattle.std.specs.Prelude.{◌≡◌, ◌<◌, IfOk};
ghost use Rattle.ir_items.specs.found.View.{function_view};
ghost use Rattle.ir_types.specs.judged.ExpressionPlain.{expression_view};
ghost use Rattle.function_statement_checks.specs.Emits.{is_answer, AreAnswers};

use ir_arena::handle::Handle;
use ir_items::{Expression, Function};
use ir_sets::next::{PlaceTest, next_passing};
use std::alloc::{AllocError, Global};

// Whether an expression is the result of a statement, and so can't be emitted.
fn is_answer(expression: &Expression) -> bool
    ensures { result ≡ is_answer (expression_view expression.now) }
{
    match *expression {
        Expression::CallResult(_)
        | Expression::AtomicResult { .. }
        | Expression::WorkGroupUniformLoadResult { .. }
        | Expression::RayQueryProceedResult
        | Expression::SubgroupBallotResult
        | Expression::SubgroupOperationResult { .. } => true,
        Expression::Literal(_)
        | Expression::Constant(_)
        | Expression::Override(_)
        | Expression::ZeroValue(_)
        | Expression::Compose { .. }
        | Expression::Access { .. }
        | Expression::AccessIndex { .. }
        | Expression::Splat { .. }
        | Expression::Swizzle { .. }
        | Expression::FunctionArgument(_)
        | Expression::GlobalVariable(_)
        | Expression::LocalVariable(_)
        | Expression::Load { .. }
        | Expression::ImageSample { .. }
        | Expression::ImageLoad { .. }
        | Expression::ImageQuery { .. }
        | Expression::Unary { .. }
        | Expression::Binary { .. }
        | Expression::Select { .. }
        | Expression::Derivative { .. }
        | Expression::Relational { .. }
        | Expression::Math { .. }
        | Expression::As { .. }
        | Expression::ArrayLength(_)
        | Expression::RayQueryVertexPositions { .. }
        | Expression::RayQueryGetIntersection { .. }
        | Expression::CooperativeLoad { .. }
        | Expression::CooperativeMultiplyAdd { .. } => false,
    }
}

// Whether an expression of a function is the result of a statement.
#[derive(Drop)]
struct AnswerTest<'a> {
    function: &'a Function,
}

impl PlaceTest for AnswerTest<'_> {
    ghost use Rattle.ir_items.specs.found.View.{function_view};
    ghost use Rattle.function_statement_checks.specs.Emits.{is_answer_at};

    ghost passes = { λ t. is_answer_at (function_view t.function.now).expressions };

    #[tactic(auto, using(ir_items::proofs::Lookups::found, ir_items::proofs::Lookups::missing))]
    fn passes(&self, place: usize) -> bool {
        match self.function.expressions.try_get(Handle::at(place)) {
            Ok(expression) => is_answer(expression),
            Err(_) => false,
        }
    }
}

/// For each expression of a function the first from it on that is the result of a statement, or their number if there is none.
///
/// # Errors
///
/// `AllocError` if out of memory.
pub fn next_answers(alloc: Global, function: &Function) -> Result<Vec<u32>, AllocError>
    ensures { IfOk result (λ next. AreAnswers (function_view function.now).expressions next.items) }
{
    let test = AnswerTest { function };
    next_passing(alloc, function.expressions.len(), &test)
}

//! Whether each result expression belongs to a statement.

ghost use Rattle.std.specs.Prelude.{◌≡◌, ◌↔◌, ◌<◌, ◌≤◌, ℕ, Contains, IfOk, MatchResult, Some, length, slice_get, true};
ghost use Rattle.function_whole.specs.Faults.{IsUnanswered};
ghost use Rattle.function_whole.specs.Judged.{AllAnswer};
ghost use Rattle.function_interface.specs.Analysis.{IsRefusedFor};
ghost use Rattle.ir_blocks.specs.judged.Places.{Place};
ghost use Rattle.spec_statements.specs.judged.Results.{AnswersBy};
ghost use Rattle.function_statement_checks.specs.View.{context_view};

use function_body_checks::ExpressionList;
use function_interface::check_answered;
use function_statement_checks::BlockContext;
use ir_arena::handle::Handle;
use ir_types::refusal::Refusal;
use ir_types::with_span::WithSpan;
use std::alloc::{AllocError, Global};
use typing_errors::FunctionError;

// For each of this many expressions, whether it is among these. The error is out of memory.
fn marks_of(alloc: Global, answered: &ExpressionList, count: usize) -> Result<Vec<bool>, AllocError>
    requires { count ≤ 4294967295 }
    ensures many { IfOk result (λ marks. length marks.items ≡ count) }
    ensures each { IfOk result (λ marks. (e : ℕ) → e < count → (slice_get marks.items e ≡ Some true) ↔ Contains answered.now e) }
{
    let mut marks = Vec::with_capacity(alloc, count)?;
    for index in 0..count {
        marks.push(answered.contains(Handle::at(index)))?;
    }
    Ok(marks)
}

/// Whether each result of a call or an atomic operation belongs to a statement. `answered` has all that do.
///
/// # Errors
///
/// [`FunctionError::UnvisitedExpression`] for the first that does not; or out of memory.
pub(crate) fn check_answers(
    alloc: Global,
    context: &BlockContext<'_>,
    answered: &ExpressionList,
) -> Result<(), Refusal<FunctionError>>
    requires { (e : ℕ) → Contains answered.now e ↔ ((p : Place) × AnswersBy (context_view context.now).f.body p e) }
    ensures { MatchResult result
        (λ _. AllAnswer (context_view context.now))
        (IsRefusedFor (IsUnanswered (context_view context.now).f)) }
{
    let marks = match marks_of(alloc, answered, context.function.expressions.len()) {
        Ok(marks) => marks,
        Err(error) => return Err(Refusal::Memory(error)),
    };
    match check_answered(context.function, &marks) {
        Ok(()) => Ok(()),
        Err(error) => Err(Refusal::Fault(WithSpan::new(alloc, error))),
    }
}

//! Expressions that are emitted.

ghost use Rattle.std.specs.Prelude.{List, MatchResult};
ghost use Rattle.ir_types.specs.judged.ExpressionPlain.{PlainExpression};
ghost use Rattle.spec_statements.specs.judged.Emits.{EmitOK};
ghost use Rattle.function_statement_checks.specs.Emits.{AreAnswers, IsAnswerOf, IsEmitFault};

use crate::context::StatementContext;
use ir_arena::handle::Handle;
use ir_arena::range::Range;
use ir_sets::next::first_passing;
use ir_types::key;
use typing_errors::FunctionError;

// The first expression of a range that is the result of a statement, given for each expression the first from it on that is.
pub(crate) fn answer_of(
    answers: &[u32],
    range: Range<key::Expression>,
) -> Option<Handle<key::Expression>>
    ensures { (expressions : List PlainExpression) → AreAnswers expressions answers.now → IsAnswerOf expressions range result }
{
    let bounds = range.index_range();
    match first_passing(answers, bounds.start as usize, bounds.end as usize) {
        Some(place) => Some(Handle::at(place)),
        None => None,
    }
}

/// Whether no expression of an emitted range is the result of a statement.
///
/// # Errors
///
/// [`FunctionError::EmitResult`] for one that is.
pub fn check_emit<C: StatementContext>(
    context: &C,
    range: Range<key::Expression>,
) -> Result<(), FunctionError>
    requires { C.known context.now }
    ensures { MatchResult result
        (λ _. EmitOK (C.seen context.now).f.expressions range.0 range.1)
        (IsEmitFault (C.seen context.now) range.0 range.1) }
{
    match context.answer_of(range) {
        Some(handle) => Err(FunctionError::EmitResult(handle)),
        None => Ok(()),
    }
}

//! The kinds of result expressions.

ghost use Rattle.std.specs.Prelude.{◌≡◌, ℕ, List, IfErr, OnOk, slice_get};
ghost use Rattle.ir_blocks.specs.judged.Places.{statement as spot};
ghost use Rattle.ir_blocks.specs.found.View.{statement_view};
ghost use Rattle.ir_items.specs.found.View.{function_view};
ghost use Rattle.spec_expressions.specs.judged.Kinds.{ray_result};
ghost use Rattle.function_strict_scope.specs.Tables.{proceeds_by, ballots_by, is_proceed, is_ballot};
ghost use Rattle.function_strict_scope.specs.Walked.{AnswerKindOK, IfFault, IsFaultHere};

use crate::error::StrictError;
use ir_arena::handle::Handle;
use ir_items::{Expression, Function, RayQueryFunction, Statement, key};

// The result expressions of a statement that must have a kind of their own.
#[derive(Clone, Copy)]
struct Answers {
    // The result of a `Proceed`.
    proceed: Option<Handle<key::Expression>>,
    // The result of a ballot.
    ballot: Option<Handle<key::Expression>>,
}

// None.
const NONE: Answers = Answers {
    proceed: None,
    ballot: None,
};

// The result of an operation on a ray query, if it is a `Proceed`.
fn proceed_of(fun: &RayQueryFunction) -> Option<Handle<key::Expression>>
    ensures { result ≡ ray_result fun.now }
{
    match fun {
        RayQueryFunction::Proceed { result: answer } => Some(*answer),
        RayQueryFunction::Initialize { .. }
        | RayQueryFunction::GenerateIntersection { .. }
        | RayQueryFunction::ConfirmIntersection
        | RayQueryFunction::Terminate => None,
    }
}

// The result expressions of a statement.
fn answers_of(statement: &Statement) -> Answers
    ensures proceed { result.proceed ≡ proceeds_by (statement_view statement.now) }
    ensures ballot { result.ballot ≡ ballots_by (statement_view statement.now) }
{
    match statement {
        Statement::RayQuery { fun, .. } => Answers {
            proceed: proceed_of(fun),
            ..NONE
        },
        Statement::SubgroupBallot { result: answer, .. } => Answers {
            ballot: Some(*answer),
            ..NONE
        },
        Statement::Emit(_)
        | Statement::Block(_)
        | Statement::If { .. }
        | Statement::Switch { .. }
        | Statement::Loop { .. }
        | Statement::Break
        | Statement::Continue
        | Statement::Return { .. }
        | Statement::Kill
        | Statement::Call { .. }
        | Statement::ControlBarrier(_)
        | Statement::MemoryBarrier(_)
        | Statement::Store { .. }
        | Statement::ImageStore { .. }
        | Statement::Atomic { .. }
        | Statement::ImageAtomic { .. }
        | Statement::WorkGroupUniformLoad { .. }
        | Statement::SubgroupCollectiveOperation { .. }
        | Statement::SubgroupGather { .. }
        | Statement::CooperativeStore { .. }
        | Statement::RayPipelineFunction(_) => NONE,
    }
}

// Whether the expression at a handle is a `RayQueryProceedResult`.
#[tactic(auto, using(typing_references::proofs::Entries::entries))]
fn is_proceed_result(function: &Function, handle: Handle<key::Expression>) -> bool
    ensures { result ≡ is_proceed (slice_get (function_view function.now).expressions handle) }
{
    match function.expressions.try_get(handle) {
        Ok(expression) => matches!(expression, Expression::RayQueryProceedResult),
        Err(_) => false,
    }
}

// The same for a ballot.
#[tactic(auto, using(typing_references::proofs::Entries::entries))]
fn is_ballot_result(function: &Function, handle: Handle<key::Expression>) -> bool
    ensures { result ≡ is_ballot (slice_get (function_view function.now).expressions handle) }
{
    match function.expressions.try_get(handle) {
        Ok(expression) => matches!(expression, Expression::SubgroupBallotResult),
        Err(_) => false,
    }
}

/// Whether the result of a `Proceed` or of a ballot has its own kind.
pub fn check_answer(function: &Function, statement: &Statement) -> Result<(), StrictError>
    ensures kind { OnOk result (AnswerKindOK (function_view function.now) (statement_view statement.now)) }
    ensures fault { IfErr result (λ r. IfFault r (λ e. (sure : List ℕ) → IsFaultHere (function_view function.now) (spot (statement_view statement.now)) sure e)) }
{
    let answers = answers_of(statement);
    if let Some(handle) = answers.proceed {
        if !is_proceed_result(function, handle) {
            return Err(StrictError::OtherAnswer(handle));
        }
    }
    if let Some(handle) = answers.ballot {
        if !is_ballot_result(function, handle) {
            return Err(StrictError::OtherAnswer(handle));
        }
    }
    Ok(())
}

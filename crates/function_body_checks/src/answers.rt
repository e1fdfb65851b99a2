//! Results of calls and atomic operations.

ghost use Rattle.std.specs.Prelude.{◌≡◌, ℕ, Bool, List, IfErr, OnOk, Some};
ghost use Rattle.ir_blocks.specs.judged.Places.{statement as spot};
ghost use Rattle.ir_blocks.specs.found.View.{statement_view};
ghost use Rattle.ir_items.specs.judged.Plain.{PlainFunction};
ghost use Rattle.function_body_checks.specs.Carried.{IfFault, IsAgain, IsFaultHere, IsNoted};
ghost use Rattle.spec_statements.specs.judged.Results.{answer_of};

use crate::error::ScopeError;
use crate::list::ExpressionList;
use ir_arena::handle::Handle;
use ir_items::{Statement, key};
use typing_references::callee_of;

// The result of a call or an atomic operation.
fn answer_of(statement: &Statement) -> Option<Handle<key::Expression>>
    ensures { result ≡ answer_of (statement_view statement.now) }
{
    match statement {
        Statement::Atomic { result: answer, .. } | Statement::Call { result: answer, .. } => {
            *answer
        }
        Statement::Emit(_)
        | Statement::Block(_)
        | Statement::If { .. }
        | Statement::Switch { .. }
        | Statement::Loop { .. }
        | Statement::Break
        | Statement::Continue
        | Statement::Return { .. }
        | Statement::Kill
        | Statement::ControlBarrier(_)
        | Statement::MemoryBarrier(_)
        | Statement::Store { .. }
        | Statement::ImageStore { .. }
        | Statement::ImageAtomic { .. }
        | Statement::WorkGroupUniformLoad { .. }
        | Statement::RayQuery { .. }
        | Statement::SubgroupBallot { .. }
        | Statement::SubgroupCollectiveOperation { .. }
        | Statement::SubgroupGather { .. }
        | Statement::CooperativeStore { .. }
        | Statement::RayPipelineFunction(_) => None,
    }
}

// The fault of a result that another statement has as well.
fn populated(statement: &Statement, handle: Handle<key::Expression>) -> ScopeError
    ensures { (asked : Bool) (answered : List ℕ) → answer_of (statement_view statement.now) ≡ Some handle → IsAgain asked answered handle
        → IfFault result (λ e. (f : PlainFunction) (scope : List ℕ) → IsFaultHere f asked (spot (statement_view statement.now)) scope answered e) }
{
    match callee_of(statement) {
        Some(function) => ScopeError::Answered {
            function,
            answer: handle,
        },
        None => ScopeError::AnsweredAtomic(handle),
    }
}

/// Notes a statement's result, if it has one: results must be required, and no earlier statement may have this one.
pub fn note_answer(
    asked: bool,
    answered: &mut ExpressionList,
    statement: &Statement,
) -> Result<(), ScopeError>
    ensures noted { OnOk result (IsNoted asked answered.old answered.new (answer_of (statement_view statement.now))) }
    ensures fault { IfErr result (λ r. IfFault r (λ e. (f : PlainFunction) (scope : List ℕ) → IsFaultHere f asked (spot (statement_view statement.now)) scope answered.old e)) }
{
    let Some(handle) = answer_of(statement) else {
        return Ok(());
    };
    if !asked {
        return Err(populated(statement, handle));
    }
    if !answered.insert(handle)? {
        return Err(populated(statement, handle));
    }
    Ok(())
}

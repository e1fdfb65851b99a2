//! What a statement itself uses, introduces and has as its result.

ghost use Rattle.std.specs.Prelude.{◌≡◌, ◌++◌, ℕ, Bool, List, All, IfErr, IfNone, IfSome, OnOk, Some, option_to_list};
ghost use Rattle.ir_blocks.specs.judged.Places.{statement as spot, loop_condition};
ghost use Rattle.ir_blocks.specs.found.View.{statement_view};
ghost use Rattle.ir_items.specs.found.View.{function_view};
ghost use Rattle.function_body_checks.specs.Carried.{Fine, IfFault, IsArgumentError, IsFaultHere, Known};
ghost use Rattle.spec_expressions.specs.judged.StatementNames.{statement_callee};
ghost use Rattle.spec_statements.specs.judged.Results.{answer_of};
ghost use Rattle.spec_statements.specs.judged.Tables.{checked_at, introduced, statement_checked};

use crate::always::Outline;
use crate::answers::note_answer;
use crate::bringing::bring;
use crate::error::ScopeError;
use crate::list::ExpressionList;
use crate::operands::{is_known, unknown_operand, unknown_place};
use ir_arena::handle::Handle;
use ir_blocks::plain_operation;
use ir_items::{Function, Statement, key};
use typing_references::callee_of;

/// The state of a walk over a body: the expressions in scope, and the results of calls and atomic operations so far.
#[derive(Drop)]
pub struct Carried {
    pub scope: ExpressionList,
    pub answered: ExpressionList,
}

// The arguments of a call; none for other statements.
fn arguments_of(statement: &Statement) -> &[Handle<key::Expression>]
    ensures { (function : ℕ) → statement_callee (statement_view statement.now) ≡ Some function → result.now ≡ statement_checked (statement_view statement.now) }
{
    match statement {
        Statement::Call { arguments, .. } => arguments,
        Statement::Emit(_)
        | Statement::Block(_)
        | Statement::If { .. }
        | Statement::Switch { .. }
        | Statement::Loop { .. }
        | Statement::Break
        | Statement::Continue
        | Statement::Return { .. }
        | Statement::Kill
        | plain_operation!() => &[],
    }
}

// The error of a call's arguments.
#[tactic(auto, using(crate::proofs::Tables::all_placed, crate::proofs::Tables::not_placed))]
fn argument_error(
    function: &Function,
    scope: &ExpressionList,
    callee: Handle<key::Function>,
    arguments: &[Handle<key::Expression>],
) -> Option<ScopeError>
    ensures none { IfNone result (All (Known (function_view function.now) scope.now) arguments.now) }
    ensures found { IfSome result (λ r. IfFault r (IsArgumentError (function_view function.now) scope.now callee arguments.now)) }
{
    match unknown_place(function, scope, arguments) {
        Some(place) => Some(ScopeError::UnknownArgument {
            function: callee,
            index: place,
        }),
        None => None,
    }
}

// The error of a statement's operands.
#[tactic(auto, using(crate::proofs::Tables::all_known, crate::proofs::Tables::not_known))]
fn operand_error(
    function: &Function,
    scope: &ExpressionList,
    statement: &Statement,
) -> Option<ScopeError>
    ensures none { IfNone result (All (Known (function_view function.now) scope.now) (statement_checked (statement_view statement.now))) }
    ensures found { IfSome result (λ r. IfFault r (λ e. (asked : Bool) (answered : List ℕ) → IsFaultHere (function_view function.now) asked (spot (statement_view statement.now)) scope.now answered e)) }
{
    match callee_of(statement) {
        Some(callee) => argument_error(function, scope, callee, arguments_of(statement)),
        None => match unknown_operand(function, scope, false, statement) {
            Some(handle) => Some(ScopeError::Unknown(handle)),
            None => None,
        },
    }
}

/// Whether a statement's operands are in scope, without its inner blocks and a loop's condition.
pub fn check_used(
    function: &Function,
    asked: bool,
    carried: &Carried,
    statement: &Statement,
) -> Result<(), ScopeError>
    ensures used { OnOk result (All (Known (function_view function.now) carried.now.scope) (statement_checked (statement_view statement.now))) }
    ensures fault { IfErr result (λ r. IfFault r (λ e. IsFaultHere (function_view function.now) asked (spot (statement_view statement.now)) carried.now.scope carried.now.answered e)) }
{
    match operand_error(function, &carried.scope, statement) {
        Some(error) => Err(error),
        None => Ok(()),
    }
}

/// Whether a loop's condition is in scope, if it has one.
#[tactic(auto, using(crate::proofs::Tables::reported_known, crate::proofs::Tables::reported_unknown))]
pub fn check_condition(
    function: &Function,
    asked: bool,
    carried: &Carried,
    break_if: Option<Handle<key::Expression>>,
) -> Result<(), ScopeError>
    ensures used { OnOk result (All (Known (function_view function.now) carried.now.scope) (checked_at (loop_condition break_if))) }
    ensures fault { IfErr result (λ r. IfFault r (λ e. IsFaultHere (function_view function.now) asked (loop_condition break_if) carried.now.scope carried.now.answered e)) }
{
    match break_if {
        Some(handle) => {
            if is_known(function, &carried.scope, handle) {
                Ok(())
            } else {
                Err(ScopeError::Unknown(handle))
            }
        }
        None => Ok(()),
    }
}

/// Checks a statement without inner blocks: its operands, introductions and result.
#[tactic(auto, using(crate::proofs::Tables::noted, crate::proofs::Tables::fine))]
pub fn check_own(
    outline: &Outline<'_>,
    asked: bool,
    carried: &mut Carried,
    statement: &Statement,
) -> Result<(), ScopeError>
    ensures fine { OnOk result (Fine (function_view outline.now.function.now) asked (spot (statement_view statement.now)) carried.old.scope carried.old.answered) }
    ensures scope { OnOk result (carried.new.scope ≡ carried.old.scope ++ introduced (statement_view statement.now)) }
    ensures answered { OnOk result (carried.new.answered ≡ carried.old.answered ++ option_to_list (answer_of (statement_view statement.now))) }
    ensures fault { IfErr result (λ r. IfFault r (IsFaultHere (function_view outline.now.function.now) asked (spot (statement_view statement.now)) carried.old.scope carried.old.answered)) }
{
    check_used(outline.function, asked, carried, statement)?;
    bring(outline, &mut carried.scope, statement)?;
    note_answer(asked, &mut carried.answered, statement)
}

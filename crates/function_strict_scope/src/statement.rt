//! The rule of a statement itself.

ghost use Rattle.std.specs.Prelude.{◌≡◌, ◌++◌, ℕ, All, IfErr, IfNone, IfSome, OnOk, Some};
ghost use Rattle.ir_blocks.specs.judged.Places.{statement as spot, loop_condition};
ghost use Rattle.ir_blocks.specs.found.View.{statement_view};
ghost use Rattle.ir_items.specs.found.View.{function_view};
ghost use Rattle.function_body_checks.specs.Carried.{IsArgumentError, Known};
ghost use Rattle.spec_expressions.specs.judged.StatementNames.{statement_callee};
ghost use Rattle.spec_statements.specs.judged.Strict.{statement_needed, needed_at};
ghost use Rattle.spec_statements.specs.judged.Tables.{introduced};
ghost use Rattle.function_strict_scope.specs.Live.{Follows};
ghost use Rattle.function_strict_scope.specs.Walked.{IfFault, IsFaultHere, Meets};

use crate::answers::check_answer;
use crate::error::StrictError;
use crate::introducing::introduce;
use crate::live::LiveOperands;
use function_body_checks::{ExpressionList, is_known, unknown_operand, unknown_place};
use ir_arena::handle::Handle;
use ir_blocks::plain_operation;
use ir_items::{Function, Statement, key};
use typing_references::callee_of;

// The arguments of a call; none for other statements.
fn arguments_of(statement: &Statement) -> &[Handle<key::Expression>]
    ensures { (function : ℕ) → statement_callee (statement_view statement.now) ≡ Some function → result.now ≡ statement_needed (statement_view statement.now) }
{
    match statement {
        Statement::Call { arguments, .. } => arguments,
        Statement::Emit(_)
        | Statement::Block(_)
        | Statement::If { .. }
        | Statement::Switch { .. }
        | Statement::Loop { .. }
        | Statement::Break
        | Statement::Continue
        | Statement::Return { .. }
        | Statement::Kill
        | plain_operation!() => &[],
    }
}

// The error of a call's arguments.
#[tactic(auto, using(function_body_checks::proofs::Tables::all_placed, function_body_checks::proofs::Tables::not_placed))]
fn argument_error(
    function: &Function,
    sure: &ExpressionList,
    callee: Handle<key::Function>,
    arguments: &[Handle<key::Expression>],
) -> Option<StrictError>
    ensures none { IfNone result (All (Known (function_view function.now) sure.now) arguments.now) }
    ensures found { IfSome result (λ r. IfFault r (IsArgumentError (function_view function.now) sure.now callee arguments.now)) }
{
    match unknown_place(function, sure, arguments) {
        Some(place) => Some(StrictError::UnknownArgument {
            function: callee,
            index: place,
        }),
        None => None,
    }
}

// The error of a statement's operands.
#[tactic(auto, using(function_body_checks::proofs::Tables::all_known, function_body_checks::proofs::Tables::not_known))]
fn operand_error(
    function: &Function,
    sure: &ExpressionList,
    statement: &Statement,
) -> Option<StrictError>
    ensures none { IfNone result (All (Known (function_view function.now) sure.now) (statement_needed (statement_view statement.now))) }
    ensures found { IfSome result (λ r. IfFault r (IsFaultHere (function_view function.now) (spot (statement_view statement.now)) sure.now)) }
{
    match callee_of(statement) {
        Some(callee) => argument_error(function, sure, callee, arguments_of(statement)),
        None => match unknown_operand(function, sure, true, statement) {
            Some(handle) => Some(StrictError::Unknown(handle)),
            None => None,
        },
    }
}

/// Whether the operands of a statement are in scope, without its inner blocks and a loop's condition.
pub fn check_needed(
    function: &Function,
    sure: &ExpressionList,
    statement: &Statement,
) -> Result<(), StrictError>
    ensures used { OnOk result (All (Known (function_view function.now) sure.now) (statement_needed (statement_view statement.now))) }
    ensures fault { IfErr result (λ r. IfFault r (IsFaultHere (function_view function.now) (spot (statement_view statement.now)) sure.now)) }
{
    match operand_error(function, sure, statement) {
        Some(error) => Err(error),
        None => Ok(()),
    }
}

/// Whether a loop's condition is in scope, if it has one.
#[tactic(auto, using(function_body_checks::proofs::Tables::reported_known, function_body_checks::proofs::Tables::reported_unknown))]
pub fn check_condition(
    function: &Function,
    sure: &ExpressionList,
    break_if: Option<Handle<key::Expression>>,
) -> Result<(), StrictError>
    ensures used { OnOk result (All (Known (function_view function.now) sure.now) (needed_at (loop_condition break_if))) }
    ensures fault { IfErr result (λ r. IfFault r (IsFaultHere (function_view function.now) (loop_condition break_if) sure.now)) }
{
    match break_if {
        Some(handle) => {
            if is_known(function, sure, handle) {
                Ok(())
            } else {
                Err(StrictError::Unknown(handle))
            }
        }
        None => Ok(()),
    }
}

/// Whether a statement without inner blocks meets the rule; introduces what it introduces.
pub fn check_own(
    function: &Function,
    sure: &mut ExpressionList,
    live: &mut LiveOperands,
    statement: &Statement,
) -> Result<(), StrictError>
    requires { Follows (function_view function.now) live.old sure.old }
    ensures meets { OnOk result (Meets (function_view function.now) (statement_view statement.now) sure.old) }
    ensures scope { OnOk result (sure.new ≡ sure.old ++ introduced (statement_view statement.now)) }
    ensures live { OnOk result (Follows (function_view function.now) live.new sure.new) }
    ensures fault { IfErr result (λ r. IfFault r (IsFaultHere (function_view function.now) (spot (statement_view statement.now)) sure.old)) }
{
    check_needed(function, sure, statement)?;
    check_answer(function, statement)?;
    introduce(function, sure, live, statement)
}

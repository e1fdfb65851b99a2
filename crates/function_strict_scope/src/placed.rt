//! The rule of the statement at an index of a block itself, with its place.

ghost use Rattle.std.specs.Prelude.{◌≡◌, ◌++◌, All, IfErr, OnOk};
ghost use Rattle.ir_blocks.specs.judged.Places.{loop_condition};
ghost use Rattle.ir_blocks.specs.found.View.{statement_view};
ghost use Rattle.ir_items.specs.found.View.{function_view};
ghost use Rattle.ir_places.specs.Paths.{IsPlaced};
ghost use Rattle.function_body_checks.specs.Carried.{Known};
ghost use Rattle.spec_statements.specs.judged.Strict.{statement_needed, needed_at};
ghost use Rattle.spec_statements.specs.judged.Tables.{introduced};
ghost use Rattle.function_strict_scope.specs.Live.{Follows};
ghost use Rattle.function_strict_scope.specs.Walked.{FaultAtCondition, FaultFrom, Meets};

use crate::error::StrictError;
use crate::live::LiveOperands;
use crate::statement;
use function_body_checks::ExpressionList;
use ir_arena::handle::Handle;
use ir_items::{Function, Statement, key};
use ir_places::Trail;

/// Whether the operands of the statement are in scope, without its inner blocks and a loop's condition.
#[tactic(auto, using(crate::proofs::Walks::here_wrong))]
pub fn check_needed(
    function: &Function,
    sure: &ExpressionList,
    trail: &mut Trail,
    index: usize,
    statement: &Statement,
) -> Result<(), StrictError>
    ensures used { OnOk result (All (Known (function_view function.now) sure.now) (statement_needed (statement_view statement.now))) }
    ensures fault { IfErr result (λ e. IsPlaced trail.new (FaultFrom (function_view function.now) sure.now index (statement_view statement.now) e)) }
{
    match statement::check_needed(function, sure, statement) {
        Ok(()) => Ok(()),
        Err(error) => {
            trail.stand(index);
            Err(error)
        }
    }
}

/// Whether the condition of the loop is in scope, if it has one.
#[tactic(auto, using(crate::proofs::Walks::condition_wrong))]
pub fn check_condition(
    function: &Function,
    sure: &ExpressionList,
    trail: &mut Trail,
    index: usize,
    break_if: Option<Handle<key::Expression>>,
) -> Result<(), StrictError>
    ensures used { OnOk result (All (Known (function_view function.now) sure.now) (needed_at (loop_condition break_if))) }
    ensures fault { IfErr result (λ e. IsPlaced trail.new (FaultAtCondition (function_view function.now) sure.now index break_if e)) }
{
    match statement::check_condition(function, sure, break_if) {
        Ok(()) => Ok(()),
        Err(error) => {
            trail.stand_at_condition(index);
            Err(error)
        }
    }
}

/// Whether the statement, which has no inner blocks, meets the rule; introduces what it introduces.
#[tactic(auto, using(crate::proofs::Walks::here_wrong))]
pub fn check_own(
    function: &Function,
    sure: &mut ExpressionList,
    live: &mut LiveOperands,
    trail: &mut Trail,
    index: usize,
    statement: &Statement,
) -> Result<(), StrictError>
    requires { Follows (function_view function.now) live.old sure.old }
    ensures meets { OnOk result (Meets (function_view function.now) (statement_view statement.now) sure.old) }
    ensures scope { OnOk result (sure.new ≡ sure.old ++ introduced (statement_view statement.now)) }
    ensures live { OnOk result (Follows (function_view function.now) live.new sure.new) }
    ensures fault { IfErr result (λ e. IsPlaced trail.new (FaultFrom (function_view function.now) sure.old index (statement_view statement.now) e)) }
{
    match statement::check_own(function, sure, live, statement) {
        Ok(()) => Ok(()),
        Err(error) => {
            trail.stand(index);
            Err(error)
        }
    }
}

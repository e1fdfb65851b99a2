//! The walk over a body: in the order of the text, block by block.

ghost use Rattle.std.specs.Prelude.{◌≡◌, ◌++◌, All, IfErr, OnOk, map, option_to_list};
ghost use Rattle.ir_blocks.specs.found.View.{statement_view, block_view, case_view, cases_of};
ghost use Rattle.ir_blocks.specs.judged.Places.{statement as spot, loop_condition};
ghost use Rattle.ir_items.specs.found.View.{function_view};
ghost use Rattle.ir_places.specs.Paths.{IsPlaced, part_view};
ghost use Rattle.function_body_checks.specs.Carried.{Fine, Known, AllFine, FineWithin, FineInCases, FaultAt, FaultFrom, FaultInPart, FaultInCase, FaultAtCondition};
ghost use Rattle.spec_statements.specs.found.Answered.{answered_in, answered_at, answered_in_cases};
ghost use Rattle.spec_statements.specs.judged.Results.{answer_of};
ghost use Rattle.spec_statements.specs.judged.Tables.{checked_at, introduced, statement_checked};
ghost use Rattle.spec_statements.specs.judged.Visible.{top_level};

use crate::always::Outline;
use crate::error::ScopeError;
use crate::statement::Carried;
use ir_arena::handle::Handle;
use ir_blocks::plain_operation;
use ir_items::{Block, Statement, SwitchCase, key};
use ir_places::{Part, Step, Trail};

// The operands of the statement at an index, without its inner blocks.
#[tactic(auto, using(crate::proofs::Walks::here_wrong))]
fn check_used(
    outline: &Outline<'_>,
    carried: &Carried,
    trail: &mut Trail,
    index: usize,
    statement: &Statement,
) -> Result<(), ScopeError>
    ensures used { OnOk result (All (Known (function_view outline.now.function.now) carried.now.scope) (statement_checked (statement_view statement.now))) }
    ensures fault { IfErr result (λ e. IsPlaced trail.new (FaultFrom (function_view outline.now.function.now) outline.now.asked carried.now.scope carried.now.answered index (statement_view statement.now) e)) }
{
    match crate::statement::check_used(outline.function, outline.asked, carried, statement) {
        Ok(()) => Ok(()),
        Err(error) => {
            trail.stand(index);
            Err(error)
        }
    }
}

// The condition of the loop at an index.
#[tactic(auto, using(crate::proofs::Walks::condition_wrong))]
fn check_condition(
    outline: &Outline<'_>,
    carried: &Carried,
    trail: &mut Trail,
    index: usize,
    break_if: Option<Handle<key::Expression>>,
) -> Result<(), ScopeError>
    ensures used { OnOk result (All (Known (function_view outline.now.function.now) carried.now.scope) (checked_at (loop_condition break_if))) }
    ensures fault { IfErr result (λ e. IsPlaced trail.new (FaultAtCondition (function_view outline.now.function.now) outline.now.asked carried.now.scope carried.now.answered index break_if e)) }
{
    match crate::statement::check_condition(outline.function, outline.asked, carried, break_if) {
        Ok(()) => Ok(()),
        Err(error) => {
            trail.stand_at_condition(index);
            Err(error)
        }
    }
}

// The statement at an index, which has no inner blocks.
#[tactic(auto, using(crate::proofs::Walks::here_wrong))]
fn check_own(
    outline: &Outline<'_>,
    carried: &mut Carried,
    trail: &mut Trail,
    index: usize,
    statement: &Statement,
) -> Result<(), ScopeError>
    ensures fine { OnOk result (Fine (function_view outline.now.function.now) outline.now.asked (spot (statement_view statement.now)) carried.old.scope carried.old.answered) }
    ensures scope { OnOk result (carried.new.scope ≡ carried.old.scope ++ introduced (statement_view statement.now)) }
    ensures answered { OnOk result (carried.new.answered ≡ carried.old.answered ++ option_to_list (answer_of (statement_view statement.now))) }
    ensures fault { IfErr result (λ e. IsPlaced trail.new (FaultFrom (function_view outline.now.function.now) outline.now.asked carried.old.scope carried.old.answered index (statement_view statement.now) e)) }
{
    match crate::statement::check_own(outline, outline.asked, carried, statement) {
        Ok(()) => Ok(()),
        Err(error) => {
            trail.stand(index);
            Err(error)
        }
    }
}

/// Whether the statements of a block, at any depth, use only what is in scope, introduce only what is not, and have distinct
/// results. What the block's own statements introduce stays in scope.
#[cycle(walk)]
pub fn check_block(
    outline: &Outline<'_>,
    carried: &mut Carried,
    trail: &mut Trail,
    block: &Block,
) -> Result<(), ScopeError>
    ensures fine { OnOk result (AllFine (function_view outline.now.function.now) outline.now.asked carried.old.scope carried.old.answered (block_view block.now)) }
    ensures scope { OnOk result (carried.new.scope ≡ carried.old.scope ++ top_level (block_view block.now)) }
    ensures answered { OnOk result (carried.new.answered ≡ carried.old.answered ++ answered_in (block_view block.now)) }
    ensures fault { IfErr result (λ e. IsPlaced trail.new (FaultAt (function_view outline.now.function.now) outline.now.asked carried.old.scope carried.old.answered (block_view block.now) e)) }
{
    for (index, statement) in block.as_slice().iter().enumerate() {
        check_statement(outline, carried, trail, index, statement)?;
    }
    Ok(())
}

// The same for an inner block of a statement. The place is relative to the block with the statement.
#[cycle(walk)]
fn check_part(
    outline: &Outline<'_>,
    carried: &mut Carried,
    trail: &mut Trail,
    index: usize,
    part: Part,
    block: &Block,
) -> Result<(), ScopeError>
    ensures fine { OnOk result (AllFine (function_view outline.now.function.now) outline.now.asked carried.old.scope carried.old.answered (block_view block.now)) }
    ensures scope { OnOk result (carried.new.scope ≡ carried.old.scope ++ top_level (block_view block.now)) }
    ensures answered { OnOk result (carried.new.answered ≡ carried.old.answered ++ answered_in (block_view block.now)) }
    ensures fault { IfErr result (λ e. IsPlaced trail.new (FaultInPart (function_view outline.now.function.now) outline.now.asked carried.old.scope carried.old.answered index (part_view part) (block_view block.now) e)) }
{
    match check_block(outline, carried, trail, block) {
        Ok(()) => Ok(()),
        Err(error) => {
            trail.inside(Step { index, part });
            Err(error)
        }
    }
}

// The same for a block whose introductions end with it.
#[cycle(walk)]
fn check_inner(
    outline: &Outline<'_>,
    carried: &mut Carried,
    trail: &mut Trail,
    index: usize,
    part: Part,
    block: &Block,
) -> Result<(), ScopeError>
    ensures fine { OnOk result (AllFine (function_view outline.now.function.now) outline.now.asked carried.old.scope carried.old.answered (block_view block.now)) }
    ensures scope { OnOk result (carried.new.scope ≡ carried.old.scope) }
    ensures answered { OnOk result (carried.new.answered ≡ carried.old.answered ++ answered_in (block_view block.now)) }
    ensures fault { IfErr result (λ e. IsPlaced trail.new (FaultInPart (function_view outline.now.function.now) outline.now.asked carried.old.scope carried.old.answered index (part_view part) (block_view block.now) e)) }
{
    let count = carried.scope.len();
    check_part(outline, carried, trail, index, part, block)?;
    carried.scope.cut(count);
    Ok(())
}

// The same for the cases of a switch, in order.
#[cycle(walk)]
fn check_cases(
    outline: &Outline<'_>,
    carried: &mut Carried,
    trail: &mut Trail,
    index: usize,
    cases: &[SwitchCase],
) -> Result<(), ScopeError>
    ensures fine { OnOk result (FineInCases (function_view outline.now.function.now) outline.now.asked carried.old.scope carried.old.answered (cases_of (map case_view cases.now))) }
    ensures scope { OnOk result (carried.new.scope ≡ carried.old.scope) }
    ensures answered { OnOk result (carried.new.answered ≡ carried.old.answered ++ answered_in_cases (cases_of (map case_view cases.now))) }
    ensures fault { IfErr result (λ e. IsPlaced trail.new (FaultInCase (function_view outline.now.function.now) outline.now.asked carried.old.scope carried.old.answered index (cases_of (map case_view cases.now)) e)) }
{
    for (number, case) in cases.iter().enumerate() {
        let part = Part::Case(number);
        check_inner(outline, carried, trail, index, part, &case.body)?;
    }
    Ok(())
}

// The same for a statement with its inner blocks. What it introduces itself stays in scope.
#[cycle(walk)]
fn check_statement(
    outline: &Outline<'_>,
    carried: &mut Carried,
    trail: &mut Trail,
    index: usize,
    statement: &Statement,
) -> Result<(), ScopeError>
    ensures fine { OnOk result (FineWithin (function_view outline.now.function.now) outline.now.asked carried.old.scope carried.old.answered (statement_view statement.now)) }
    ensures scope { OnOk result (carried.new.scope ≡ carried.old.scope ++ introduced (statement_view statement.now)) }
    ensures answered { OnOk result (carried.new.answered ≡ carried.old.answered ++ answered_at (statement_view statement.now)) }
    ensures fault { IfErr result (λ e. IsPlaced trail.new (FaultFrom (function_view outline.now.function.now) outline.now.asked carried.old.scope carried.old.answered index (statement_view statement.now) e)) }
{
    match statement {
        Statement::Block(block) => check_inner(outline, carried, trail, index, Part::Inner, block),
        Statement::If { accept, reject, .. } => {
            check_used(outline, carried, trail, index, statement)?;
            check_inner(outline, carried, trail, index, Part::Accepting, accept)?;
            check_inner(outline, carried, trail, index, Part::Rejecting, reject)
        }
        Statement::Switch { cases, .. } => {
            check_used(outline, carried, trail, index, statement)?;
            check_cases(outline, carried, trail, index, cases)
        }
        Statement::Loop {
            body,
            continuing,
            break_if,
        } => {
            let count = carried.scope.len();
            check_part(outline, carried, trail, index, Part::LoopBody, body)?;
            let after = Part::LoopContinuing;
            check_part(outline, carried, trail, index, after, continuing)?;
            check_condition(outline, carried, trail, index, *break_if)?;
            carried.scope.cut(count);
            Ok(())
        }
        Statement::Emit(_)
        | Statement::Break
        | Statement::Continue
        | Statement::Return { .. }
        | Statement::Kill
        | Statement::Call { .. }
        | plain_operation!() => { check_own(outline, carried, trail, index, statement) }
    }
}

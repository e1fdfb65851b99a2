//! The walk over a body.

ghost use Rattle.std.specs.Prelude.{MatchResult, map};
ghost use Rattle.ir_blocks.specs.found.View.{statement_view, block_view, case_view, cases_of};
ghost use Rattle.ir_places.specs.Paths.{IsPlaced, part_view};
ghost use Rattle.function_body_checks.specs.Allowed.{view_of, AllLeave, LeavesWithin, CasesLeave, LeftAt, LeftFrom, LeftInPart, LeftInCase};

use crate::allowed::{Allowed, Wrong};
use ir_blocks::plain_operation;
use ir_items::{Block, Statement, SwitchCase};
use ir_places::{Part, Step, Trail};

/// Whether the statements of a block, at any depth, leave it only as allowed, or where one does not.
#[cycle(walk)]
pub fn check_block(trail: &mut Trail, allowed: Allowed, block: &Block) -> Result<(), Wrong>
    ensures { MatchResult result (λ _. AllLeave (view_of allowed) (block_view block.now)) (λ e. IsPlaced trail.new (LeftAt e (view_of allowed) (block_view block.now))) }
{
    for (index, statement) in block.as_slice().iter().enumerate() {
        match check_statement(trail, allowed, index, statement) {
            Ok(()) => {}
            Err(wrong) => return Err(wrong),
        }
    }
    Ok(())
}

// The same for the statement at an index of a block and its inner blocks. The place is relative to the block.
#[cycle(walk)]
fn check_statement(
    trail: &mut Trail,
    allowed: Allowed,
    index: usize,
    statement: &Statement,
) -> Result<(), Wrong>
    ensures { MatchResult result (λ _. LeavesWithin (view_of allowed) (statement_view statement.now)) (λ e. IsPlaced trail.new (LeftFrom e (view_of allowed) index (statement_view statement.now))) }
{
    match statement {
        Statement::Block(block) => { check_part(trail, allowed, index, Part::Inner, block) }
        Statement::If { accept, reject, .. } => {
            check_part(trail, allowed, index, Part::Accepting, accept)?;
            check_part(trail, allowed, index, Part::Rejecting, reject)
        }
        Statement::Switch { cases, .. } => check_cases(trail, allowed.in_case(), index, cases),
        Statement::Loop {
            body,
            continuing,
            ..
        } => {
            check_part(trail, allowed.in_loop(), index, Part::LoopBody, body)?;
            let after = allowed.in_continuing();
            check_part(trail, after, index, Part::LoopContinuing, continuing)
        }
        Statement::Break => {
            if allowed.breaks {
                Ok(())
            } else {
                trail.stand(index);
                Err(Wrong::Break)
            }
        }
        Statement::Continue => {
            if allowed.continues {
                Ok(())
            } else {
                trail.stand(index);
                Err(Wrong::Continue)
            }
        }
        Statement::Return { .. } => {
            if allowed.returns {
                Ok(())
            } else {
                trail.stand(index);
                Err(Wrong::Return)
            }
        }
        Statement::Emit(_) | Statement::Kill | Statement::Call { .. } | plain_operation!() => Ok(
            (),
        ),
    }
}

// The same for an inner block of a statement. The place is relative to the block with the statement.
#[cycle(walk)]
fn check_part(
    trail: &mut Trail,
    allowed: Allowed,
    index: usize,
    part: Part,
    block: &Block,
) -> Result<(), Wrong>
    ensures { MatchResult result (λ _. AllLeave (view_of allowed) (block_view block.now)) (λ e. IsPlaced trail.new (LeftInPart e (view_of allowed) index (part_view part) (block_view block.now))) }
{
    match check_block(trail, allowed, block) {
        Ok(()) => Ok(()),
        Err(wrong) => {
            trail.inside(Step { index, part });
            Err(wrong)
        }
    }
}

// The same for the cases of a switch. The place is relative to the block with the switch.
#[cycle(walk)]
fn check_cases(
    trail: &mut Trail,
    allowed: Allowed,
    index: usize,
    cases: &[SwitchCase],
) -> Result<(), Wrong>
    ensures { MatchResult result (λ _. CasesLeave (view_of allowed) (cases_of (map case_view cases.now))) (λ e. IsPlaced trail.new (LeftInCase e (view_of allowed) index (cases_of (map case_view cases.now)))) }
{
    for (number, case) in cases.iter().enumerate() {
        match check_part(trail, allowed, index, Part::Case(number), &case.body) {
            Ok(()) => {}
            Err(wrong) => return Err(wrong),
        }
    }
    Ok(())
}

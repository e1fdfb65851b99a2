//! The walk over a body: in the order of the text, block by block.

ghost use Rattle.std.specs.Prelude.{◌≡◌, ◌++◌, ◌||◌, if◌then◌else◌, IfErr, IfOk, OnOk, None, Some, map};
ghost use Rattle.ir_blocks.specs.found.View.{statement_view, block_view, case_view, cases_of};
ghost use Rattle.ir_items.specs.judged.Plain.{PlainFunction};
ghost use Rattle.ir_items.specs.found.View.{function_view};
ghost use Rattle.ir_places.specs.Paths.{IsPlaced, part_view};
ghost use Rattle.spec_statements.specs.found.SureLevel.{holds_continue, holds_continue_in, holds_continue_in_cases};
ghost use Rattle.spec_statements.specs.judged.Tables.{introduced};
ghost use Rattle.spec_statements.specs.judged.Visible.{top_level};
ghost use Rattle.function_strict_scope.specs.Live.{Follows};
ghost use Rattle.function_strict_scope.specs.Walked.{AllMeet, MeetWithin, MeetInCases, FaultAt, FaultFrom, FaultInPart, FaultInCase, left_in, first_left, cut_to};

use crate::error::StrictError;
use crate::live::{LiveOperands, cut};
use crate::placed::{check_condition, check_needed, check_own};
use function_body_checks::ExpressionList;
use ir_blocks::plain_operation;
use ir_items::{Block, Function, Statement, SwitchCase};
use ir_places::{Part, Step, Trail};

// Removes what was introduced beyond this count.
fn cut_after(live: &mut LiveOperands, sure: &mut ExpressionList, left: Option<usize>)
    ensures cut { sure.new ≡ cut_to left sure.old }
    ensures live { (f : PlainFunction) → Follows f live.old sure.old → Follows f live.new sure.new }
{
    if let Some(count) = left {
        cut(live, sure, count);
    }
}

// The number in scope after a statement.
fn left_after(left: Option<usize>, continues: bool, count: usize) -> Option<usize>
    ensures { result ≡ first_left left (if continues then Some count else None) }
{
    match left {
        Some(_) => left,
        None => { if continues { Some(count) } else { None } }
    }
}

fn either(first: bool, second: bool) -> bool
    ensures { result ≡ (first || second) }
{
    first || second
}

/// Whether the statements of a block, at any depth, meet the rule. What the block's own statements introduce stays in scope.
/// Returns how many expressions are in scope after the first of its statements that contains a `Continue` of the loop around
/// the block, if one does: no `Continue` can skip these.
#[cycle(walk)]
pub fn check_block(
    function: &Function,
    sure: &mut ExpressionList,
    live: &mut LiveOperands,
    trail: &mut Trail,
    block: &Block,
) -> Result<Option<usize>, StrictError>
    requires { Follows (function_view function.now) live.old sure.old }
    ensures meet { OnOk result (AllMeet (function_view function.now) sure.old (block_view block.now)) }
    ensures scope { OnOk result (sure.new ≡ sure.old ++ top_level (block_view block.now)) }
    ensures left { IfOk result (λ left. left ≡ left_in sure.old (block_view block.now)) }
    ensures live { OnOk result (Follows (function_view function.now) live.new sure.new) }
    ensures fault { IfErr result (λ e. IsPlaced trail.new (FaultAt (function_view function.now) sure.old (block_view block.now) e)) }
{
    let mut left = None;
    for (index, statement) in block.as_slice().iter().enumerate() {
        let continues = check_statement(function, sure, live, trail, index, statement)?;
        left = left_after(left, continues, sure.len());
    }
    Ok(left)
}

// The same for an inner block of a statement. The place is relative to the block with the statement.
#[cycle(walk)]
fn check_part(
    function: &Function,
    sure: &mut ExpressionList,
    live: &mut LiveOperands,
    trail: &mut Trail,
    index: usize,
    part: Part,
    block: &Block,
) -> Result<Option<usize>, StrictError>
    requires { Follows (function_view function.now) live.old sure.old }
    ensures meet { OnOk result (AllMeet (function_view function.now) sure.old (block_view block.now)) }
    ensures scope { OnOk result (sure.new ≡ sure.old ++ top_level (block_view block.now)) }
    ensures left { IfOk result (λ left. left ≡ left_in sure.old (block_view block.now)) }
    ensures live { OnOk result (Follows (function_view function.now) live.new sure.new) }
    ensures fault { IfErr result (λ e. IsPlaced trail.new (FaultInPart (function_view function.now) sure.old index (part_view part) (block_view block.now) e)) }
{
    match check_block(function, sure, live, trail, block) {
        Ok(left) => Ok(left),
        Err(error) => {
            trail.inside(Step { index, part });
            Err(error)
        }
    }
}

// The same for a block whose introductions end with it. Returns whether it contains a `Continue` of the loop around it.
#[cycle(walk)]
fn check_inner(
    function: &Function,
    sure: &mut ExpressionList,
    live: &mut LiveOperands,
    trail: &mut Trail,
    index: usize,
    part: Part,
    block: &Block,
) -> Result<bool, StrictError>
    requires { Follows (function_view function.now) live.old sure.old }
    ensures meet { OnOk result (AllMeet (function_view function.now) sure.old (block_view block.now)) }
    ensures scope { OnOk result (sure.new ≡ sure.old) }
    ensures continues { IfOk result (λ b. b ≡ holds_continue_in (block_view block.now)) }
    ensures live { OnOk result (Follows (function_view function.now) live.new sure.new) }
    ensures fault { IfErr result (λ e. IsPlaced trail.new (FaultInPart (function_view function.now) sure.old index (part_view part) (block_view block.now) e)) }
{
    let count = sure.len();
    let left = check_part(function, sure, live, trail, index, part, block)?;
    cut(live, sure, count);
    Ok(left.is_some())
}

// The same for the cases of a switch, in order. The place is relative to the block with the switch.
#[cycle(walk)]
fn check_cases(
    function: &Function,
    sure: &mut ExpressionList,
    live: &mut LiveOperands,
    trail: &mut Trail,
    index: usize,
    cases: &[SwitchCase],
) -> Result<bool, StrictError>
    requires { Follows (function_view function.now) live.old sure.old }
    ensures meet { OnOk result (MeetInCases (function_view function.now) sure.old (cases_of (map case_view cases.now))) }
    ensures scope { OnOk result (sure.new ≡ sure.old) }
    ensures continues { IfOk result (λ b. b ≡ holds_continue_in_cases (cases_of (map case_view cases.now))) }
    ensures live { OnOk result (Follows (function_view function.now) live.new sure.new) }
    ensures fault { IfErr result (λ e. IsPlaced trail.new (FaultInCase (function_view function.now) sure.old index (cases_of (map case_view cases.now)) e)) }
{
    let mut continues = false;
    for (number, case) in cases.iter().enumerate() {
        let part = Part::Case(number);
        let own = check_inner(function, sure, live, trail, index, part, &case.body)?;
        continues = either(continues, own);
    }
    Ok(continues)
}

// The same for a statement with its inner blocks. What it introduces itself stays in scope. The place is relative to the block
// that has it at an index.
#[cycle(walk)]
fn check_statement(
    function: &Function,
    sure: &mut ExpressionList,
    live: &mut LiveOperands,
    trail: &mut Trail,
    index: usize,
    statement: &Statement,
) -> Result<bool, StrictError>
    requires { Follows (function_view function.now) live.old sure.old }
    ensures meet { OnOk result (MeetWithin (function_view function.now) sure.old (statement_view statement.now)) }
    ensures scope { OnOk result (sure.new ≡ sure.old ++ introduced (statement_view statement.now)) }
    ensures continues { IfOk result (λ b. b ≡ holds_continue (statement_view statement.now)) }
    ensures live { OnOk result (Follows (function_view function.now) live.new sure.new) }
    ensures fault { IfErr result (λ e. IsPlaced trail.new (FaultFrom (function_view function.now) sure.old index (statement_view statement.now) e)) }
{
    match statement {
        Statement::Block(block) => {
            check_inner(function, sure, live, trail, index, Part::Inner, block)
        }
        Statement::If { accept, reject, .. } => {
            check_needed(function, sure, trail, index, statement)?;
            let first = check_inner(function, sure, live, trail, index, Part::Accepting, accept)?;
            let second = check_inner(function, sure, live, trail, index, Part::Rejecting, reject)?;
            Ok(either(first, second))
        }
        Statement::Switch { cases, .. } => {
            check_needed(function, sure, trail, index, statement)?;
            check_cases(function, sure, live, trail, index, cases)
        }
        Statement::Loop {
            body,
            continuing,
            break_if,
        } => {
            let count = sure.len();
            let left = check_part(function, sure, live, trail, index, Part::LoopBody, body)?;
            cut_after(live, sure, left);
            let after = Part::LoopContinuing;
            check_part(function, sure, live, trail, index, after, continuing)?;
            check_condition(function, sure, trail, index, *break_if)?;
            cut(live, sure, count);
            Ok(false)
        }
        Statement::Continue => {
            check_own(function, sure, live, trail, index, statement)?;
            Ok(true)
        }
        Statement::Emit(_)
        | Statement::Break
        | Statement::Return { .. }
        | Statement::Kill
        | Statement::Call { .. }
        | plain_operation!() => {
            check_own(function, sure, live, trail, index, statement)?;
            Ok(false)
        }
    }
}

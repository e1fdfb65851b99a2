// Missing returns at the ends of a body (naga's `proc::terminator`).
ghost use Rattle.std.specs.Prelude.{◌≡◌, ◌++◌, ◌∷◌, [], None, map, IsOk, OnOk, OnErr};
ghost use Rattle.ir_blocks.specs.judged.Plain.{return};
ghost use Rattle.ir_blocks.specs.found.Spans.{no_block};
ghost use Rattle.ir_types.specs.IrArena.{undefined_span};
ghost use Rattle.ir_blocks.specs.found.Room.{HasOwnRoom, HasRoom, HasRoomWithin, HasRoomInCase, HasRoomInCases};
ghost use Rattle.ir_blocks.specs.judged.Tails.{IsCompleted, completed, finished, finished_cases, finished_case};
ghost use Rattle.ir_blocks.specs.found.TailSpans.{SpansCompleted, completed_spans, finished_spans, finished_case_spans, finished_case_body};
ghost use Rattle.ir_blocks.specs.found.View.{statement_view, block_view, case_view, cases_of, statement_spans, block_spans, case_block_spans, case_spans_of, statements_of, spans_of};

use crate::plain_operation;
use crate::statements::{Block, Statement, SwitchCase};
use crate::terminator::goes_on;
use ir_types::ir_arena::span::Span;
use std::alloc::{AllocError, Global};

/// Adds a return without value at each end of the body that control falls off: in the body and each of
/// its tail blocks that is empty, or after whose last statement control continues. Existing statements are neither changed
/// nor moved. The error is out of memory, and leaves the body's statements and spans unchanged, because room for every
/// return is reserved before the first is added. The blocks grow in their own allocator.
pub fn ensure_block_returns(_alloc: Global, block: &mut Block) -> Result<(), AllocError>
    ensures ok { OnOk result (IsCompleted (block_view block.old) (block_view block.new)) }
    ensures spans { OnOk result (SpansCompleted (block_view block.old) (block_view block.new) (block_spans block.old) (block_spans block.new)) }
    ensures found { OnOk result (block_view block.new ≡ completed (block_view block.old)) }
    ensures found_spans { OnOk result (block_spans block.new ≡ completed_spans (block_view block.old) (block_spans block.old)) }
    ensures err { OnErr result (block_view block.new ≡ block_view block.old) }
    ensures err_spans { OnErr result (block_spans block.new ≡ block_spans block.old) }
{
    reserve_returns(block)?;
    put_returns(block);
    Ok(())
}

/// Reserves room for a return in each block that needs one: the first half of [`ensure_block_returns`]. The error is out of memory.
#[cycle(reserves)]
pub fn reserve_returns(block: &mut Block) -> Result<(), AllocError>
    ensures statements { block_view block.new ≡ block_view block.old }
    ensures spans { block_spans block.new ≡ block_spans block.old }
    ensures room { OnOk result (HasRoom block.new) }
{
    let len = block.body.len();
    if len == 0 {
        return reserve_one(block);
    }
    if goes_on(&block.body[len - 1]) {
        return reserve_one(block);
    }
    reserve_within(&mut block.body[len - 1])
}

// Reserves room for one more statement.
fn reserve_one(block: &mut Block) -> Result<(), AllocError>
    ensures statements { statements_of block.new ≡ statements_of block.old }
    ensures spans { spans_of block.new ≡ spans_of block.old }
    ensures room { OnOk result (HasOwnRoom block.new) }
{
    block.body.reserve(1)
}

#[cycle(reserves)]
fn reserve_within(statement: &mut Statement) -> Result<(), AllocError>
    ensures statement { statement_view statement.new ≡ statement_view statement.old }
    ensures spans { statement_spans statement.new ≡ statement_spans statement.old }
    ensures room { OnOk result (HasRoomWithin statement.new) }
{
    match statement {
        Statement::Block(block) => reserve_returns(block),
        Statement::If { accept, reject, .. } => {
            reserve_returns(accept)?;
            reserve_returns(reject)
        }
        Statement::Switch { cases, .. } => reserve_cases(cases),
        Statement::Emit(_)
        | Statement::Loop { .. }
        | Statement::Break
        | Statement::Continue
        | Statement::Return { .. }
        | Statement::Kill
        | Statement::Call { .. }
        | plain_operation!() => Ok(()),
    }
}

#[cycle(reserves)]
fn reserve_cases(cases: &mut Vec<SwitchCase>) -> Result<(), AllocError>
    ensures cases { map case_view cases.new.items ≡ map case_view cases.old.items }
    ensures spans { map case_block_spans cases.new.items ≡ map case_block_spans cases.old.items }
    ensures room { OnOk result (HasRoomInCases cases.new.items) }
{
    for index in 0..cases.len() {
        reserve_case(&mut cases[index])?;
    }
    Ok(())
}

#[cycle(reserves)]
fn reserve_case(case: &mut SwitchCase) -> Result<(), AllocError>
    ensures case { case_view case.new ≡ case_view case.old }
    ensures spans { case_block_spans case.new ≡ case_block_spans case.old }
    ensures room { OnOk result (HasRoomInCase case.new) }
{
    if case.fall_through {
        return Ok(());
    }
    reserve_returns(&mut case.body)
}

/// Adds a return to each block of a body that needs one, all of which have room for it. It is the second half of
/// [`ensure_block_returns`].
pub fn put_returns(block: &mut Block)
    requires { HasRoom block.old }
    ensures statements { block_view block.new ≡ completed (block_view block.old) }
    ensures spans { block_spans block.new ≡ completed_spans (block_view block.old) (block_spans block.old) }
{
    match add_returns(block) {
        Ok(()) => {}
        Err(_) => unreachable!(),
    }
}

// Adds a return to each block that needs one. It can't fail if these have room.
#[cycle(adds)]
fn add_returns(block: &mut Block) -> Result<(), AllocError>
    ensures statements { OnOk result (block_view block.new ≡ completed (block_view block.old)) }
    ensures spans { OnOk result (block_spans block.new ≡ completed_spans (block_view block.old) (block_spans block.old)) }
    ensures succeeds { HasRoom block.old → IsOk result }
{
    let len = block.body.len();
    if len == 0 {
        return add_one(block);
    }
    let open = goes_on(&block.body[len - 1]);
    if open {
        return add_one(block);
    }
    add_within(&mut block.body[len - 1])
}

fn add_one(block: &mut Block) -> Result<(), AllocError>
    ensures statements { OnOk result (map statement_view (statements_of block.new) ≡ map statement_view (statements_of block.old) ++ return None ∷ []) }
    ensures within { OnOk result (map statement_spans (statements_of block.new) ≡ map statement_spans (statements_of block.old) ++ no_block ∷ []) }
    ensures spans { OnOk result (spans_of block.new ≡ spans_of block.old ++ undefined_span ∷ []) }
    ensures succeeds { HasOwnRoom block.old → IsOk result }
{
    block.push(Statement::Return { value: None }, Span::UNDEFINED)
}

#[cycle(adds)]
#[tactic(auto, using(crate::proofs::RoomLemmas::left_true, crate::proofs::RoomLemmas::right_true))]
fn add_within(statement: &mut Statement) -> Result<(), AllocError>
    ensures statement { OnOk result (statement_view statement.new ≡ finished (statement_view statement.old)) }
    ensures spans { OnOk result (statement_spans statement.new ≡ finished_spans (statement_view statement.old) (statement_spans statement.old)) }
    ensures succeeds { HasRoomWithin statement.old → IsOk result }
{
    match statement {
        Statement::Block(block) => add_returns(block),
        Statement::If { accept, reject, .. } => {
            add_returns(accept)?;
            add_returns(reject)
        }
        Statement::Switch { cases, .. } => add_to_cases(cases),
        Statement::Emit(_)
        | Statement::Loop { .. }
        | Statement::Break
        | Statement::Continue
        | Statement::Return { .. }
        | Statement::Kill
        | Statement::Call { .. }
        | plain_operation!() => Ok(()),
    }
}

#[cycle(adds)]
fn add_to_cases(cases: &mut Vec<SwitchCase>) -> Result<(), AllocError>
    ensures cases { OnOk result (cases_of (map case_view cases.new.items) ≡ finished_cases (cases_of (map case_view cases.old.items))) }
    ensures spans { OnOk result (case_spans_of (map case_block_spans cases.new.items) ≡ finished_case_spans (cases_of (map case_view cases.old.items)) (case_spans_of (map case_block_spans cases.old.items))) }
    ensures succeeds { HasRoomInCases cases.old.items → IsOk result }
{
    for index in 0..cases.len() {
        add_to_case(&mut cases[index])?;
    }
    Ok(())
}

#[cycle(adds)]
fn add_to_case(case: &mut SwitchCase) -> Result<(), AllocError>
    ensures case { OnOk result (case_view case.new ≡ finished_case (case_view case.old)) }
    ensures spans { OnOk result (case_block_spans case.new ≡ finished_case_body (case_view case.old) (case_block_spans case.old)) }
    ensures succeeds { HasRoomInCase case.old → IsOk result }
{
    if case.fall_through {
        return Ok(());
    }
    add_returns(&mut case.body)
}

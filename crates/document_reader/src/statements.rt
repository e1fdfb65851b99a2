// The JSON forms of statements and blocks.
ghost use Rattle.std.specs.Prelude.{◌≡◌, ◌++◌, map, option_map};
ghost use Rattle.serde_json.specs.View.{view as data_of, items_view};
ghost use Rattle.ir_blocks.specs.judged.Plain.{PlainBlock};
ghost use Rattle.ir_blocks.specs.found.View.{statement_view, block_view, case_view};
ghost use Rattle.document_forms.specs.found.Answers.{Answers};
ghost use Rattle.document_forms.specs.found.Decide.{all_of};
ghost use Rattle.document_reader.specs.found.Statements.{statement_at, statement_with, block_at, case_with, a_body};

use crate::kinds::StatementKind;
use crate::operations;
use crate::parts::ValueForm;
use document_forms::{
    At, End, Form, MAX_DEPTH, Maybe, ReadError, Row, Truth, Wanted, read_at, read_tag, split_part,
};
use ir_blocks::{Block, Statement, SwitchCase};
use ir_types::key;
use serde_json::Value;
use std::alloc::Global;

type E = At<key::Expression>;

#[cycle(statements)]
#[tactic(auto, using(crate::proofs::Steps::statement_steps))]
fn statement(alloc: Global, value: &Value, depth: usize) -> Result<Statement, ReadError>
    ensures { Answers result (λ found. option_map statement_view found ≡ statement_at depth (data_of value.now)) }
{
    if depth == 0 {
        return Err(ReadError::here(Wanted::Nesting));
    }
    let (kind, rest) = read_tag(value)?;
    statement_of(alloc, kind, rest, depth - 1)
}

#[cycle(statements)]
#[tactic(auto, unfolding(crate::specs::found::Statements::statement_with))]
fn statement_of(
    alloc: Global,
    kind: StatementKind,
    rest: &[Value],
    depth: usize,
) -> Result<Statement, ReadError>
    ensures { Answers result (λ found. option_map statement_view found ≡ statement_with (block_at depth) kind (items_view rest.now)) }
{
    match kind {
        StatementKind::Block => nested(alloc, rest, depth),
        StatementKind::If => if_statement(alloc, rest, depth),
        StatementKind::Switch => switch(alloc, rest, depth),
        StatementKind::Loop => loop_statement(alloc, rest, depth),
        StatementKind::Emit => operations::emit(alloc, rest),
        StatementKind::Break => operations::leave(alloc, rest),
        StatementKind::Continue => operations::go_on(alloc, rest),
        StatementKind::Return => operations::give(alloc, rest),
        StatementKind::Kill => operations::kill(alloc, rest),
        StatementKind::ControlBarrier => operations::control_barrier(alloc, rest),
        StatementKind::MemoryBarrier => operations::memory_barrier(alloc, rest),
        StatementKind::Store => operations::store(alloc, rest),
        StatementKind::ImageStore => operations::image_store(alloc, rest),
        StatementKind::Atomic => operations::atomic(alloc, rest),
        StatementKind::ImageAtomic => operations::image_atomic(alloc, rest),
        StatementKind::WorkGroupUniformLoad => operations::work_group_uniform_load(alloc, rest),
        StatementKind::Call => operations::call(alloc, rest),
        StatementKind::RayQuery => operations::ray_query(alloc, rest),
        StatementKind::SubgroupBallot => operations::subgroup_ballot(alloc, rest),
        StatementKind::SubgroupCollectiveOperation => operations::subgroup_collective_operation(
            alloc, rest,
        ),
        StatementKind::SubgroupGather => operations::subgroup_gather(alloc, rest),
        StatementKind::CooperativeStore => operations::cooperative_store(alloc, rest),
        StatementKind::RayPipelineFunction => operations::ray_pipeline_function(alloc, rest),
    }
}

#[cycle(statements)]
#[tactic(auto, unfolding(crate::specs::found::Statements::statement_with))]
fn nested(alloc: Global, rest: &[Value], depth: usize) -> Result<Statement, ReadError>
    ensures { Answers result (λ found. option_map statement_view found ≡ statement_with (block_at depth) StatementKind.Block (items_view rest.now)) }
{
    let (body, rest) = split_part(rest, 1)?;
    let body = block_inside(alloc, body, depth, 1)?;
    End::read(alloc, rest, 2)?;
    Ok(Statement::Block(body))
}

#[cycle(statements)]
#[tactic(auto, unfolding(crate::specs::found::Statements::statement_with))]
fn if_statement(alloc: Global, rest: &[Value], depth: usize) -> Result<Statement, ReadError>
    ensures { Answers result (λ found. option_map statement_view found ≡ statement_with (block_at depth) StatementKind.If (items_view rest.now)) }
{
    let (condition, rest) = split_part(rest, 1)?;
    let condition = read_at::<E>(alloc, condition, 1)?;
    let (accept, rest) = split_part(rest, 2)?;
    let accept = block_inside(alloc, accept, depth, 2)?;
    let (reject, rest) = split_part(rest, 3)?;
    let reject = block_inside(alloc, reject, depth, 3)?;
    End::read(alloc, rest, 4)?;
    Ok(Statement::If {
        condition,
        accept,
        reject,
    })
}

#[cycle(statements)]
#[tactic(auto, unfolding(crate::specs::found::Statements::statement_with))]
fn switch(alloc: Global, rest: &[Value], depth: usize) -> Result<Statement, ReadError>
    ensures { Answers result (λ found. option_map statement_view found ≡ statement_with (block_at depth) StatementKind.Switch (items_view rest.now)) }
{
    let (selector, rest) = split_part(rest, 1)?;
    let selector = read_at::<E>(alloc, selector, 1)?;
    let (cases, rest) = split_part(rest, 2)?;
    let cases = switch_cases(alloc, cases, depth).map_err(|e| e.at(2))?;
    End::read(alloc, rest, 3)?;
    Ok(Statement::Switch { selector, cases })
}

#[cycle(statements)]
fn switch_cases(alloc: Global, value: &Value, depth: usize) -> Result<Vec<SwitchCase>, ReadError>
    ensures { Answers result (λ found. option_map (λ v. map case_view v.items) found ≡ all_of (case_with (block_at depth)) (data_of value.now)) }
{
    let Some(items) = value.as_array() else {
        return Err(ReadError::here(Wanted::List));
    };
    let mut found = Vec::with_capacity(alloc, items.len())?;
    let mut index = 0usize;
    for item in items {
        match switch_case(alloc, item, depth) {
            Ok(next) => found.push(next)?,
            Err(error) => return Err(error.at(index)),
        }
        index = index.saturating_add(1);
    }
    Ok(found)
}

#[cycle(statements)]
#[tactic(auto, unfolding(crate::specs::found::Statements::case_with))]
fn switch_case(alloc: Global, value: &Value, depth: usize) -> Result<SwitchCase, ReadError>
    ensures { Answers result (λ found. option_map case_view found ≡ case_with (block_at depth) (data_of value.now)) }
{
    let Some(items) = value.as_array() else {
        return Err(ReadError::here(Wanted::Row));
    };
    let (value, rest) = split_part(items, 0)?;
    let value = read_at::<ValueForm>(alloc, value, 0)?;
    let (body, rest) = split_part(rest, 1)?;
    let body = block_inside(alloc, body, depth, 1)?;
    let (fall_through,) = <(Truth,) as Row>::read(alloc, rest, 2)?;
    Ok(SwitchCase {
        value,
        body,
        fall_through,
    })
}

#[cycle(statements)]
#[tactic(auto, unfolding(crate::specs::found::Statements::statement_with))]
fn loop_statement(alloc: Global, rest: &[Value], depth: usize) -> Result<Statement, ReadError>
    ensures { Answers result (λ found. option_map statement_view found ≡ statement_with (block_at depth) StatementKind.Loop (items_view rest.now)) }
{
    let (body, rest) = split_part(rest, 1)?;
    let body = block_inside(alloc, body, depth, 1)?;
    let (continuing, rest) = split_part(rest, 2)?;
    let continuing = block_inside(alloc, continuing, depth, 2)?;
    let (break_if,) = <(Maybe<E>,) as Row>::read(alloc, rest, 3)?;
    Ok(Statement::Loop {
        body,
        continuing,
        break_if,
    })
}

// Decodes the statements of a block, nested no deeper than `depth`.
#[cycle(statements)]
fn block(alloc: Global, value: &Value, depth: usize) -> Result<Block, ReadError>
    ensures { Answers result (λ found. option_map block_view found ≡ block_at depth (data_of value.now)) }
{
    let Some(items) = value.as_array() else {
        return Err(ReadError::here(Wanted::List));
    };
    let mut found = Vec::with_capacity(alloc, items.len())?;
    let mut index = 0usize;
    for item in items {
        match statement(alloc, item, depth) {
            Ok(next) => found.push(next)?,
            Err(error) => return Err(error.at(index)),
        }
        index = index.saturating_add(1);
    }
    Ok(Block::from_vec(found))
}

// Decodes the block of a statement that is the element at this index.
#[cycle(statements)]
fn block_inside(
    alloc: Global,
    value: &Value,
    depth: usize,
    index: usize,
) -> Result<Block, ReadError>
    ensures { Answers result (λ found. option_map block_view found ≡ block_at depth (data_of value.now)) }
{
    match block(alloc, value, depth) {
        Ok(found) => Ok(found),
        Err(error) => Err(error.at(index)),
    }
}

/// The JSON form of a function body, whose statements have no span.
pub struct BodyForm;

impl Form for BodyForm {
    type Item = Block;

    ghost Plain = { PlainBlock };

    ghost view = { block_view };

    ghost form = { a_body };

    fn read(alloc: Global, value: &Value) -> Result<Block, ReadError> {
        block(alloc, value, MAX_DEPTH)
    }
}

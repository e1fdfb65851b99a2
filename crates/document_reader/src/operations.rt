// The JSON forms of statements without blocks, each kind decoded by a function of its own.
ghost use Rattle.std.specs.Prelude.{◌≡◌, option_map};
ghost use Rattle.serde_json.specs.View.{items_view};
ghost use Rattle.ir_blocks.specs.found.View.{statement_view};
ghost use Rattle.document_forms.specs.found.Answers.{Answers};
ghost use Rattle.document_reader.specs.found.Statements.{no_blocks, statement_with};

use crate::kinds::StatementKind;
use crate::parts::{AtomicForm, GatherForm, PipelineForm, RayQueryForm};
use document_forms::{At, Each, End, Maybe, ReadError, SetOf, Truth, U32, WordOf, read_items};
use ir_arena::range::Range;
use ir_blocks::{CooperativeData, Statement};
use ir_flags::Barrier;
use ir_kinds::{CollectiveOperation, SubgroupOperation};
use ir_types::key;
use serde_json::Value;
use std::alloc::Global;

type E = At<key::Expression>;

#[tactic(auto, unfolding(crate::specs::found::Statements::statement_with))]
pub fn emit(alloc: Global, rest: &[Value]) -> Result<Statement, ReadError>
    ensures { Answers result (λ found. option_map statement_view found ≡ statement_with no_blocks StatementKind.Emit (items_view rest.now)) }
{
    let (first, end) = read_items::<(U32, U32)>(alloc, rest)?;
    Ok(Statement::Emit(Range::new(first, end)))
}

#[tactic(auto, unfolding(crate::specs::found::Statements::statement_with))]
pub fn leave(alloc: Global, rest: &[Value]) -> Result<Statement, ReadError>
    ensures { Answers result (λ found. option_map statement_view found ≡ statement_with no_blocks StatementKind.Break (items_view rest.now)) }
{
    read_items::<End>(alloc, rest)?;
    Ok(Statement::Break)
}

#[tactic(auto, unfolding(crate::specs::found::Statements::statement_with))]
pub fn go_on(alloc: Global, rest: &[Value]) -> Result<Statement, ReadError>
    ensures { Answers result (λ found. option_map statement_view found ≡ statement_with no_blocks StatementKind.Continue (items_view rest.now)) }
{
    read_items::<End>(alloc, rest)?;
    Ok(Statement::Continue)
}

#[tactic(auto, unfolding(crate::specs::found::Statements::statement_with))]
pub fn give(alloc: Global, rest: &[Value]) -> Result<Statement, ReadError>
    ensures { Answers result (λ found. option_map statement_view found ≡ statement_with no_blocks StatementKind.Return (items_view rest.now)) }
{
    let (value,) = read_items::<(Maybe<E>,)>(alloc, rest)?;
    Ok(Statement::Return { value })
}

#[tactic(auto, unfolding(crate::specs::found::Statements::statement_with))]
pub fn kill(alloc: Global, rest: &[Value]) -> Result<Statement, ReadError>
    ensures { Answers result (λ found. option_map statement_view found ≡ statement_with no_blocks StatementKind.Kill (items_view rest.now)) }
{
    read_items::<End>(alloc, rest)?;
    Ok(Statement::Kill)
}

#[tactic(auto, unfolding(crate::specs::found::Statements::statement_with))]
pub fn control_barrier(alloc: Global, rest: &[Value]) -> Result<Statement, ReadError>
    ensures { Answers result (λ found. option_map statement_view found ≡ statement_with no_blocks StatementKind.ControlBarrier (items_view rest.now)) }
{
    let (barrier,) = read_items::<(SetOf<Barrier>,)>(alloc, rest)?;
    Ok(Statement::ControlBarrier(barrier))
}

#[tactic(auto, unfolding(crate::specs::found::Statements::statement_with))]
pub fn memory_barrier(alloc: Global, rest: &[Value]) -> Result<Statement, ReadError>
    ensures { Answers result (λ found. option_map statement_view found ≡ statement_with no_blocks StatementKind.MemoryBarrier (items_view rest.now)) }
{
    let (barrier,) = read_items::<(SetOf<Barrier>,)>(alloc, rest)?;
    Ok(Statement::MemoryBarrier(barrier))
}

#[tactic(auto, unfolding(crate::specs::found::Statements::statement_with))]
pub fn store(alloc: Global, rest: &[Value]) -> Result<Statement, ReadError>
    ensures { Answers result (λ found. option_map statement_view found ≡ statement_with no_blocks StatementKind.Store (items_view rest.now)) }
{
    let (pointer, value) = read_items::<(E, E)>(alloc, rest)?;
    Ok(Statement::Store { pointer, value })
}

#[tactic(auto, unfolding(crate::specs::found::Statements::statement_with))]
pub fn image_store(alloc: Global, rest: &[Value]) -> Result<Statement, ReadError>
    ensures { Answers result (λ found. option_map statement_view found ≡ statement_with no_blocks StatementKind.ImageStore (items_view rest.now)) }
{
    let (image, coordinate, array_index, value) = read_items::<(E, E, Maybe<E>, E)>(alloc, rest)?;
    Ok(Statement::ImageStore {
        image,
        coordinate,
        array_index,
        value,
    })
}

#[tactic(auto, unfolding(crate::specs::found::Statements::statement_with))]
pub fn atomic(alloc: Global, rest: &[Value]) -> Result<Statement, ReadError>
    ensures { Answers result (λ found. option_map statement_view found ≡ statement_with no_blocks StatementKind.Atomic (items_view rest.now)) }
{
    let (pointer, fun, value, answer) = read_items::<(E, AtomicForm, E, Maybe<E>)>(alloc, rest)?;
    Ok(Statement::Atomic {
        pointer,
        fun,
        value,
        result: answer,
    })
}

#[tactic(auto, unfolding(crate::specs::found::Statements::statement_with))]
pub fn image_atomic(alloc: Global, rest: &[Value]) -> Result<Statement, ReadError>
    ensures { Answers result (λ found. option_map statement_view found ≡ statement_with no_blocks StatementKind.ImageAtomic (items_view rest.now)) }
{
    let (image, coordinate, array_index, fun, value) = read_items::<
        (E, E, Maybe<E>, AtomicForm, E),
    >(alloc, rest)?;
    Ok(Statement::ImageAtomic {
        image,
        coordinate,
        array_index,
        fun,
        value,
    })
}

#[tactic(auto, unfolding(crate::specs::found::Statements::statement_with))]
pub fn work_group_uniform_load(alloc: Global, rest: &[Value]) -> Result<Statement, ReadError>
    ensures { Answers result (λ found. option_map statement_view found ≡ statement_with no_blocks StatementKind.WorkGroupUniformLoad (items_view rest.now)) }
{
    let (pointer, answer) = read_items::<(E, E)>(alloc, rest)?;
    Ok(Statement::WorkGroupUniformLoad {
        pointer,
        result: answer,
    })
}

#[tactic(auto, unfolding(crate::specs::found::Statements::statement_with))]
pub fn call(alloc: Global, rest: &[Value]) -> Result<Statement, ReadError>
    ensures { Answers result (λ found. option_map statement_view found ≡ statement_with no_blocks StatementKind.Call (items_view rest.now)) }
{
    let (function, arguments, answer) = read_items::<(At<key::Function>, Each<E>, Maybe<E>)>(
        alloc, rest,
    )?;
    Ok(Statement::Call {
        function,
        arguments,
        result: answer,
    })
}

#[tactic(auto, unfolding(crate::specs::found::Statements::statement_with))]
pub fn ray_query(alloc: Global, rest: &[Value]) -> Result<Statement, ReadError>
    ensures { Answers result (λ found. option_map statement_view found ≡ statement_with no_blocks StatementKind.RayQuery (items_view rest.now)) }
{
    let (query, fun) = read_items::<(E, RayQueryForm)>(alloc, rest)?;
    Ok(Statement::RayQuery { query, fun })
}

#[tactic(auto, unfolding(crate::specs::found::Statements::statement_with))]
pub fn subgroup_ballot(alloc: Global, rest: &[Value]) -> Result<Statement, ReadError>
    ensures { Answers result (λ found. option_map statement_view found ≡ statement_with no_blocks StatementKind.SubgroupBallot (items_view rest.now)) }
{
    let (answer, predicate) = read_items::<(E, Maybe<E>)>(alloc, rest)?;
    Ok(Statement::SubgroupBallot {
        result: answer,
        predicate,
    })
}

#[tactic(auto, unfolding(crate::specs::found::Statements::statement_with))]
pub fn subgroup_collective_operation(alloc: Global, rest: &[Value]) -> Result<Statement, ReadError>
    ensures { Answers result (λ found. option_map statement_view found ≡ statement_with no_blocks StatementKind.SubgroupCollectiveOperation (items_view rest.now)) }
{
    let (op, collective_op, argument, answer) = read_items::<
        (WordOf<SubgroupOperation>, WordOf<CollectiveOperation>, E, E),
    >(alloc, rest)?;
    Ok(Statement::SubgroupCollectiveOperation {
        op,
        collective_op,
        argument,
        result: answer,
    })
}

#[tactic(auto, unfolding(crate::specs::found::Statements::statement_with))]
pub fn subgroup_gather(alloc: Global, rest: &[Value]) -> Result<Statement, ReadError>
    ensures { Answers result (λ found. option_map statement_view found ≡ statement_with no_blocks StatementKind.SubgroupGather (items_view rest.now)) }
{
    let (mode, argument, answer) = read_items::<(GatherForm, E, E)>(alloc, rest)?;
    Ok(Statement::SubgroupGather {
        mode,
        argument,
        result: answer,
    })
}

#[tactic(auto, unfolding(crate::specs::found::Statements::statement_with))]
pub fn cooperative_store(alloc: Global, rest: &[Value]) -> Result<Statement, ReadError>
    ensures { Answers result (λ found. option_map statement_view found ≡ statement_with no_blocks StatementKind.CooperativeStore (items_view rest.now)) }
{
    let (target, pointer, stride, row_major) = read_items::<(E, E, E, Truth)>(alloc, rest)?;
    Ok(Statement::CooperativeStore {
        target,
        block: CooperativeData {
            pointer,
            stride,
            row_major,
        },
    })
}

#[tactic(auto, unfolding(crate::specs::found::Statements::statement_with))]
pub fn ray_pipeline_function(alloc: Global, rest: &[Value]) -> Result<Statement, ReadError>
    ensures { Answers result (λ found. option_map statement_view found ≡ statement_with no_blocks StatementKind.RayPipelineFunction (items_view rest.now)) }
{
    let (fun,) = read_items::<(PipelineForm,)>(alloc, rest)?;
    Ok(Statement::RayPipelineFunction(fun))
}

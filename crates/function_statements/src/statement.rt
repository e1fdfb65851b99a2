//! The rules of statements: one arm for each kind.

ghost use Rattle.std.specs.Prelude.{◌≡◌, IfSome, IsSomeAnd, MatchResult, map};
ghost use Rattle.ir_blocks.specs.found.View.{statement_view, case_view, cases_of};
ghost use Rattle.ir_items.specs.judged.Bases.{BasesPrecede};
ghost use Rattle.function_atomic_checks.specs.StorageImages.{IsImageStoreFault};
ghost use Rattle.spec_statements.specs.judged.BlockContext.{form_at};
ghost use Rattle.spec_statements.specs.judged.Conditions.{ConditionOK};
ghost use Rattle.spec_statements.specs.judged.StorageImages.{ImageStoreOK};
ghost use Rattle.spec_statements.specs.judged.Switches.{SwitchOK};
ghost use Rattle.function_statement_checks.specs.Conditions.{IsConditionFault};
ghost use Rattle.function_statements.specs.Bodies.{Meets, without_memory};
ghost use Rattle.function_statements.specs.Faults.{IfFault, IsStatementFault};
ghost use Rattle.function_statements.specs.Switches.{IsSwitchFault};

use crate::error::StatementError;
use crate::{
    check_ballot, check_collective, check_gather, check_ray_pipeline, check_ray_query, check_switch,
};
use function_atomic_checks::{
    check_atomic, check_image_atomic, check_image_store, check_uniform_load,
};
use function_statement_checks::{
    StatementContext, check_barrier, check_call, check_condition, check_cooperative_store,
    check_emit, check_return, check_store,
};
use ir_arena::handle::Handle;
use ir_blocks::{Statement, SwitchCase};
use ir_types::key;
use ir_types::refusal::Refusal;
use std::alloc::Global;
use typing_errors::FunctionError;

// A switch.
fn check_cases<C: StatementContext>(
    alloc: Global,
    context: &C,
    selector: Handle<key::Expression>,
    cases: &[SwitchCase],
) -> Result<(), StatementError>
    ensures { MatchResult result
        (λ _. SwitchOK (form_at (C.seen context.now) selector) (cases_of (map case_view cases.now)))
        (λ r. IfFault r (IsSwitchFault (C.seen context.now) selector (cases_of (map case_view cases.now)))) }
{
    match check_switch(alloc, context, selector, cases) {
        Ok(()) => Ok(()),
        Err(Refusal::Memory(error)) => Err(StatementError::Memory(error)),
        Err(Refusal::Fault(fault)) => Err(StatementError::Fault(fault.into_inner())),
    }
}

// An image store.
fn check_written<C: StatementContext>(
    alloc: Global,
    context: &C,
    image: Handle<key::Expression>,
    coordinate: Handle<key::Expression>,
    array_index: Option<Handle<key::Expression>>,
    value: Handle<key::Expression>,
) -> Result<(), StatementError>
    ensures { MatchResult result
        (λ _. ImageStoreOK (C.seen context.now) image coordinate array_index value)
        (λ r. IfFault r (IsImageStoreFault (C.seen context.now) image coordinate array_index value)) }
{
    match check_image_store(alloc, context, image, coordinate, array_index, value) {
        Ok(()) => Ok(()),
        Err(Refusal::Memory(error)) => Err(StatementError::Memory(error)),
        Err(Refusal::Fault(fault)) => Err(StatementError::Fault(fault.into_inner())),
    }
}

// The condition of a loop, if it has one.
fn check_break_if<C: StatementContext>(
    context: &C,
    break_if: &Option<Handle<key::Expression>>,
) -> Result<(), FunctionError>
    ensures { MatchResult result
        (λ _. IfSome break_if.now (λ e. ConditionOK (form_at (C.seen context.now) e)))
        (λ x. IsSomeAnd break_if.now (λ e. IsConditionFault (C.seen context.now) e x)) }
{
    match *break_if {
        Some(condition) => match check_condition(context, condition) {
            Ok(()) => Ok(()),
            Err(error) => Err(error),
        },
        None => Ok(()),
    }
}

// The answer of a check that allocates nothing.
fn without_memory(checked: Result<(), FunctionError>) -> Result<(), StatementError>
    ensures { result ≡ without_memory checked }
{
    match checked {
        Ok(()) => Ok(()),
        Err(error) => Err(StatementError::Fault(error)),
    }
}

/// Whether a statement meets its rule, without its inner blocks. A call of a missing function is not refused here: that it
/// exists is checked before.
pub(crate) fn check_own<C: StatementContext>(
    alloc: Global,
    context: &C,
    statement: &Statement,
) -> Result<(), StatementError>
    requires known { C.known context.now }
    requires precede { BasesPrecede (C.seen context.now).f.expressions }
    ensures { MatchResult result
        (λ _. Meets (C.seen context.now) (statement_view statement.now))
        (λ r. IfFault r (IsStatementFault (C.seen context.now) (statement_view statement.now))) }
{
    match statement {
        Statement::Block(_) | Statement::Break | Statement::Continue | Statement::Kill => Ok(()),
        Statement::Emit(range) => without_memory(check_emit(context, *range)),
        Statement::If { condition, .. } => without_memory(check_condition(context, *condition)),
        Statement::Switch { selector, cases } => check_cases(alloc, context, *selector, cases),
        Statement::Loop { break_if, .. } => without_memory(check_break_if(context, break_if)),
        Statement::Return { value } => without_memory(check_return(context, *value)),
        Statement::ControlBarrier(barrier) => without_memory(check_barrier(context, *barrier)),
        Statement::MemoryBarrier(barrier) => without_memory(check_barrier(context, *barrier)),
        Statement::Store { pointer, value } => {
            without_memory(check_store(context, *pointer, *value))
        }
        Statement::ImageStore {
            image,
            coordinate,
            array_index,
            value,
        } => check_written(alloc, context, *image, *coordinate, *array_index, *value),
        Statement::Atomic {
            pointer,
            fun,
            value,
            result: answer,
        } => without_memory(check_atomic(context, *pointer, *fun, *value, *answer)),
        Statement::ImageAtomic {
            image,
            coordinate,
            array_index,
            fun,
            value,
        } => without_memory(check_image_atomic(
            context,
            *image,
            *coordinate,
            *array_index,
            *fun,
            *value,
        )),
        Statement::WorkGroupUniformLoad {
            pointer,
            result: answer,
        } => without_memory(check_uniform_load(context, *pointer, *answer)),
        Statement::Call {
            function,
            arguments,
            result: answer,
        } => without_memory(check_call(context, *function, arguments, *answer)),
        Statement::RayQuery { query, fun } => {
            without_memory(check_ray_query(context, *query, *fun))
        }
        Statement::SubgroupBallot { predicate, .. } => {
            without_memory(check_ballot(context, *predicate))
        }
        Statement::SubgroupCollectiveOperation {
            op,
            collective_op,
            argument,
            result: answer,
        } => without_memory(check_collective(context, *op, *collective_op, *argument, *answer)),
        Statement::SubgroupGather {
            mode,
            argument,
            result: answer,
        } => without_memory(check_gather(context, *mode, *argument, *answer)),
        Statement::CooperativeStore { target, block } => {
            without_memory(check_cooperative_store(context, *target, *block))
        }
        Statement::RayPipelineFunction(fun) => { without_memory(check_ray_pipeline(context, *fun)) }
    }
}

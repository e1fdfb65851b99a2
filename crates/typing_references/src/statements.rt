//! What statements refer to, besides their operands.

ghost use Rattle.std.specs.Prelude.{◌≡◌, option_map};
ghost use Rattle.ir_blocks.specs.found.View.{statement_view};
ghost use Rattle.spec_expressions.specs.judged.StatementNames.{statement_result, statement_range, statement_callee};
ghost use Rattle.spec_expressions.specs.judged.Kinds.{ray_result};
ghost use Rattle.typing_references.specs.First.{emitted_view};

use ir_arena::handle::Handle;
use ir_arena::range::Range;
use ir_blocks::plain_operation;
use ir_items::{RayQueryFunction, Statement, key};

fn ray_result(fun: RayQueryFunction) -> Option<Handle<key::Expression>>
    ensures { result ≡ ray_result fun }
{
    match fun {
        RayQueryFunction::Proceed { result: answer } => Some(answer),
        RayQueryFunction::Initialize { .. }
        | RayQueryFunction::GenerateIntersection { .. }
        | RayQueryFunction::ConfirmIntersection
        | RayQueryFunction::Terminate => None,
    }
}

/// The result expression of a statement, if it has one.
pub fn result_of(statement: &Statement) -> Option<Handle<key::Expression>>
    ensures { result ≡ statement_result (statement_view statement.now) }
{
    match statement {
        Statement::Atomic { result: answer, .. } | Statement::Call { result: answer, .. } =>
            *answer,
        Statement::WorkGroupUniformLoad { result: answer, .. }
        | Statement::SubgroupBallot { result: answer, .. }
        | Statement::SubgroupCollectiveOperation { result: answer, .. }
        | Statement::SubgroupGather { result: answer, .. } => Some(*answer),
        Statement::RayQuery { fun, .. } => ray_result(*fun),
        Statement::Emit(_)
        | Statement::Block(_)
        | Statement::If { .. }
        | Statement::Switch { .. }
        | Statement::Loop { .. }
        | Statement::Break
        | Statement::Continue
        | Statement::Return { .. }
        | Statement::Kill
        | Statement::ControlBarrier(_)
        | Statement::MemoryBarrier(_)
        | Statement::Store { .. }
        | Statement::ImageStore { .. }
        | Statement::ImageAtomic { .. }
        | Statement::CooperativeStore { .. }
        | Statement::RayPipelineFunction(_) => None,
    }
}

/// The range that a statement emits, if it emits one.
pub fn range_of(statement: &Statement) -> Option<Range<key::Expression>>
    ensures { option_map emitted_view result ≡ statement_range (statement_view statement.now) }
{
    match statement {
        Statement::Emit(range) => Some(*range),
        Statement::Block(_)
        | Statement::If { .. }
        | Statement::Switch { .. }
        | Statement::Loop { .. }
        | Statement::Break
        | Statement::Continue
        | Statement::Return { .. }
        | Statement::Kill
        | Statement::Call { .. }
        | plain_operation!() => None,
    }
}

/// The function that a statement calls, if it calls one.
pub fn callee_of(statement: &Statement) -> Option<Handle<key::Function>>
    ensures { result ≡ statement_callee (statement_view statement.now) }
{
    match statement {
        Statement::Call { function, .. } => Some(*function),
        Statement::Emit(_)
        | Statement::Block(_)
        | Statement::If { .. }
        | Statement::Switch { .. }
        | Statement::Loop { .. }
        | Statement::Break
        | Statement::Continue
        | Statement::Return { .. }
        | Statement::Kill
        | plain_operation!() => None,
    }
}

//! Which stages may run a statement.

ghost use Rattle.std.specs.Prelude.{◌≡◌};
ghost use Rattle.ir_blocks.specs.found.View.{statement_view};
ghost use Rattle.spec_statements.specs.judged.Stages.{statement_stages};

use bitflags::Flags;
use ir_blocks::Statement;
use ir_flags::ShaderStages;
use module_context::CalleeStages;

/// The stages that may run a statement, without its inner blocks (what naga's `validate_block_impl` joins one kind at a time).
/// `subgroup_stages` are those with subgroup operations.
pub fn statement_stages<C: CalleeStages>(
    subgroup_stages: ShaderStages,
    callees: &C,
    statement: &Statement,
) -> ShaderStages
    ensures { result ≡ statement_stages subgroup_stages (C.stages callees.now) (statement_view statement.now) }
{
    match *statement {
        Statement::Kill => ShaderStages::FRAGMENT,
        Statement::ControlBarrier(_)
        | Statement::MemoryBarrier(_)
        | Statement::WorkGroupUniformLoad { .. } => ShaderStages::COMPUTE_LIKE,
        Statement::SubgroupBallot { .. }
        | Statement::SubgroupCollectiveOperation { .. }
        | Statement::SubgroupGather { .. } => subgroup_stages,
        Statement::CooperativeStore { .. } => ShaderStages::COMPUTE,
        Statement::Call { function, .. } => callees.stages_at(function),
        Statement::Emit(_)
        | Statement::Block(_)
        | Statement::If { .. }
        | Statement::Switch { .. }
        | Statement::Loop { .. }
        | Statement::Break
        | Statement::Continue
        | Statement::Return { .. }
        | Statement::Store { .. }
        | Statement::ImageStore { .. }
        | Statement::Atomic { .. }
        | Statement::ImageAtomic { .. }
        | Statement::RayQuery { .. }
        | Statement::RayPipelineFunction(_) => ShaderStages::all(),
    }
}

//! Barriers.

ghost use Rattle.std.specs.Prelude.{◌≡◌, ◌↔◌, IsTrue, MatchResult};
ghost use Rattle.ir_flags.specs.Sets.{Has};
ghost use Rattle.spec_statements.specs.judged.Barriers.{BarrierOK};
ghost use Rattle.function_statement_checks.specs.Barriers.{IsBarrierFault};

use crate::context::StatementContext;
use bitflags::Flags;
use ir_flags::{Barrier, Capabilities, SubgroupOperationSet};
use typing_errors::{FunctionError, SubgroupError};

// Whether the capabilities allow subgroup barriers.
fn has_barriers(capabilities: Capabilities) -> bool
    ensures { IsTrue result ↔ (Has capabilities.0 Capabilities.SUBGROUP.0 × Has capabilities.0 Capabilities.SUBGROUP_BARRIER.0) }
{
    capabilities.contains(Capabilities::SUBGROUP)
        && capabilities.contains(Capabilities::SUBGROUP_BARRIER)
}

/// Whether a barrier is valid: a subgroup barrier needs its capabilities and its operation.
///
/// # Errors
///
/// [`FunctionError::MissingCapability`], or [`FunctionError::InvalidSubgroup`] with [`SubgroupError::UnsupportedOperation`],
/// for a subgroup barrier without them.
pub fn check_barrier<C: StatementContext>(
    context: &C,
    barrier: Barrier,
) -> Result<(), FunctionError>
    ensures { MatchResult result
        (λ _. BarrierOK (C.seen context.now) barrier)
        (IsBarrierFault (C.seen context.now) barrier) }
{
    if !barrier.contains(Barrier::SUB_GROUP) {
        return Ok(());
    }
    if !has_barriers(context.capabilities()) {
        return Err(FunctionError::MissingCapability(Capabilities(
            Capabilities::SUBGROUP.0 | Capabilities::SUBGROUP_BARRIER.0,
        )));
    }
    if !context.operations().contains(SubgroupOperationSet::BASIC) {
        return Err(FunctionError::InvalidSubgroup(SubgroupError::UnsupportedOperation(
            SubgroupOperationSet::BASIC,
        )));
    }
    Ok(())
}

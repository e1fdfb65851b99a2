//! The uniformity fault of a body.

ghost use Rattle.std.specs.Prelude.{◌≡◌, ◌↔◌, IsTrue, IfOk, false, option_map};
ghost use Rattle.ir_flags.specs.Sets.{Has};
ghost use Rattle.ir_flags.specs.declared.settings.TheConstants.ValidationFlags.{CONTROL_FLOW_UNIFORMITY};
ghost use Rattle.ir_blocks.specs.found.View.{block_view};
ghost use Rattle.typing_errors.specs.declared.error.FunctionError.TheVariants.{NonUniformControlFlow};
ghost use Rattle.spec_expressions.specs.found.Found.{required_in};
ghost use Rattle.typing_uniformity.specs.Requiring.{varies_of, look_of, required_view};
ghost use Rattle.typing_uniformity.specs.Uniform.{IsAnswer};

use crate::first_requiring::next_requiring;
use crate::requiring::Requiring;
use crate::walk::seen_in;
use bitflags::Flags;
use ir_arena::handle::Handle;
use ir_flags::ValidationFlags;
use ir_items::{Block, key};
use ir_kinds::Severity;
use spec_expressions::{Uniformity, UniformityRequirements};
use std::alloc::{AllocError, Global};
use typing_errors::{FunctionError, UniformityDisruptor};

/// An operation that requires uniform control flow, in non-uniform control flow.
#[derive(Clone, Copy, Debug)]
pub struct NonUniform {
    /// The requirement.
    pub requirements: UniformityRequirements,
    /// The expression that has the requirement, or the statement's result expression.
    pub expression: Handle<key::Expression>,
    /// The cause: the first of an enclosing branch and an earlier return or discard.
    pub disruptor: UniformityDisruptor,
}

impl NonUniform {
    /// The error that reports it.
    pub fn into_error(self) -> FunctionError
        ensures { result ≡ NonUniformControlFlow self.requirements self.expression self.disruptor }
    {
        FunctionError::NonUniformControlFlow(self.requirements, self.expression, self.disruptor)
    }
}

fn requires_uniformity(flags: ValidationFlags) -> bool
    ensures { IsTrue result ↔ Has flags.0 CONTROL_FLOW_UNIFORMITY.0 }
{
    flags.contains(ValidationFlags::CONTROL_FLOW_UNIFORMITY)
}

// The first fault of the body, given the infos of expressions.
fn first_fault(uniformities: &[Uniformity], next: &[usize], body: &Block) -> Option<NonUniform>
    ensures { option_map required_view result ≡ required_in (varies_of uniformities.now) (look_of uniformities.now next.now) false (block_view body.now) }
{
    let facts = Requiring { uniformities, next };
    seen_in(&facts, &None, body).fault
}

/// A uniformity fault of a body, or `None` if there is none: under the flag `CONTROL_FLOW_UNIFORMITY` an emitted expression
/// with a requirement that counts, or a uniform load from workgroup memory, in non-uniform control
/// flow. `uniformities` has the uniformity of the function's expressions, in order, and `severity` is that of the derivative
/// diagnostic rule in the function (see [`crate::derivative_severity`]). The error is out of memory.
pub fn find_fault(
    alloc: Global,
    flags: ValidationFlags,
    severity: Severity,
    uniformities: &[Uniformity],
    body: &Block,
) -> Result<Option<NonUniform>, AllocError>
    ensures { IfOk result (IsAnswer flags severity uniformities.now (block_view body.now)) }
{
    if !requires_uniformity(flags) {
        return Ok(None);
    }
    let next = next_requiring(alloc, severity, uniformities)?;
    Ok(first_fault(uniformities, &next, body))
}

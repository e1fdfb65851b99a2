//! The pair of a sample expression.

ghost use Rattle.std.specs.Prelude.{◌≡◌, Some, map, OnOk};
ghost use Rattle.ir_types.specs.judged.ExpressionPlain.{expression_view};
ghost use Rattle.ir_items.specs.found.GlobalView.{values_of};
ghost use Rattle.spec_expressions.specs.judged.CallChains.{global_or_argument};
ghost use Rattle.typing_summaries.specs.Pairings.{paired, sample_one};

use crate::pairs::{Part, Sampled};
use crate::places::{Expressions, place};
use ir_arena::handle::Handle;
use ir_types::{Expression, key};
use std::alloc::AllocError;

// The denotation of an image or sampler operand; if there is none, the sample is at fault.
fn own_part(
    expressions: &Expressions,
    operand: Handle<key::Expression>,
    sampling: Handle<key::Expression>,
) -> Part
    ensures means { result.means ≡ global_or_argument (map expression_view (values_of expressions.now)) operand }
    ensures wrong { result.wrong ≡ Some sampling }
{
    Part {
        means: place(expressions, operand),
        wrong: Some(sampling),
    }
}

impl Sampled {
    /// Adds the pair of a sample, if the expression is one. The error is out of memory.
    pub fn sample(
        &mut self,
        expressions: &Expressions,
        handle: Handle<key::Expression>,
        expression: &Expression,
    ) -> Result<(), AllocError>
        ensures { OnOk result (paired self.new
            ≡ sample_one (map expression_view (values_of expressions.now)) handle (expression_view expression.now) (paired self.old)) }
    {
        match *expression {
            Expression::ImageSample { image, sampler, .. } => {
                self.pair(
                    own_part(expressions, image, handle),
                    own_part(expressions, sampler, handle),
                )
            }
            Expression::Literal(_)
            | Expression::Constant(_)
            | Expression::Override(_)
            | Expression::ZeroValue(_)
            | Expression::Compose { .. }
            | Expression::Access { .. }
            | Expression::AccessIndex { .. }
            | Expression::Splat { .. }
            | Expression::Swizzle { .. }
            | Expression::FunctionArgument(_)
            | Expression::GlobalVariable(_)
            | Expression::LocalVariable(_)
            | Expression::Load { .. }
            | Expression::ImageLoad { .. }
            | Expression::ImageQuery { .. }
            | Expression::Unary { .. }
            | Expression::Binary { .. }
            | Expression::Select { .. }
            | Expression::Derivative { .. }
            | Expression::Relational { .. }
            | Expression::Math { .. }
            | Expression::As { .. }
            | Expression::CallResult(_)
            | Expression::AtomicResult { .. }
            | Expression::WorkGroupUniformLoadResult { .. }
            | Expression::ArrayLength(_)
            | Expression::RayQueryVertexPositions { .. }
            | Expression::RayQueryProceedResult
            | Expression::RayQueryGetIntersection { .. }
            | Expression::SubgroupBallotResult
            | Expression::SubgroupOperationResult { .. }
            | Expression::CooperativeLoad { .. }
            | Expression::CooperativeMultiplyAdd { .. } => Ok(()),
        }
    }
}

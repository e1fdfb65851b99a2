//! The stages that may run an expression.

ghost use Rattle.std.specs.Prelude.{◌≡◌};
ghost use Rattle.ir_types.specs.judged.ExpressionPlain.{expression_view};
ghost use Rattle.spec_statements.specs.judged.ExpressionStages.{sample_stages, stages_of};

use bitflags::Flags;
use ir_flags::ShaderStages;
use ir_types::{Expression, SampleLevel};
use module_context::CalleeStages;

// The stages that may sample an image at a level.
fn sample_stages(level: SampleLevel) -> ShaderStages
    ensures { result ≡ sample_stages level }
{
    match level {
        SampleLevel::Auto | SampleLevel::Bias(_) => ShaderStages::FRAGMENT,
        SampleLevel::Zero | SampleLevel::Exact(_) | SampleLevel::Gradient { .. } => {
            ShaderStages::all()
        }
    }
}

/// The stages that may run an expression, given the stages of the functions in `callees`.
pub fn expression_stages<C: CalleeStages>(callees: &C, expression: &Expression) -> ShaderStages
    ensures { result ≡ stages_of (C.stages callees.now) (expression_view expression.now) }
{
    match *expression {
        Expression::ImageSample { level, .. } => sample_stages(level),
        Expression::Derivative { .. } => ShaderStages::FRAGMENT,
        Expression::CallResult(function) => callees.stages_at(function),
        Expression::CooperativeLoad { .. } | Expression::CooperativeMultiplyAdd { .. } => {
            ShaderStages::COMPUTE
        }
        Expression::Literal(_)
        | Expression::Constant(_)
        | Expression::Override(_)
        | Expression::ZeroValue(_)
        | Expression::Compose { .. }
        | Expression::Access { .. }
        | Expression::AccessIndex { .. }
        | Expression::Splat { .. }
        | Expression::Swizzle { .. }
        | Expression::FunctionArgument(_)
        | Expression::GlobalVariable(_)
        | Expression::LocalVariable(_)
        | Expression::Load { .. }
        | Expression::ImageLoad { .. }
        | Expression::ImageQuery { .. }
        | Expression::Unary { .. }
        | Expression::Binary { .. }
        | Expression::Select { .. }
        | Expression::Relational { .. }
        | Expression::Math { .. }
        | Expression::As { .. }
        | Expression::AtomicResult { .. }
        | Expression::WorkGroupUniformLoadResult { .. }
        | Expression::ArrayLength(_)
        | Expression::RayQueryVertexPositions { .. }
        | Expression::RayQueryProceedResult
        | Expression::RayQueryGetIntersection { .. }
        | Expression::SubgroupBallotResult
        | Expression::SubgroupOperationResult { .. } => ShaderStages::all(),
    }
}

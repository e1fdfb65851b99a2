//! Uniformity requirements of expressions.

ghost use Rattle.std.specs.Prelude.{◌≡◌};
ghost use Rattle.ir_types.specs.judged.ExpressionPlain.{expression_view};
ghost use Rattle.spec_expressions.specs.judged.Values.{requirements_of};

use ir_types::Expression;
use spec_expressions::UniformityRequirements;

// The expression's own uniformity requirements, if any.
pub(crate) fn requirements_of(expression: &Expression) -> UniformityRequirements
    ensures { result.0 ≡ requirements_of (expression_view expression.now) }
{
    match *expression {
        Expression::Derivative { .. } => UniformityRequirements::DERIVATIVE,
        Expression::ImageSample { level, .. } => {
            if level.implicit_derivatives() {
                UniformityRequirements::IMPLICIT_LEVEL
            } else {
                UniformityRequirements(0)
            }
        }
        Expression::CooperativeLoad { .. } | Expression::CooperativeMultiplyAdd { .. } => {
            UniformityRequirements::COOP_OPS
        }
        Expression::Literal(_)
        | Expression::Constant(_)
        | Expression::Override(_)
        | Expression::ZeroValue(_)
        | Expression::Compose { .. }
        | Expression::Access { .. }
        | Expression::AccessIndex { .. }
        | Expression::Splat { .. }
        | Expression::Swizzle { .. }
        | Expression::FunctionArgument(_)
        | Expression::GlobalVariable(_)
        | Expression::LocalVariable(_)
        | Expression::Load { .. }
        | Expression::ImageLoad { .. }
        | Expression::ImageQuery { .. }
        | Expression::Unary { .. }
        | Expression::Binary { .. }
        | Expression::Select { .. }
        | Expression::Relational { .. }
        | Expression::Math { .. }
        | Expression::As { .. }
        | Expression::CallResult(_)
        | Expression::AtomicResult { .. }
        | Expression::WorkGroupUniformLoadResult { .. }
        | Expression::ArrayLength(_)
        | Expression::RayQueryVertexPositions { .. }
        | Expression::RayQueryProceedResult
        | Expression::RayQueryGetIntersection { .. }
        | Expression::SubgroupBallotResult
        | Expression::SubgroupOperationResult { .. } => UniformityRequirements(0),
    }
}

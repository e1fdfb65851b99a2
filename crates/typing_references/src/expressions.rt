//! The items that expressions refer to, besides their operands.

ghost use Rattle.std.specs.Prelude.{◌≡◌};
ghost use Rattle.ir_types.specs.judged.ExpressionPlain.{expression_view};
ghost use Rattle.spec_expressions.specs.judged.ExpressionNames.{expression_item};

use ir_types::Expression;
use spec_expressions::Target;

/// The item that an expression refers to besides its operands, if any.
pub fn item_of(expression: &Expression) -> Option<Target>
    ensures { result ≡ expression_item (expression_view expression.now) }
{
    match *expression {
        Expression::Constant(handle) => Some(Target::Constant(handle)),
        Expression::Override(handle) => Some(Target::Override(handle)),
        Expression::ZeroValue(ty)
        | Expression::Compose { ty, .. }
        | Expression::AtomicResult { ty, .. }
        | Expression::WorkGroupUniformLoadResult { ty }
        | Expression::SubgroupOperationResult { ty } => Some(Target::Type(ty)),
        Expression::GlobalVariable(handle) => Some(Target::GlobalVariable(handle)),
        Expression::LocalVariable(handle) => Some(Target::LocalVariable(handle)),
        Expression::CallResult(function) => Some(Target::Function(function)),
        Expression::Literal(_)
        | Expression::Access { .. }
        | Expression::AccessIndex { .. }
        | Expression::Splat { .. }
        | Expression::Swizzle { .. }
        | Expression::FunctionArgument(_)
        | Expression::Load { .. }
        | Expression::ImageSample { .. }
        | Expression::ImageLoad { .. }
        | Expression::ImageQuery { .. }
        | Expression::Unary { .. }
        | Expression::Binary { .. }
        | Expression::Select { .. }
        | Expression::Derivative { .. }
        | Expression::Relational { .. }
        | Expression::Math { .. }
        | Expression::As { .. }
        | Expression::ArrayLength(_)
        | Expression::RayQueryVertexPositions { .. }
        | Expression::RayQueryProceedResult
        | Expression::RayQueryGetIntersection { .. }
        | Expression::SubgroupBallotResult
        | Expression::CooperativeLoad { .. }
        | Expression::CooperativeMultiplyAdd { .. } => None,
    }
}

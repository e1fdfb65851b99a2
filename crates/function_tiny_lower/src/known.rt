//! The expressions that the layer supports.

ghost use Rattle.std.specs.Prelude.{◌≡◌};
ghost use Rattle.ir_types.specs.judged.ExpressionPlain.{expression_view};
ghost use Rattle.function_tiny_lower.specs.Known.{known_of};

use ir_arena::handle::Handle;
use ir_kinds::{BinaryOperator, Literal, UnaryOperator};
use ir_types::{Expression, key};

/// An expression of a supported kind.
#[derive(Clone, Copy)]
pub(crate) enum Known {
    /// A literal.
    Literal(Literal),
    /// The zero value of a type.
    ZeroValue(Handle<key::IrType>),
    /// The function's argument at this index.
    FunctionArgument(u32),
    /// A unary operation.
    Unary {
        /// The operation.
        op: UnaryOperator,
        /// The value.
        expr: Handle<key::Expression>,
    },
    /// A binary operation.
    Binary {
        /// The operation.
        op: BinaryOperator,
        /// The first.
        left: Handle<key::Expression>,
        /// The second.
        right: Handle<key::Expression>,
    },
    /// A `Select`.
    Select {
        /// The condition.
        condition: Handle<key::Expression>,
        /// The value if it is true.
        accept: Handle<key::Expression>,
        /// The value if it is false.
        reject: Handle<key::Expression>,
    },
    /// The result of a call of this function.
    CallResult(Handle<key::Function>),
}

/// The expression, if it is of a supported kind.
pub(crate) fn known_of(expression: &Expression) -> Option<Known>
    ensures { result ≡ known_of (expression_view expression.now) }
{
    match *expression {
        Expression::Literal(value) => Some(Known::Literal(value)),
        Expression::ZeroValue(ty) => Some(Known::ZeroValue(ty)),
        Expression::FunctionArgument(place) => Some(Known::FunctionArgument(place)),
        Expression::Unary { op, expr } => Some(Known::Unary { op, expr }),
        Expression::Binary { op, left, right } => Some(Known::Binary { op, left, right }),
        Expression::Select {
            condition,
            accept,
            reject,
        } => Some(Known::Select {
            condition,
            accept,
            reject,
        }),
        Expression::CallResult(function) => Some(Known::CallResult(function)),
        Expression::Constant(_)
        | Expression::Override(_)
        | Expression::Compose { .. }
        | Expression::Access { .. }
        | Expression::AccessIndex { .. }
        | Expression::Splat { .. }
        | Expression::Swizzle { .. }
        | Expression::GlobalVariable(_)
        | Expression::LocalVariable(_)
        | Expression::Load { .. }
        | Expression::ImageSample { .. }
        | Expression::ImageLoad { .. }
        | Expression::ImageQuery { .. }
        | Expression::Derivative { .. }
        | Expression::Relational { .. }
        | Expression::Math { .. }
        | Expression::As { .. }
        | Expression::AtomicResult { .. }
        | Expression::WorkGroupUniformLoadResult { .. }
        | Expression::ArrayLength(_)
        | Expression::RayQueryVertexPositions { .. }
        | Expression::RayQueryProceedResult
        | Expression::RayQueryGetIntersection { .. }
        | Expression::SubgroupBallotResult
        | Expression::SubgroupOperationResult { .. }
        | Expression::CooperativeLoad { .. }
        | Expression::CooperativeMultiplyAdd { .. } => None,
    }
}

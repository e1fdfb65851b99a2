//! The checks of global expressions.

ghost use Rattle.std.specs.Prelude.{◌≡◌, ◌<◌, Some, length, slice_get, MatchResult};
ghost use Rattle.module_constants.specs.Expressions.{IsComponentsFault, IsConstExpressionFault};
ghost use Rattle.ir_types.specs.judged.ExpressionPlain.{compose, expression_view};
ghost use Rattle.module_constants.specs.Required.{IsLate, IsUnmet};
ghost use Rattle.module_constants.specs.Firsts.{AreAccepted, IsFirstRefused};
ghost use Rattle.module_constants.specs.Known.{IsKnown, module_in};
ghost use Rattle.module_constants.specs.Refusals.{IsExpressionRefused};
ghost use Rattle.spec_expressions.specs.judged.Compose.{ComponentsOK};
ghost use Rattle.spec_expressions.specs.judged.GlobalExpressions.{required_of, IsMet, MayWait, GlobalExpressionOK};
ghost use Rattle.spec_expressions.specs.judged.LiteralScalars.{LiteralOK};
ghost use Rattle.spec_expressions.specs.judged.Context.{outside};
ghost use Rattle.module_type_checks.specs.Widths.{IsLiteralFault};

use crate::context::{GlobalContext, known_kind};
use crate::{Components, check_composition};
use ir_arena::handle::Handle;
use ir_types::{Expression, key};
use module_type_checks::validate_literal;
use thiserror::Error;
use typing_errors::{ComposeError, ConstExpressionError};
use typing_layout::ExpressionKind;

/// An invalid global expression (naga's `ValidationError::ConstExpression`).
#[derive(Clone, PartialEq, Debug, Drop, Error)]
#[error("global expression {expression:?} is invalid: {error}")]
pub struct InvalidGlobalExpression {
    /// The handle of the expression.
    pub expression: Handle<key::Expression>,
    /// Its error.
    pub error: ConstExpressionError,
}

// Whether the components of a `Compose` compose its type.
fn check_components(
    context: &GlobalContext<'_>,
    handle: Handle<key::Expression>,
    ty: Handle<key::IrType>,
    components: &[Handle<key::Expression>],
) -> Result<(), ComposeError>
    requires known { IsKnown context.now }
    requires stands { slice_get (module_in context.now).global_expressions handle ≡ Some (compose ty components.now) }
    ensures { MatchResult result
        (λ _. ComponentsOK (outside (module_in context.now)) (module_in context.now).global_expressions ty components.now)
        (IsComponentsFault (outside (module_in context.now)) (module_in context.now).global_expressions ty components.now) }
{
    let named = Components::Expressions {
        forms: context.forms,
        handles: components,
    };
    check_composition(&context.module.types, ty, &named)
}

// Whether an expression that must be evaluated to a literal may remain unevaluated.
fn check_late(resolved: bool, kind: ExpressionKind) -> Result<(), ConstExpressionError>
    ensures { MatchResult result (λ _. MayWait resolved kind) (IsLate resolved kind) }
{
    match kind {
        ExpressionKind::Override => {
            if resolved {
                Err(ConstExpressionError::NonFullyEvaluatedConst)
            } else {
                Ok(())
            }
        }
        ExpressionKind::Const | ExpressionKind::Runtime => {
            Err(ConstExpressionError::NonFullyEvaluatedConst)
        }
    }
}

// Whether a global expression meets its requirements, given its expression kind.
fn check_met(
    context: &GlobalContext<'_>,
    kind: ExpressionKind,
    handle: Handle<key::Expression>,
    expression: &Expression,
) -> Result<(), ConstExpressionError>
    requires known { IsKnown context.now }
    requires stands { slice_get (module_in context.now).global_expressions handle ≡ Some (expression_view expression.now) }
    ensures { MatchResult result
        (λ _. IsMet context.now.capabilities context.now.overrides_resolved (module_in context.now) kind (required_of (expression_view expression.now)))
        (IsUnmet context.now.capabilities context.now.overrides_resolved (module_in context.now) kind (required_of (expression_view expression.now))) }
{
    match *expression {
        Expression::Literal(value) => match validate_literal(context.capabilities, value) {
            Ok(()) => Ok(()),
            Err(error) => Err(ConstExpressionError::Literal(error)),
        },
        Expression::Compose { ty, ref components } => {
            match check_components(context, handle, ty, components.as_slice()) {
                Ok(()) => Ok(()),
                Err(error) => Err(ConstExpressionError::Compose(error)),
            }
        }
        Expression::Constant(_)
        | Expression::Override(_)
        | Expression::ZeroValue(_)
        | Expression::Splat { .. } => Ok(()),
        Expression::Access { .. }
        | Expression::AccessIndex { .. }
        | Expression::Swizzle { .. }
        | Expression::FunctionArgument(_)
        | Expression::GlobalVariable(_)
        | Expression::LocalVariable(_)
        | Expression::Load { .. }
        | Expression::ImageSample { .. }
        | Expression::ImageLoad { .. }
        | Expression::ImageQuery { .. }
        | Expression::Unary { .. }
        | Expression::Binary { .. }
        | Expression::Select { .. }
        | Expression::Derivative { .. }
        | Expression::Relational { .. }
        | Expression::Math { .. }
        | Expression::As { .. }
        | Expression::CallResult(_)
        | Expression::AtomicResult { .. }
        | Expression::WorkGroupUniformLoadResult { .. }
        | Expression::ArrayLength(_)
        | Expression::RayQueryVertexPositions { .. }
        | Expression::RayQueryProceedResult
        | Expression::RayQueryGetIntersection { .. }
        | Expression::SubgroupBallotResult
        | Expression::SubgroupOperationResult { .. }
        | Expression::CooperativeLoad { .. }
        | Expression::CooperativeMultiplyAdd { .. } => {
            check_late(context.overrides_resolved, kind)
        }
    }
}

/// Whether the global expression at a handle is valid (naga's `validate_const_expression`). Its type is already
/// inferred.
///
/// # Errors
///
/// It is a runtime expression, it was not evaluated, it is a literal that is not allowed, or a `Compose` whose components do
/// not fit. An error is returned only if its condition holds.
#[tactic(auto, using(crate::proofs::Reported::expression_refused))]
pub fn validate_const_expression(
    context: &GlobalContext<'_>,
    handle: Handle<key::Expression>,
) -> Result<(), ConstExpressionError>
    requires known { IsKnown context.now }
    requires within { handle < length context.now.«module».now.global_expressions }
    ensures { MatchResult result
        (λ _. GlobalExpressionOK context.now.capabilities context.now.overrides_resolved (module_in context.now) handle)
        (IsExpressionRefused context.now.capabilities context.now.overrides_resolved (module_in context.now) handle) }
{
    let kind = known_kind(context, handle);
    if kind == ExpressionKind::Runtime {
        return Err(ConstExpressionError::NonConstOrOverride);
    }
    check_met(
        context,
        kind,
        handle,
        &context.module.global_expressions[handle],
    )
}

/// Whether all global expressions of a module are valid. Each is visited once, with its components.
///
/// # Errors
///
/// The first invalid expression, with one of its errors.
pub fn validate_const_expressions(
    context: &GlobalContext<'_>,
) -> Result<(), InvalidGlobalExpression>
    requires known { IsKnown context.now }
    ensures { MatchResult result
        (λ _. AreAccepted
        (GlobalExpressionOK context.now.capabilities context.now.overrides_resolved (module_in context.now))
        (length (module_in context.now).global_expressions))
        (λ e. IsFirstRefused
        (GlobalExpressionOK context.now.capabilities context.now.overrides_resolved (module_in context.now))
        (λ handle. IsConstExpressionFault context.now.capabilities context.now.overrides_resolved (module_in context.now) handle e.error)
        (length (module_in context.now).global_expressions) e.expression) }
{
    for place in 0..context.module.global_expressions.len() {
        let expression = Handle::at(place);
        match validate_const_expression(context, expression) {
            Ok(()) => {}
            Err(error) => return Err(InvalidGlobalExpression { expression, error }),
        }
    }
    Ok(())
}

//! The check of expressions: one arm for each variant.

ghost use Rattle.std.specs.Prelude.{◌<◌, length, MatchResult};
ghost use Rattle.module_context.specs.OperandView.{scene_in, IsKnown};
ghost use Rattle.module_context.specs.Refused.{IsRefused};
ghost use Rattle.module_expressions.specs.Faults.{ImageOK, IsFaultOf, IsExpressionFault};
ghost use Rattle.ir_types.specs.judged.ExpressionPlain.{expression_view};
ghost use Rattle.spec_statements.specs.judged.Expressions.{RequiredOf, ExpressionOK};
ghost use Rattle.spec_statements.specs.judged.ExpressionStages.{IsRunBy};

use crate::stages::expression_stages;
use crate::{check_image_load, check_image_query, check_image_sample};
use ir_arena::handle::Handle;
use ir_flags::ShaderStages;
use ir_types::{Expression as E, key};
use module_context::{CheckContext, ListedStages};
use module_expression_checks::{
    check_access, check_access_index, check_array_length, check_as, check_atomic_result,
    check_binary, check_compose, check_cooperative_load, check_derivative, check_intersection,
    check_literal, check_load, check_multiply_add, check_relational, check_select, check_swizzle,
    check_unary, check_uniform_load, check_vertex_positions, check_zero,
};
use spec_statements::Sampling;
use typing_errors::ExpressionError;

// Whether an expression is an image operation that meets its requirements.
fn check_image(context: &CheckContext<'_>, expression: &E) -> Result<(), ExpressionError>
    requires { IsKnown context.now }
    ensures { MatchResult result
        (λ _. ImageOK (scene_in context.now) (expression_view expression.now))
        (IsRefused (ImageOK (scene_in context.now) (expression_view expression.now))) }
{
    match *expression {
        E::ImageSample {
            image,
            sampler,
            gather,
            coordinate,
            array_index,
            offset,
            level,
            depth_ref,
            clamp_to_edge,
        } => {
            let by = Sampling {
                sampler,
                gather,
                coordinate,
                array_index,
                offset,
                level,
                depth_ref,
                clamp_to_edge,
            };
            check_image_sample(context, image, &by)
        }
        E::ImageLoad {
            image,
            coordinate,
            array_index,
            sample,
            level,
        } => check_image_load(context, image, coordinate, array_index, sample, level),
        E::ImageQuery { image, query } => check_image_query(context, image, query),
        _ => Err(ExpressionError::Other),
    }
}

// Whether an expression meets its requirements.
fn check_expression(context: &CheckContext<'_>, expression: &E) -> Result<(), ExpressionError>
    requires { IsKnown context.now }
    ensures { MatchResult result
        (λ _. RequiredOf (scene_in context.now) (expression_view expression.now))
        (IsFaultOf (scene_in context.now) (expression_view expression.now)) }
{
    match *expression {
        E::Literal(value) => check_literal(context.capabilities, value),
        E::ZeroValue(ty) => check_zero(context, ty),
        E::Compose {
            ref ty,
            ref components,
        } => check_compose(context, *ty, components.as_slice()),
        E::Access { base, index } => check_access(context, base, index),
        E::AccessIndex { base, index } => check_access_index(context, base, index),
        E::Swizzle {
            size,
            vector,
            pattern,
        } => check_swizzle(context, size, vector, pattern),
        E::Load { pointer } => check_load(context, pointer),
        E::ImageSample { .. } | E::ImageLoad { .. } | E::ImageQuery { .. } => check_image(
            context, expression,
        ),
        E::Unary { op, expr } => check_unary(context, op, expr),
        E::Binary { op, left, right } => check_binary(context, op, left, right),
        E::Select {
            condition,
            accept,
            reject,
        } => check_select(context, condition, accept, reject),
        E::Derivative { expr, .. } => check_derivative(context, expr),
        E::Relational { fun, argument } => check_relational(context, fun, argument),
        E::As {
            expr,
            kind,
            convert,
        } => check_as(context, expr, kind, convert),
        E::AtomicResult { ty, comparison } => check_atomic_result(context, ty, comparison),
        E::WorkGroupUniformLoadResult { ty } => check_uniform_load(context, ty),
        E::ArrayLength(array) => check_array_length(context, array),
        E::RayQueryVertexPositions { query, .. } => check_vertex_positions(context, query),
        E::RayQueryGetIntersection { query, .. } => check_intersection(context, query),
        E::CooperativeLoad { block, .. } => check_cooperative_load(context, block.stride),
        E::CooperativeMultiplyAdd { a, b, c } => check_multiply_add(context, a, b, c),
        E::Constant(_)
        | E::Override(_)
        | E::Splat { .. }
        | E::FunctionArgument(_)
        | E::GlobalVariable(_)
        | E::LocalVariable(_)
        | E::Math { .. }
        | E::CallResult(_)
        | E::RayQueryProceedResult
        | E::SubgroupBallotResult
        | E::SubgroupOperationResult { .. } => Ok(()),
    }
}

/// Whether the expression at a handle is valid, and which stages may run it (naga's `validate_expression`).
///
/// Requires that the handle is in the arena, and that the context has all `TypeInfo`s and all expression kinds.
///
/// # Errors
///
/// [`ExpressionError::Literal`] and [`ExpressionError::Compose`] for an invalid literal and for components that do not
/// compose the type, [`ExpressionError::Other`] for the failed requirement of any other expression. An error is
/// returned only if its condition holds.
pub fn validate_expression(
    context: &CheckContext<'_>,
    handle: Handle<key::Expression>,
) -> Result<ShaderStages, ExpressionError>
    requires known { IsKnown context.now }
    requires within { handle < length context.now.expressions.now }
    ensures { MatchResult result
        (λ stages. ExpressionOK (scene_in context.now) handle × IsRunBy context.now.callees.now (scene_in context.now).expressions handle stages)
        (IsExpressionFault (scene_in context.now) handle) }
{
    let expression = &context.expressions[handle];
    match check_expression(context, expression) {
        Ok(()) => Ok(expression_stages(&ListedStages(context.callees), expression)),
        Err(error) => Err(error),
    }
}

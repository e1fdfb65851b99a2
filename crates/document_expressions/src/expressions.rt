// The JSON forms of expressions, each kind decoded by a function of its own.
ghost use Rattle.std.specs.Prelude.{◌≡◌, option_map};
ghost use Rattle.serde_json.specs.View.{view as data_of, items_view};
ghost use Rattle.ir_types.specs.judged.ExpressionPlain.{PlainExpression, expression_view};
ghost use Rattle.document_forms.specs.found.Answers.{Answers};
ghost use Rattle.document_expressions.specs.found.Expressions.{expression_with, an_expression};

use crate::images::{LevelForm, PatternForm, QueryForm};
use crate::kinds::ExpressionKind;
use crate::literals::LiteralRow;
use document_forms::{
    At, Each, End, Form, Maybe, ReadError, Side, Size, Truth, U8, U32, WordOf, read_items, read_tag,
};
use ir_kinds::{
    BinaryOperator, CooperativeRole, DerivativeAxis, DerivativeControl, MathFunction,
    RelationalFunction, ScalarKind, SwizzleComponent, UnaryOperator,
};
use ir_types::{CooperativeData, Expression, key};
use serde_json::Value;
use std::alloc::Global;

type T = At<key::IrType>;

type E = At<key::Expression>;

#[tactic(auto, unfolding(crate::specs::found::Expressions::expression_with))]
fn literal(alloc: Global, rest: &[Value]) -> Result<Expression, ReadError>
    ensures { Answers result (λ found. option_map expression_view found ≡ expression_with ExpressionKind.Literal (items_view rest.now)) }
{
    let literal = read_items::<LiteralRow>(alloc, rest)?;
    Ok(Expression::Literal(literal))
}

#[tactic(auto, unfolding(crate::specs::found::Expressions::expression_with))]
fn constant(alloc: Global, rest: &[Value]) -> Result<Expression, ReadError>
    ensures { Answers result (λ found. option_map expression_view found ≡ expression_with ExpressionKind.Constant (items_view rest.now)) }
{
    let (handle,) = read_items::<(At<key::Constant>,)>(alloc, rest)?;
    Ok(Expression::Constant(handle))
}

#[tactic(auto, unfolding(crate::specs::found::Expressions::expression_with))]
fn override_value(alloc: Global, rest: &[Value]) -> Result<Expression, ReadError>
    ensures { Answers result (λ found. option_map expression_view found ≡ expression_with ExpressionKind.Override (items_view rest.now)) }
{
    let (handle,) = read_items::<(At<key::Override>,)>(alloc, rest)?;
    Ok(Expression::Override(handle))
}

#[tactic(auto, unfolding(crate::specs::found::Expressions::expression_with))]
fn zero_value(alloc: Global, rest: &[Value]) -> Result<Expression, ReadError>
    ensures { Answers result (λ found. option_map expression_view found ≡ expression_with ExpressionKind.ZeroValue (items_view rest.now)) }
{
    let (ty,) = read_items::<(T,)>(alloc, rest)?;
    Ok(Expression::ZeroValue(ty))
}

#[tactic(auto, unfolding(crate::specs::found::Expressions::expression_with))]
fn compose(alloc: Global, rest: &[Value]) -> Result<Expression, ReadError>
    ensures { Answers result (λ found. option_map expression_view found ≡ expression_with ExpressionKind.Compose (items_view rest.now)) }
{
    let (ty, components) = read_items::<(T, Each<E>)>(alloc, rest)?;
    Ok(Expression::Compose { ty, components })
}

#[tactic(auto, unfolding(crate::specs::found::Expressions::expression_with))]
fn access(alloc: Global, rest: &[Value]) -> Result<Expression, ReadError>
    ensures { Answers result (λ found. option_map expression_view found ≡ expression_with ExpressionKind.Access (items_view rest.now)) }
{
    let (base, index) = read_items::<(E, E)>(alloc, rest)?;
    Ok(Expression::Access { base, index })
}

#[tactic(auto, unfolding(crate::specs::found::Expressions::expression_with))]
fn access_index(alloc: Global, rest: &[Value]) -> Result<Expression, ReadError>
    ensures { Answers result (λ found. option_map expression_view found ≡ expression_with ExpressionKind.AccessIndex (items_view rest.now)) }
{
    let (base, index) = read_items::<(E, U32)>(alloc, rest)?;
    Ok(Expression::AccessIndex { base, index })
}

#[tactic(auto, unfolding(crate::specs::found::Expressions::expression_with))]
fn splat(alloc: Global, rest: &[Value]) -> Result<Expression, ReadError>
    ensures { Answers result (λ found. option_map expression_view found ≡ expression_with ExpressionKind.Splat (items_view rest.now)) }
{
    let (size, value) = read_items::<(Size, E)>(alloc, rest)?;
    Ok(Expression::Splat { size, value })
}

#[tactic(auto, unfolding(crate::specs::found::Expressions::expression_with))]
fn swizzle(alloc: Global, rest: &[Value]) -> Result<Expression, ReadError>
    ensures { Answers result (λ found. option_map expression_view found ≡ expression_with ExpressionKind.Swizzle (items_view rest.now)) }
{
    let (size, vector, pattern) = read_items::<(Size, E, PatternForm)>(alloc, rest)?;
    Ok(Expression::Swizzle {
        size,
        vector,
        pattern,
    })
}

#[tactic(auto, unfolding(crate::specs::found::Expressions::expression_with))]
fn function_argument(alloc: Global, rest: &[Value]) -> Result<Expression, ReadError>
    ensures { Answers result (λ found. option_map expression_view found ≡ expression_with ExpressionKind.FunctionArgument (items_view rest.now)) }
{
    let (index,) = read_items::<(U32,)>(alloc, rest)?;
    Ok(Expression::FunctionArgument(index))
}

#[tactic(auto, unfolding(crate::specs::found::Expressions::expression_with))]
fn global_variable(alloc: Global, rest: &[Value]) -> Result<Expression, ReadError>
    ensures { Answers result (λ found. option_map expression_view found ≡ expression_with ExpressionKind.GlobalVariable (items_view rest.now)) }
{
    let (handle,) = read_items::<(At<key::GlobalVariable>,)>(alloc, rest)?;
    Ok(Expression::GlobalVariable(handle))
}

#[tactic(auto, unfolding(crate::specs::found::Expressions::expression_with))]
fn local_variable(alloc: Global, rest: &[Value]) -> Result<Expression, ReadError>
    ensures { Answers result (λ found. option_map expression_view found ≡ expression_with ExpressionKind.LocalVariable (items_view rest.now)) }
{
    let (handle,) = read_items::<(At<key::LocalVariable>,)>(alloc, rest)?;
    Ok(Expression::LocalVariable(handle))
}

#[tactic(auto, unfolding(crate::specs::found::Expressions::expression_with))]
fn load(alloc: Global, rest: &[Value]) -> Result<Expression, ReadError>
    ensures { Answers result (λ found. option_map expression_view found ≡ expression_with ExpressionKind.Load (items_view rest.now)) }
{
    let (pointer,) = read_items::<(E,)>(alloc, rest)?;
    Ok(Expression::Load { pointer })
}

#[tactic(auto, unfolding(crate::specs::found::Expressions::expression_with))]
fn image_sample(alloc: Global, rest: &[Value]) -> Result<Expression, ReadError>
    ensures { Answers result (λ found. option_map expression_view found ≡ expression_with ExpressionKind.ImageSample (items_view rest.now)) }
{
    let (image, sampler, gather, coordinate, array_index, offset, level, depth_ref, clamp_to_edge) =
        read_items::<
            (
                E,
                E,
                Maybe<WordOf<SwizzleComponent>>,
                E,
                Maybe<E>,
                Maybe<E>,
                LevelForm,
                Maybe<E>,
                Truth,
            ),
        >(alloc, rest)?;
    Ok(Expression::ImageSample {
        image,
        sampler,
        gather,
        coordinate,
        array_index,
        offset,
        level,
        depth_ref,
        clamp_to_edge,
    })
}

#[tactic(auto, unfolding(crate::specs::found::Expressions::expression_with))]
fn image_load(alloc: Global, rest: &[Value]) -> Result<Expression, ReadError>
    ensures { Answers result (λ found. option_map expression_view found ≡ expression_with ExpressionKind.ImageLoad (items_view rest.now)) }
{
    let (image, coordinate, array_index, sample, level) = read_items::<
        (E, E, Maybe<E>, Maybe<E>, Maybe<E>),
    >(alloc, rest)?;
    Ok(Expression::ImageLoad {
        image,
        coordinate,
        array_index,
        sample,
        level,
    })
}

#[tactic(auto, unfolding(crate::specs::found::Expressions::expression_with))]
fn image_query(alloc: Global, rest: &[Value]) -> Result<Expression, ReadError>
    ensures { Answers result (λ found. option_map expression_view found ≡ expression_with ExpressionKind.ImageQuery (items_view rest.now)) }
{
    let (image, query) = read_items::<(E, QueryForm)>(alloc, rest)?;
    Ok(Expression::ImageQuery { image, query })
}

#[tactic(auto, unfolding(crate::specs::found::Expressions::expression_with))]
fn unary(alloc: Global, rest: &[Value]) -> Result<Expression, ReadError>
    ensures { Answers result (λ found. option_map expression_view found ≡ expression_with ExpressionKind.Unary (items_view rest.now)) }
{
    let (op, expr) = read_items::<(WordOf<UnaryOperator>, E)>(alloc, rest)?;
    Ok(Expression::Unary { op, expr })
}

#[tactic(auto, unfolding(crate::specs::found::Expressions::expression_with))]
fn binary(alloc: Global, rest: &[Value]) -> Result<Expression, ReadError>
    ensures { Answers result (λ found. option_map expression_view found ≡ expression_with ExpressionKind.Binary (items_view rest.now)) }
{
    let (op, left, right) = read_items::<(WordOf<BinaryOperator>, E, E)>(alloc, rest)?;
    Ok(Expression::Binary { op, left, right })
}

#[tactic(auto, unfolding(crate::specs::found::Expressions::expression_with))]
fn select(alloc: Global, rest: &[Value]) -> Result<Expression, ReadError>
    ensures { Answers result (λ found. option_map expression_view found ≡ expression_with ExpressionKind.Select (items_view rest.now)) }
{
    let (condition, accept, reject) = read_items::<(E, E, E)>(alloc, rest)?;
    Ok(Expression::Select {
        condition,
        accept,
        reject,
    })
}

#[tactic(auto, unfolding(crate::specs::found::Expressions::expression_with))]
fn derivative(alloc: Global, rest: &[Value]) -> Result<Expression, ReadError>
    ensures { Answers result (λ found. option_map expression_view found ≡ expression_with ExpressionKind.Derivative (items_view rest.now)) }
{
    let (axis, ctrl, expr) = read_items::<(WordOf<DerivativeAxis>, WordOf<DerivativeControl>, E)>(
        alloc, rest,
    )?;
    Ok(Expression::Derivative { axis, ctrl, expr })
}

#[tactic(auto, unfolding(crate::specs::found::Expressions::expression_with))]
fn relational(alloc: Global, rest: &[Value]) -> Result<Expression, ReadError>
    ensures { Answers result (λ found. option_map expression_view found ≡ expression_with ExpressionKind.Relational (items_view rest.now)) }
{
    let (fun, argument) = read_items::<(WordOf<RelationalFunction>, E)>(alloc, rest)?;
    Ok(Expression::Relational { fun, argument })
}

#[tactic(auto, unfolding(crate::specs::found::Expressions::expression_with))]
fn math(alloc: Global, rest: &[Value]) -> Result<Expression, ReadError>
    ensures { Answers result (λ found. option_map expression_view found ≡ expression_with ExpressionKind.Math (items_view rest.now)) }
{
    let (fun, arg, arg1, arg2, arg3) = read_items::<
        (WordOf<MathFunction>, E, Maybe<E>, Maybe<E>, Maybe<E>),
    >(alloc, rest)?;
    Ok(Expression::Math {
        fun,
        arg,
        arg1,
        arg2,
        arg3,
    })
}

#[tactic(auto, unfolding(crate::specs::found::Expressions::expression_with))]
fn conversion(alloc: Global, rest: &[Value]) -> Result<Expression, ReadError>
    ensures { Answers result (λ found. option_map expression_view found ≡ expression_with ExpressionKind.As (items_view rest.now)) }
{
    let (expr, kind, convert) = read_items::<(E, WordOf<ScalarKind>, Maybe<U8>)>(alloc, rest)?;
    Ok(Expression::As {
        expr,
        kind,
        convert,
    })
}

#[tactic(auto, unfolding(crate::specs::found::Expressions::expression_with))]
fn call_result(alloc: Global, rest: &[Value]) -> Result<Expression, ReadError>
    ensures { Answers result (λ found. option_map expression_view found ≡ expression_with ExpressionKind.CallResult (items_view rest.now)) }
{
    let (function,) = read_items::<(At<key::Function>,)>(alloc, rest)?;
    Ok(Expression::CallResult(function))
}

#[tactic(auto, unfolding(crate::specs::found::Expressions::expression_with))]
fn atomic_result(alloc: Global, rest: &[Value]) -> Result<Expression, ReadError>
    ensures { Answers result (λ found. option_map expression_view found ≡ expression_with ExpressionKind.AtomicResult (items_view rest.now)) }
{
    let (ty, comparison) = read_items::<(T, Truth)>(alloc, rest)?;
    Ok(Expression::AtomicResult { ty, comparison })
}

#[tactic(auto, unfolding(crate::specs::found::Expressions::expression_with))]
fn uniform_load_result(alloc: Global, rest: &[Value]) -> Result<Expression, ReadError>
    ensures { Answers result (λ found. option_map expression_view found ≡ expression_with ExpressionKind.WorkGroupUniformLoadResult (items_view rest.now)) }
{
    let (ty,) = read_items::<(T,)>(alloc, rest)?;
    Ok(Expression::WorkGroupUniformLoadResult { ty })
}

#[tactic(auto, unfolding(crate::specs::found::Expressions::expression_with))]
fn array_length(alloc: Global, rest: &[Value]) -> Result<Expression, ReadError>
    ensures { Answers result (λ found. option_map expression_view found ≡ expression_with ExpressionKind.ArrayLength (items_view rest.now)) }
{
    let (pointer,) = read_items::<(E,)>(alloc, rest)?;
    Ok(Expression::ArrayLength(pointer))
}

#[tactic(auto, unfolding(crate::specs::found::Expressions::expression_with))]
fn ray_query_vertex_positions(alloc: Global, rest: &[Value]) -> Result<Expression, ReadError>
    ensures { Answers result (λ found. option_map expression_view found ≡ expression_with ExpressionKind.RayQueryVertexPositions (items_view rest.now)) }
{
    let (query, committed) = read_items::<(E, Truth)>(alloc, rest)?;
    Ok(Expression::RayQueryVertexPositions { query, committed })
}

#[tactic(auto, unfolding(crate::specs::found::Expressions::expression_with))]
fn ray_query_proceed_result(alloc: Global, rest: &[Value]) -> Result<Expression, ReadError>
    ensures { Answers result (λ found. option_map expression_view found ≡ expression_with ExpressionKind.RayQueryProceedResult (items_view rest.now)) }
{
    read_items::<End>(alloc, rest)?;
    Ok(Expression::RayQueryProceedResult)
}

#[tactic(auto, unfolding(crate::specs::found::Expressions::expression_with))]
fn ray_query_get_intersection(alloc: Global, rest: &[Value]) -> Result<Expression, ReadError>
    ensures { Answers result (λ found. option_map expression_view found ≡ expression_with ExpressionKind.RayQueryGetIntersection (items_view rest.now)) }
{
    let (query, committed) = read_items::<(E, Truth)>(alloc, rest)?;
    Ok(Expression::RayQueryGetIntersection { query, committed })
}

#[tactic(auto, unfolding(crate::specs::found::Expressions::expression_with))]
fn subgroup_ballot_result(alloc: Global, rest: &[Value]) -> Result<Expression, ReadError>
    ensures { Answers result (λ found. option_map expression_view found ≡ expression_with ExpressionKind.SubgroupBallotResult (items_view rest.now)) }
{
    read_items::<End>(alloc, rest)?;
    Ok(Expression::SubgroupBallotResult)
}

#[tactic(auto, unfolding(crate::specs::found::Expressions::expression_with))]
fn subgroup_operation_result(alloc: Global, rest: &[Value]) -> Result<Expression, ReadError>
    ensures { Answers result (λ found. option_map expression_view found ≡ expression_with ExpressionKind.SubgroupOperationResult (items_view rest.now)) }
{
    let (ty,) = read_items::<(T,)>(alloc, rest)?;
    Ok(Expression::SubgroupOperationResult { ty })
}

#[tactic(auto, unfolding(crate::specs::found::Expressions::expression_with))]
fn cooperative_load(alloc: Global, rest: &[Value]) -> Result<Expression, ReadError>
    ensures { Answers result (λ found. option_map expression_view found ≡ expression_with ExpressionKind.CooperativeLoad (items_view rest.now)) }
{
    let (columns, rows, role, pointer, stride, row_major) = read_items::<
        (Side, Side, WordOf<CooperativeRole>, E, E, Truth),
    >(alloc, rest)?;
    Ok(Expression::CooperativeLoad {
        columns,
        rows,
        role,
        block: CooperativeData {
            pointer,
            stride,
            row_major,
        },
    })
}

#[tactic(auto, unfolding(crate::specs::found::Expressions::expression_with))]
fn cooperative_multiply_add(alloc: Global, rest: &[Value]) -> Result<Expression, ReadError>
    ensures { Answers result (λ found. option_map expression_view found ≡ expression_with ExpressionKind.CooperativeMultiplyAdd (items_view rest.now)) }
{
    let (a, b, c) = read_items::<(E, E, E)>(alloc, rest)?;
    Ok(Expression::CooperativeMultiplyAdd { a, b, c })
}

// Decodes the expression of a kind.
fn by_kind(alloc: Global, kind: ExpressionKind, rest: &[Value]) -> Result<Expression, ReadError>
    ensures { Answers result (λ found. option_map expression_view found ≡ expression_with kind (items_view rest.now)) }
{
    match kind {
        ExpressionKind::Literal => literal(alloc, rest),
        ExpressionKind::Constant => constant(alloc, rest),
        ExpressionKind::Override => override_value(alloc, rest),
        ExpressionKind::ZeroValue => zero_value(alloc, rest),
        ExpressionKind::Compose => compose(alloc, rest),
        ExpressionKind::Access => access(alloc, rest),
        ExpressionKind::AccessIndex => access_index(alloc, rest),
        ExpressionKind::Splat => splat(alloc, rest),
        ExpressionKind::Swizzle => swizzle(alloc, rest),
        ExpressionKind::FunctionArgument => function_argument(alloc, rest),
        ExpressionKind::GlobalVariable => global_variable(alloc, rest),
        ExpressionKind::LocalVariable => local_variable(alloc, rest),
        ExpressionKind::Load => load(alloc, rest),
        ExpressionKind::ImageSample => image_sample(alloc, rest),
        ExpressionKind::ImageLoad => image_load(alloc, rest),
        ExpressionKind::ImageQuery => image_query(alloc, rest),
        ExpressionKind::Unary => unary(alloc, rest),
        ExpressionKind::Binary => binary(alloc, rest),
        ExpressionKind::Select => select(alloc, rest),
        ExpressionKind::Derivative => derivative(alloc, rest),
        ExpressionKind::Relational => relational(alloc, rest),
        ExpressionKind::Math => math(alloc, rest),
        ExpressionKind::As => conversion(alloc, rest),
        ExpressionKind::CallResult => call_result(alloc, rest),
        ExpressionKind::AtomicResult => atomic_result(alloc, rest),
        ExpressionKind::WorkGroupUniformLoadResult => uniform_load_result(alloc, rest),
        ExpressionKind::ArrayLength => array_length(alloc, rest),
        ExpressionKind::RayQueryVertexPositions => ray_query_vertex_positions(alloc, rest),
        ExpressionKind::RayQueryProceedResult => ray_query_proceed_result(alloc, rest),
        ExpressionKind::RayQueryGetIntersection => ray_query_get_intersection(alloc, rest),
        ExpressionKind::SubgroupBallotResult => subgroup_ballot_result(alloc, rest),
        ExpressionKind::SubgroupOperationResult => subgroup_operation_result(alloc, rest),
        ExpressionKind::CooperativeLoad => cooperative_load(alloc, rest),
        ExpressionKind::CooperativeMultiplyAdd => cooperative_multiply_add(alloc, rest),
    }
}

/// The JSON form of an expression.
pub struct ExpressionForm;

impl Form for ExpressionForm {
    type Item = Expression;

    ghost Plain = { PlainExpression };

    ghost view = { expression_view };

    ghost form = { an_expression };

    fn read(alloc: Global, value: &Value) -> Result<Expression, ReadError> {
        let (kind, rest) = read_tag(value)?;
        by_kind(alloc, kind, rest)
    }
}

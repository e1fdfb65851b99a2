//! The broken rules of expressions, by expression kind.

ghost use Rattle.std.specs.Prelude.{IfSome, IsSomeAnd, slice_get};
ghost use Rattle.check_causes.specs.Causes.{BrokenBy};
ghost use Rattle.ir_types.specs.judged.ExpressionPlain.{expression_view, plain};
ghost use Rattle.module_context.specs.OperandView.{scene_in, expressions_in};
ghost use Rattle.typing_layout.specs.judged.Constness.{AreKinds};

use crate::access::{AccessCause, broken_access, broken_access_index};
use crate::conversions::{AsCause, broken_as};
use crate::operators::{BinaryCause, broken_binary};
use crate::selections::{SelectCause, broken_select};
use crate::swizzles::{SwizzleCause, broken_swizzle};
use check_image_causes::{
    LoadCause, QueryCause, SampleCause, TexelLoad, broken_load, broken_query, broken_sample,
};
use ir_arena::handle::Handle;
use ir_kinds::BinaryOperator;
use ir_types::{Expression, key};
use module_context::CheckContext;
use spec_statements::Sampling;

/// A broken rule of an expression.
#[derive(Clone, Copy)]
pub enum Cause {
    /// A rule of an index.
    Access(AccessCause),
    /// A rule of a conversion.
    As(AsCause),
    /// A rule of an image load.
    ImageLoad(LoadCause),
    /// A rule of an image query.
    ImageQuery(QueryCause),
    /// A rule of an image sample.
    ImageSample(SampleCause),
    /// A rule of a binary operation.
    Binary(BinaryOperator, BinaryCause),
    /// A rule of a `Select`.
    Select(SelectCause),
    /// A rule of a `Swizzle`.
    Swizzle(SwizzleCause),
}

// The broken rule of a binary operation.
fn of_binary(
    context: &CheckContext<'_>,
    op: BinaryOperator,
    left: Handle<key::Expression>,
    right: Handle<key::Expression>,
) -> Option<Cause>
    ensures { IfSome result (BrokenBy (scene_in context.now) (plain (Expression.Binary op left right))) }
{
    let cause = broken_binary(op, &context.form_at(left), &context.form_at(right))?;
    Some(Cause::Binary(op, cause))
}

// The broken rule of a `Select`.
fn of_select(
    context: &CheckContext<'_>,
    condition: Handle<key::Expression>,
    accept: Handle<key::Expression>,
    reject: Handle<key::Expression>,
) -> Option<Cause>
    ensures { IfSome result (BrokenBy (scene_in context.now) (plain (Expression.Select condition accept reject))) }
{
    let condition = context.form_at(condition);
    let cause = broken_select(
        &condition,
        &context.form_at(accept),
        &context.form_at(reject),
    )?;
    Some(Cause::Select(cause))
}

// The broken rule of a dynamic index.
fn of_access(
    context: &CheckContext<'_>,
    base: Handle<key::Expression>,
    index: Handle<key::Expression>,
) -> Option<Cause>
    ensures { IfSome result (BrokenBy (scene_in context.now) (plain (Expression.Access base index))) }
{
    let cause = broken_access(context, &context.form_at(base), index)?;
    Some(Cause::Access(cause))
}

// The broken rule of a static index.
fn of_index(context: &CheckContext<'_>, base: Handle<key::Expression>, index: u32) -> Option<Cause>
    ensures { IfSome result (BrokenBy (scene_in context.now) (plain (Expression.AccessIndex base index))) }
{
    let cause = broken_access_index(context, &context.form_at(base), index)?;
    Some(Cause::Access(cause))
}

// The broken rule of an image load.
fn of_load(
    context: &CheckContext<'_>,
    image: Handle<key::Expression>,
    by: &TexelLoad,
) -> Option<Cause>
    ensures { IfSome result (BrokenBy (scene_in context.now) (plain (Expression.ImageLoad image by.now.coordinate by.now.array_index by.now.sample by.now.level))) }
{
    let cause = broken_load(context, &context.form_at(image), by)?;
    Some(Cause::ImageLoad(cause))
}

// The broken rule of an image sample.
fn of_sample(
    context: &CheckContext<'_>,
    image: Handle<key::Expression>,
    by: &Sampling,
) -> Option<Cause>
    requires { AreKinds (expressions_in context.now) context.now.kinds.now }
    ensures { IfSome result (BrokenBy (scene_in context.now)
        (plain (Expression.ImageSample image by.now.sampler by.now.gather by.now.coordinate by.now.array_index by.now.offset by.now.level by.now.depth_ref by.now.clamp_to_edge))) }
{
    let cause = broken_sample(context, &context.form_at(image), by)?;
    Some(Cause::ImageSample(cause))
}

// The broken rule of an image expression.
fn of_image(context: &CheckContext<'_>, expression: &Expression) -> Option<Cause>
    requires { AreKinds (expressions_in context.now) context.now.kinds.now }
    ensures { IfSome result (BrokenBy (scene_in context.now) (expression_view expression.now)) }
{
    match *expression {
        Expression::ImageLoad {
            image,
            coordinate,
            array_index,
            sample,
            level,
        } => {
            let by = TexelLoad {
                coordinate,
                array_index,
                sample,
                level,
            };
            of_load(context, image, &by)
        }
        Expression::ImageSample {
            image,
            sampler,
            gather,
            coordinate,
            array_index,
            offset,
            level,
            depth_ref,
            clamp_to_edge,
        } => {
            let by = Sampling {
                sampler,
                gather,
                coordinate,
                array_index,
                offset,
                level,
                depth_ref,
                clamp_to_edge,
            };
            of_sample(context, image, &by)
        }
        Expression::ImageQuery { image, query } => {
            let cause = broken_query(context, &context.form_at(image), query)?;
            Some(Cause::ImageQuery(cause))
        }
        _ => None,
    }
}

/// A broken rule of an expression, if its kind has several and one is broken. Requires that the context has the kinds of all
/// its expressions.
pub fn broken_rule(context: &CheckContext<'_>, expression: &Expression) -> Option<Cause>
    requires { AreKinds (expressions_in context.now) context.now.kinds.now }
    ensures { IfSome result (BrokenBy (scene_in context.now) (expression_view expression.now)) }
{
    match *expression {
        Expression::Binary { op, left, right } => of_binary(context, op, left, right),
        Expression::Select {
            condition,
            accept,
            reject,
        } => { of_select(context, condition, accept, reject) }
        Expression::Access { base, index } => of_access(context, base, index),
        Expression::AccessIndex { base, index } => of_index(context, base, index),
        Expression::As {
            expr,
            kind,
            convert,
        } => {
            let cause = broken_as(context.capabilities, kind, convert, &context.form_at(expr))?;
            Some(Cause::As(cause))
        }
        Expression::Swizzle {
            size,
            vector,
            pattern,
        } => {
            let cause = broken_swizzle(size, pattern, &context.form_at(vector))?;
            Some(Cause::Swizzle(cause))
        }
        _ => of_image(context, expression),
    }
}

/// The broken rule of the expression at a handle, if it exists.
#[tactic(auto, using(module_context::proofs::Lookups::found, module_context::proofs::Lookups::missing))]
pub fn broken_at(context: &CheckContext<'_>, handle: Handle<key::Expression>) -> Option<Cause>
    requires { AreKinds (expressions_in context.now) context.now.kinds.now }
    ensures { IfSome result (λ cause. IsSomeAnd (slice_get (expressions_in context.now) handle) (λ e. BrokenBy (scene_in context.now) e cause)) }
{
    match context.expressions.try_get(handle) {
        Ok(expression) => broken_rule(context, expression),
        Err(_) => None,
    }
}

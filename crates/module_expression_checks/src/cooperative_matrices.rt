//! The checks of `CooperativeLoad` and `CooperativeMultiplyAdd`.

ghost use Rattle.std.specs.Prelude.{◌↔◌, IsTrue, MatchResult};
ghost use Rattle.module_context.specs.Refused.{IsRefused};
ghost use Rattle.module_context.specs.OperandView.{scene_in};
ghost use Rattle.spec_statements.specs.judged.CooperativeMatrices.{CooperativeLoadOK, IsAddend, IsRightFactor, AreFactors, MultiplyAddOK};
ghost use Rattle.spec_statements.specs.judged.Scene.{form_among};

use ir_arena::handle::Handle;
use ir_kinds::{CooperativeRole, CooperativeSize, Scalar};
use ir_types::key;
use module_context::{CheckContext, are_same, refused_unless, shaped_of};
use spec_statements::Shape;
use typing_errors::ExpressionError;
use typing_forms::Form;

// ---- loads

// Whether a type is that of a stride.
fn is_stride(of: Form) -> bool
    ensures { IsTrue result ↔ CooperativeLoadOK of }
{
    are_same(of, Form::Scalar(Scalar::U32))
}

/// Whether a cooperative matrix is loaded with a valid stride: a 32-bit unsigned integer.
///
/// # Errors
///
/// [`ExpressionError::Other`] if it is not.
#[tactic(auto, using(module_context::proofs::Refusals::by_test))]
pub fn check_cooperative_load(
    context: &CheckContext<'_>,
    stride: Handle<key::Expression>,
) -> Result<(), ExpressionError>
    ensures { MatchResult result
        (λ _. CooperativeLoadOK (form_among (scene_in context.now).forms stride))
        (IsRefused (CooperativeLoadOK (form_among (scene_in context.now).forms stride))) }
{
    refused_unless(is_stride(context.form_at(stride)))
}

// ---- products

// Whether a shape is that of the addend of a product of this many columns and rows.
fn is_addend(columns: CooperativeSize, rows: CooperativeSize, third: Shape) -> bool
    ensures { IsTrue result ↔ IsAddend columns rows third }
{
    match third {
        Shape::CooperativeMatrix {
            columns: more,
            rows: lines,
            role,
        } => role == CooperativeRole::C && more == columns && lines == rows,
        Shape::Scalar | Shape::Vector(_) | Shape::Matrix { .. } => false,
    }
}

// Whether a shape is that of the right factor for a left factor of this many columns and rows, and another is that of the addend.
fn is_right_factor(
    columns: CooperativeSize,
    rows: CooperativeSize,
    right: Shape,
    third: Shape,
) -> bool
    ensures { IsTrue result ↔ IsRightFactor columns rows right third }
{
    match right {
        Shape::CooperativeMatrix {
            columns: more,
            rows: lines,
            role,
        } => role == CooperativeRole::B && columns == lines && is_addend(more, rows, third),
        Shape::Scalar | Shape::Vector(_) | Shape::Matrix { .. } => false,
    }
}

// Whether two shapes are those of factors, and a third is that of the addend.
fn are_factors(left: Shape, right: Shape, third: Shape) -> bool
    ensures { IsTrue result ↔ AreFactors left right third }
{
    match left {
        Shape::CooperativeMatrix {
            columns,
            rows,
            role,
        } => role == CooperativeRole::A && is_right_factor(columns, rows, right, third),
        Shape::Scalar | Shape::Vector(_) | Shape::Matrix { .. } => false,
    }
}

// Whether two types are those of factors of one scalar type, and a third is that of the addend.
fn is_product(a: &Form, b: &Form, c: &Form) -> bool
    ensures { IsTrue result ↔ MultiplyAddOK a.now b.now c.now }
{
    match shaped_of(*a) {
        Some(left) => match shaped_of(*b) {
            Some(right) => match shaped_of(*c) {
                Some(third) => {
                    left.scalar == right.scalar && are_factors(left.shape, right.shape, third.shape)
                }
                None => false,
            },
            None => false,
        },
        None => false,
    }
}

/// Whether two cooperative matrices can be multiplied, and a third added to the product.
///
/// # Errors
///
/// [`ExpressionError::Other`] if not.
#[tactic(auto, using(module_context::proofs::Refusals::by_test))]
pub fn check_multiply_add(
    context: &CheckContext<'_>,
    a: Handle<key::Expression>,
    b: Handle<key::Expression>,
    c: Handle<key::Expression>,
) -> Result<(), ExpressionError>
    ensures { MatchResult result
        (λ _. MultiplyAddOK (form_among (scene_in context.now).forms a) (form_among (scene_in context.now).forms b) (form_among (scene_in context.now).forms c))
        (IsRefused (MultiplyAddOK (form_among (scene_in context.now).forms a) (form_among (scene_in context.now).forms b) (form_among (scene_in context.now).forms c))) }
{
    let a = context.form_at(a);
    let b = context.form_at(b);
    let c = context.form_at(c);
    refused_unless(is_product(&a, &b, &c))
}

//! The checks of operands of `Unary` and `Binary`.

ghost use Rattle.std.specs.Prelude.{◌≡◌, ◌↔◌, IsTrue, MatchResult};
ghost use Rattle.module_context.specs.Refused.{IsRefused};
ghost use Rattle.module_context.specs.OperandView.{scene_in};
ghost use Rattle.spec_statements.specs.judged.Operators.{IsSigned, IsIntegerOrBool, TakesKind, IsAdded, AreMultiplied, UnaryOK, SumOK, ProductOK, ShiftOK, BinaryOK};
ghost use Rattle.spec_statements.specs.judged.Scene.{form_among};
ghost use Rattle.spec_statements.specs.judged.Shapes.{AnyShape, IsScalarShape, IsScalarOrVector, IsInteger, IsNumeric, IsBool, IsMadeOf, AnyKind};

use crate::shapes::{is_alone, is_of_value, is_one_truth};
use ir_arena::handle::Handle;
use ir_kinds::{BinaryOperator, Scalar, ScalarKind, UnaryOperator, VectorSize};
use ir_types::key;
use module_context::{
    CheckContext, are_same, form_of_shape, is_integer, is_numeric, is_truth, refused_unless,
    shaped_of,
};
use spec_statements::Shape;
use typing_errors::ExpressionError;
use typing_forms::Form;

// ---- unary operators

// Whether a scalar kind is signed.
const fn is_signed(kind: ScalarKind) -> bool
    ensures { IsTrue result ↔ IsSigned kind }
{
    match kind {
        ScalarKind::Sint | ScalarKind::Float => true,
        ScalarKind::Uint | ScalarKind::Bool | ScalarKind::AbstractInt | ScalarKind::AbstractFloat =>
            false,
    }
}

// Whether a unary operator takes scalars of a kind.
const fn takes_kind(op: UnaryOperator, kind: ScalarKind) -> bool
    ensures { IsTrue result ↔ TakesKind op kind }
{
    match op {
        UnaryOperator::Negate => is_signed(kind),
        UnaryOperator::LogicalNot => is_truth(kind),
        UnaryOperator::BitwiseNot => is_integer(kind),
    }
}

// Whether a unary operator takes a value of a type.
fn takes(op: UnaryOperator, of: Form) -> bool
    ensures { IsTrue result ↔ UnaryOK op of }
{
    match shaped_of(of) {
        Some(shaped) => takes_kind(op, shaped.scalar.kind),
        None => false,
    }
}

/// Whether a unary operator takes its operand.
///
/// # Errors
///
/// [`ExpressionError::Other`] if it does not.
#[tactic(auto, using(module_context::proofs::Refusals::by_test))]
pub fn check_unary(
    context: &CheckContext<'_>,
    op: UnaryOperator,
    expr: Handle<key::Expression>,
) -> Result<(), ExpressionError>
    ensures { MatchResult result
        (λ _. UnaryOK op (form_among (scene_in context.now).forms expr))
        (IsRefused (UnaryOK op (form_among (scene_in context.now).forms expr))) }
{
    refused_unless(takes(op, context.form_at(expr)))
}

// ---- binary operators

// Whether a scalar kind is `Bool` or an integer kind.
const fn is_bits(kind: ScalarKind) -> bool
    ensures { IsTrue result ↔ IsIntegerOrBool kind }
{
    match kind {
        ScalarKind::Sint | ScalarKind::Uint | ScalarKind::Bool => true,
        ScalarKind::Float | ScalarKind::AbstractInt | ScalarKind::AbstractFloat => false,
    }
}

// Whether values of a shape and a scalar kind can be added.
const fn is_added(shape: Shape, kind: ScalarKind) -> bool
    ensures { IsTrue result ↔ IsAdded shape kind }
{
    match shape {
        Shape::Scalar | Shape::Vector(_) => is_numeric(kind),
        Shape::Matrix { .. } | Shape::CooperativeMatrix { .. } => true,
    }
}

// Whether two values can be added.
fn are_added(left: &Form, right: &Form) -> bool
    ensures { IsTrue result ↔ SumOK left.now right.now }
{
    if !are_same(*left, *right) {
        return false;
    }
    match shaped_of(*left) {
        Some(shaped) => is_added(shaped.shape, shaped.scalar.kind),
        None => false,
    }
}

// Whether a vector of this size can be multiplied with a shape.
fn is_row_multiplied(size: VectorSize, right: Shape) -> bool
    ensures { IsTrue result ↔ AreMultiplied (Shape.Vector size) right }
{
    match right {
        Shape::Scalar => true,
        Shape::Vector(other) => size == other,
        Shape::Matrix { rows, .. } => size == rows,
        Shape::CooperativeMatrix { .. } => false,
    }
}

// Whether values of two shapes can be multiplied.
fn are_shapes_multiplied(left: Shape, right: Shape) -> bool
    ensures { IsTrue result ↔ AreMultiplied left right }
{
    match left {
        Shape::Scalar => true,
        Shape::Vector(size) => is_row_multiplied(size, right),
        Shape::Matrix { columns, .. } => match right {
            Shape::Scalar => true,
            Shape::Vector(size) => columns == size,
            Shape::Matrix { rows, .. } => columns == rows,
            Shape::CooperativeMatrix { .. } => false,
        },
        Shape::CooperativeMatrix { .. } => is_alone(right),
    }
}

// Whether two values can be multiplied.
fn are_multiplied(left: Form, right: Form) -> bool
    ensures { IsTrue result ↔ ProductOK left right }
{
    match shaped_of(left) {
        Some(left) => match shaped_of(right) {
            Some(right) => {
                left.scalar == right.scalar && are_shapes_multiplied(left.shape, right.shape)
            }
            None => false,
        },
        None => false,
    }
}

// Whether a type is a scalar, vector or matrix.
fn is_value(of: Form) -> bool
    ensures { IsTrue result ↔ IsMadeOf IsScalarOrVector AnyKind of }
{
    match shaped_of(of) {
        Some(shaped) => is_of_value(shaped.shape),
        None => false,
    }
}

// Whether a type is a numeric scalar or vector.
fn is_number(of: Form) -> bool
    ensures { IsTrue result ↔ IsMadeOf IsScalarOrVector IsNumeric of }
{
    match shaped_of(of) {
        Some(shaped) => is_of_value(shaped.shape) && is_numeric(shaped.scalar.kind),
        None => false,
    }
}

// Whether a type is a scalar or vector of bools or integers.
fn is_of_bits(of: Form) -> bool
    ensures { IsTrue result ↔ IsMadeOf AnyShape IsIntegerOrBool of }
{
    match shaped_of(of) {
        Some(shaped) => is_bits(shaped.scalar.kind),
        None => false,
    }
}

// Whether a type is an integer scalar or vector.
fn is_of_integers(of: Form) -> bool
    ensures { IsTrue result ↔ IsMadeOf AnyShape IsInteger of }
{
    match shaped_of(of) {
        Some(shaped) => is_integer(shaped.scalar.kind),
        None => false,
    }
}

// Whether a type can be shifted by another.
fn are_shifted(left: Form, right: Form) -> bool
    ensures { IsTrue result ↔ ShiftOK left right }
{
    match shaped_of(left) {
        Some(shaped) => {
            is_integer(shaped.scalar.kind)
                && are_same(right, form_of_shape(shaped.shape, Scalar::U32))
        }
        None => false,
    }
}

// Whether a binary operator takes values of two types.
fn take(op: BinaryOperator, left: &Form, right: &Form) -> bool
    ensures { IsTrue result ↔ BinaryOK op left.now right.now }
{
    match op {
        BinaryOperator::Add | BinaryOperator::Subtract => are_added(left, right),
        BinaryOperator::Multiply => are_multiplied(*left, *right),
        BinaryOperator::Divide
        | BinaryOperator::Modulo
        | BinaryOperator::Less
        | BinaryOperator::LessEqual
        | BinaryOperator::Greater
        | BinaryOperator::GreaterEqual => are_same(*left, *right) && is_number(*left),
        BinaryOperator::Equal | BinaryOperator::NotEqual => {
            are_same(*left, *right) && is_value(*left)
        }
        BinaryOperator::And | BinaryOperator::InclusiveOr => {
            are_same(*left, *right) && is_of_bits(*left)
        }
        BinaryOperator::ExclusiveOr => are_same(*left, *right) && is_of_integers(*left),
        BinaryOperator::LogicalAnd | BinaryOperator::LogicalOr => {
            are_same(*left, *right) && is_one_truth(*left)
        }
        BinaryOperator::ShiftLeft | BinaryOperator::ShiftRight => are_shifted(*left, *right),
    }
}

/// Whether a binary operator takes its operands.
///
/// # Errors
///
/// [`ExpressionError::Other`] if it does not.
#[tactic(auto, using(module_context::proofs::Refusals::by_test))]
pub fn check_binary(
    context: &CheckContext<'_>,
    op: BinaryOperator,
    left: Handle<key::Expression>,
    right: Handle<key::Expression>,
) -> Result<(), ExpressionError>
    ensures { MatchResult result
        (λ _. BinaryOK op (form_among (scene_in context.now).forms left) (form_among (scene_in context.now).forms right))
        (IsRefused (BinaryOK op (form_among (scene_in context.now).forms left) (form_among (scene_in context.now).forms right))) }
{
    let left = context.form_at(left);
    let right = context.form_at(right);
    refused_unless(take(op, &left, &right))
}

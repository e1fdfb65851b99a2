//! The broken rules of unary and binary operations.

ghost use Rattle.std.specs.Prelude.{◌↔◌, IsTrue, MatchOption};
ghost use Rattle.check_causes.specs.Operators.{Takes, AlikeOK, BrokenAlike, BrokenProduct, BrokenShift, BrokenBinary};
ghost use Rattle.spec_statements.specs.judged.Operators.{IsIntegerOrBool, IsAdded, AreMultiplied, ProductOK, ShiftOK, BinaryOK};

use crate::shapes::{is_alone, is_of_value};
use ir_kinds::{BinaryOperator, Scalar, ScalarKind, VectorSize};
use module_context::{are_same, form_of_shape, is_integer, is_numeric, is_truth, shaped_of};
use spec_statements::Shape;
use typing_forms::Form;

/// A broken rule of an operation with equal operand types.
#[derive(Clone, Copy)]
pub enum AlikeCause {
    /// The operands have these types, which differ.
    Differ(Form, Form),
    /// Both have this type, which the operation does not accept.
    Type(Form),
}

/// A broken rule of a multiplication.
#[derive(Clone, Copy)]
pub enum ProductCause {
    /// The left operand has this type, which is not a scalar, vector or matrix.
    Left(Form),
    /// The right operand has this type, which is not a scalar, vector or matrix.
    Right(Form),
    /// The operands have these scalar types, which differ.
    Scalars(Scalar, Scalar),
    /// The operands have these types, whose shapes can't be multiplied.
    Shapes(Form, Form),
}

/// A broken rule of a shift.
#[derive(Clone, Copy)]
pub enum ShiftCause {
    /// The left operand has this type, which is not an integer scalar or vector.
    NoInteger(Form),
    /// The shift amount has the first type, but must have the second.
    Amount(Form, Form),
}

/// A broken rule of a binary operation.
#[derive(Clone, Copy)]
pub enum BinaryCause {
    /// A rule of an operation with equal operand types.
    Alike(AlikeCause),
    /// A rule of a multiplication.
    Product(ProductCause),
    /// A rule of a shift.
    Shift(ShiftCause),
}

// ---- equal operand types

// Whether a scalar kind is `Bool` or an integer kind.
const fn is_bits(kind: ScalarKind) -> bool
    ensures { IsTrue result ↔ IsIntegerOrBool kind }
{
    match kind {
        ScalarKind::Sint | ScalarKind::Uint | ScalarKind::Bool => true,
        ScalarKind::Float | ScalarKind::AbstractInt | ScalarKind::AbstractFloat => false,
    }
}

// Whether values of a shape and a scalar kind can be added.
const fn is_added(shape: Shape, kind: ScalarKind) -> bool
    ensures { IsTrue result ↔ IsAdded shape kind }
{
    match shape {
        Shape::Scalar | Shape::Vector(_) => is_numeric(kind),
        Shape::Matrix { .. } | Shape::CooperativeMatrix { .. } => true,
    }
}

// Whether an operation with equal operand types accepts a shape and a scalar kind.
fn takes(op: BinaryOperator, shape: Shape, kind: ScalarKind) -> bool
    ensures { IsTrue result ↔ Takes op shape kind }
{
    match op {
        BinaryOperator::Add | BinaryOperator::Subtract => is_added(shape, kind),
        BinaryOperator::Divide
        | BinaryOperator::Modulo
        | BinaryOperator::Less
        | BinaryOperator::LessEqual
        | BinaryOperator::Greater
        | BinaryOperator::GreaterEqual => is_of_value(shape) && is_numeric(kind),
        BinaryOperator::Equal | BinaryOperator::NotEqual => is_of_value(shape),
        BinaryOperator::And | BinaryOperator::InclusiveOr => is_bits(kind),
        BinaryOperator::ExclusiveOr => is_integer(kind),
        BinaryOperator::LogicalAnd | BinaryOperator::LogicalOr => {
            is_alone(shape) && is_truth(kind)
        }
        BinaryOperator::Multiply | BinaryOperator::ShiftLeft | BinaryOperator::ShiftRight => false,
    }
}

// The first broken rule of an operation with equal operand types.
fn broken_alike(op: BinaryOperator, left: &Form, right: &Form) -> Option<AlikeCause>
    ensures { MatchOption result (AlikeOK op left.now right.now) (BrokenAlike op left.now right.now) }
{
    if !are_same(*left, *right) {
        return Some(AlikeCause::Differ(*left, *right));
    }
    let Some(shaped) = shaped_of(*left) else {
        return Some(AlikeCause::Type(*left));
    };
    if !takes(op, shaped.shape, shaped.scalar.kind) {
        return Some(AlikeCause::Type(*left));
    }
    None
}

// ---- products

// Whether a vector of this size can be multiplied with a shape.
fn is_row_multiplied(size: VectorSize, right: Shape) -> bool
    ensures { IsTrue result ↔ AreMultiplied (Shape.Vector size) right }
{
    match right {
        Shape::Scalar => true,
        Shape::Vector(other) => size == other,
        Shape::Matrix { rows, .. } => size == rows,
        Shape::CooperativeMatrix { .. } => false,
    }
}

// Whether values of two shapes can be multiplied.
fn are_shapes_multiplied(left: Shape, right: Shape) -> bool
    ensures { IsTrue result ↔ AreMultiplied left right }
{
    match left {
        Shape::Scalar => true,
        Shape::Vector(size) => is_row_multiplied(size, right),
        Shape::Matrix { columns, .. } => match right {
            Shape::Scalar => true,
            Shape::Vector(size) => columns == size,
            Shape::Matrix { rows, .. } => columns == rows,
            Shape::CooperativeMatrix { .. } => false,
        },
        Shape::CooperativeMatrix { .. } => is_alone(right),
    }
}

// The first broken rule of a multiplication.
fn broken_product(left: &Form, right: &Form) -> Option<ProductCause>
    ensures { MatchOption result (ProductOK left.now right.now) (BrokenProduct left.now right.now) }
{
    let Some(one) = shaped_of(*left) else {
        return Some(ProductCause::Left(*left));
    };
    let Some(other) = shaped_of(*right) else {
        return Some(ProductCause::Right(*right));
    };
    if one.scalar != other.scalar {
        return Some(ProductCause::Scalars(one.scalar, other.scalar));
    }
    if !are_shapes_multiplied(one.shape, other.shape) {
        return Some(ProductCause::Shapes(*left, *right));
    }
    None
}

// ---- shifts

// The first broken rule of a shift.
fn broken_shift(left: &Form, right: &Form) -> Option<ShiftCause>
    ensures { MatchOption result (ShiftOK left.now right.now) (BrokenShift left.now right.now) }
{
    let Some(shaped) = shaped_of(*left) else {
        return Some(ShiftCause::NoInteger(*left));
    };
    if !is_integer(shaped.scalar.kind) {
        return Some(ShiftCause::NoInteger(*left));
    }
    let wanted = form_of_shape(shaped.shape, Scalar::U32);
    if !are_same(*right, wanted) {
        return Some(ShiftCause::Amount(*right, form_of_shape(shaped.shape, Scalar::U32)));
    }
    None
}

// ---- binary operations

/// The first broken rule of a binary operation, if any.
pub fn broken_binary(op: BinaryOperator, left: &Form, right: &Form) -> Option<BinaryCause>
    ensures { MatchOption result (BinaryOK op left.now right.now) (BrokenBinary op left.now right.now) }
{
    match op {
        BinaryOperator::Multiply => match broken_product(left, right) {
            Some(cause) => Some(BinaryCause::Product(cause)),
            None => None,
        },
        BinaryOperator::ShiftLeft | BinaryOperator::ShiftRight => match broken_shift(left, right) {
            Some(cause) => Some(BinaryCause::Shift(cause)),
            None => None,
        },
        BinaryOperator::Add
        | BinaryOperator::Subtract
        | BinaryOperator::Divide
        | BinaryOperator::Modulo
        | BinaryOperator::Equal
        | BinaryOperator::NotEqual
        | BinaryOperator::Less
        | BinaryOperator::LessEqual
        | BinaryOperator::Greater
        | BinaryOperator::GreaterEqual
        | BinaryOperator::And
        | BinaryOperator::ExclusiveOr
        | BinaryOperator::InclusiveOr
        | BinaryOperator::LogicalAnd
        | BinaryOperator::LogicalOr => match broken_alike(op, left, right) {
            Some(cause) => Some(BinaryCause::Alike(cause)),
            None => None,
        },
    }
}

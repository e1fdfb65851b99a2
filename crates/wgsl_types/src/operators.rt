// Result types of operators.

use crate::shapes::Shape;
use ir_kinds::{BinaryOperator, Scalar, ScalarKind, VectorSize};

/// The common scalar of two operands: the scalar of both, or the one that an abstract operand converts to.
pub fn common(left: Scalar, right: Scalar) -> Option<Scalar> {
    if left == right {
        return Some(left);
    }
    match (left.kind, right.kind) {
        (ScalarKind::AbstractInt, ScalarKind::Bool) | (ScalarKind::Bool, ScalarKind::AbstractInt) =>
            None,
        (ScalarKind::AbstractInt, _) => Some(right),
        (_, ScalarKind::AbstractInt) => Some(left),
        (ScalarKind::AbstractFloat, ScalarKind::Float) => Some(right),
        (ScalarKind::Float, ScalarKind::AbstractFloat) => Some(left),
        _ => None,
    }
}

/// Whether the operator is a shift.
pub fn is_shift(operator: BinaryOperator) -> bool {
    matches!(
        operator,
        BinaryOperator::ShiftLeft | BinaryOperator::ShiftRight
    )
}

/// Whether the operator is a comparison.
pub fn is_comparison(operator: BinaryOperator) -> bool {
    matches!(
        operator,
        BinaryOperator::Equal
            | BinaryOperator::NotEqual
            | BinaryOperator::Less
            | BinaryOperator::LessEqual
            | BinaryOperator::Greater
            | BinaryOperator::GreaterEqual
    )
}

/// Whether the operator splats a scalar operand if the other is a vector.
pub fn splats(operator: BinaryOperator) -> bool {
    matches!(
        operator,
        BinaryOperator::Add
            | BinaryOperator::Subtract
            | BinaryOperator::Divide
            | BinaryOperator::Modulo
    )
}

// The scalar, or a vector of it.
fn sized(size: Option<VectorSize>, scalar: Scalar) -> Shape {
    match size {
        Some(size) => Shape::Vector(size, scalar),
        None => Shape::Scalar(scalar),
    }
}

// The result type of a multiplication.
fn product(left: Shape, right: Shape) -> Shape {
    match (left, right) {
        (Shape::Scalar(_), _) => right,
        (_, Shape::Scalar(_)) => left,
        (Shape::Matrix(_, rows, scalar), Shape::Vector(..)) => Shape::Vector(rows, scalar),
        (Shape::Vector(..), Shape::Matrix(columns, _, scalar)) => Shape::Vector(columns, scalar),
        (Shape::Matrix(_, rows, scalar), Shape::Matrix(columns, _, _)) => {
            Shape::Matrix(columns, rows, scalar)
        }
        _ => left,
    }
}

/// The result type of a binary operator.
pub fn result_of(operator: BinaryOperator, left: Shape, right: Shape) -> Shape {
    if is_comparison(operator) {
        return sized(left.size(), Scalar::BOOL);
    }
    match operator {
        BinaryOperator::Multiply => product(left, right),
        BinaryOperator::LogicalAnd | BinaryOperator::LogicalOr => Shape::Scalar(Scalar::BOOL),
        _ => left,
    }
}

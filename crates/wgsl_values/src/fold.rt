// Constant evaluation of operators on scalars.

use crate::floats::floats;
use crate::integers::{abstracts, shifted, signed, unsigned};
use ir_kinds::{BinaryOperator, Literal, UnaryOperator};

/// The result of evaluating an operation on constants.
#[derive(Clone, Copy)]
pub enum Folded {
    /// The operation has this value.
    Made(Literal),
    /// A constant expression error, with this message.
    Wrong(&'static str),
    /// The operation is not evaluated: it is computed at run time.
    Open,
}

impl Folded {
    // The `u32` result, or an error if there is none.
    pub(crate) fn of_u32(number: Option<u32>) -> Folded {
        match number {
            Some(number) => Folded::Made(Literal::U32(number)),
            None => Folded::Wrong("<< operation overflowed"),
        }
    }

    // The `i32` result, or an error if there is none.
    pub(crate) fn of_i32(number: Option<i32>) -> Folded {
        match number {
            Some(number) => Folded::Made(Literal::I32(number)),
            None => Folded::Wrong("<< operation overflowed"),
        }
    }

    // The abstract integer result, or an error if there is none.
    pub(crate) fn of_i64(number: Option<i64>) -> Folded {
        match number {
            Some(number) => Folded::Made(Literal::AbstractInt(number)),
            None => Folded::Wrong("<< operation overflowed"),
        }
    }
}

// The negated value.
fn negated(literal: Literal) -> Folded {
    match literal {
        Literal::AbstractInt(number) => match number.checked_neg() {
            Some(number) => Folded::Made(Literal::AbstractInt(number)),
            None => Folded::Wrong("negation operation overflowed"),
        },
        Literal::I32(number) => Folded::Made(Literal::I32(number.wrapping_neg())),
        Literal::AbstractFloat(bits) => Folded::Made(Literal::AbstractFloat(bits ^ (1 << 63))),
        Literal::F64(bits) => Folded::Made(Literal::F64(bits ^ (1 << 63))),
        Literal::F32(bits) => Folded::Made(Literal::F32(bits ^ (1 << 31))),
        Literal::F16(bits) => Folded::Made(Literal::F16(bits ^ (1 << 15))),
        _ => Folded::Wrong("Cannot apply the unary op to the argument"),
    }
}

/// Evaluates a unary operator.
pub fn fold_unary(operator: UnaryOperator, literal: Literal) -> Folded {
    match (operator, literal) {
        (UnaryOperator::Negate, _) => negated(literal),
        (UnaryOperator::LogicalNot, Literal::Bool(value)) => Folded::Made(Literal::Bool(!value)),
        (UnaryOperator::BitwiseNot, Literal::AbstractInt(number)) => {
            Folded::Made(Literal::AbstractInt(!number))
        }
        (UnaryOperator::BitwiseNot, Literal::I32(number)) => Folded::Made(Literal::I32(!number)),
        (UnaryOperator::BitwiseNot, Literal::U32(number)) => Folded::Made(Literal::U32(!number)),
        _ => Folded::Wrong("Cannot apply the unary op to the argument"),
    }
}

// A binary operator on two bools.
fn truths(operator: BinaryOperator, left: bool, right: bool) -> Folded {
    let holds = match operator {
        BinaryOperator::And | BinaryOperator::LogicalAnd => left && right,
        BinaryOperator::InclusiveOr | BinaryOperator::LogicalOr => left || right,
        BinaryOperator::Equal => left == right,
        BinaryOperator::NotEqual => left != right,
        _ => return Folded::Open,
    };
    Folded::Made(Literal::Bool(holds))
}

/// Evaluates a binary operator on two values of the same type; the right operand of a shift is a `u32`.
pub fn fold_binary(operator: BinaryOperator, left: Literal, right: Literal) -> Folded {
    match (operator, right) {
        (BinaryOperator::ShiftLeft | BinaryOperator::ShiftRight, Literal::U32(count)) => {
            return shifted(operator, left, count);
        }
        _ => {}
    }
    match (left, right) {
        (Literal::AbstractInt(left), Literal::AbstractInt(right)) => {
            abstracts(operator, left, right)
        }
        (Literal::I32(left), Literal::I32(right)) => signed(operator, left, right),
        (Literal::U32(left), Literal::U32(right)) => unsigned(operator, left, right),
        (Literal::Bool(left), Literal::Bool(right)) => truths(operator, left, right),
        _ if left.scalar() == right.scalar() => floats(operator, left, right),
        _ => Folded::Open,
    }
}

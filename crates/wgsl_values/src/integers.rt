// Operators on integers, by type.

use crate::fold::Folded;
use ir_kinds::{BinaryOperator, Literal};

// The result of an operator on two integers, if it is a comparison.
fn compared(operator: BinaryOperator, left: i64, right: i64) -> Option<bool> {
    match operator {
        BinaryOperator::Equal => Some(left == right),
        BinaryOperator::NotEqual => Some(left != right),
        BinaryOperator::Less => Some(left < right),
        BinaryOperator::LessEqual => Some(left <= right),
        BinaryOperator::Greater => Some(left > right),
        BinaryOperator::GreaterEqual => Some(left >= right),
        _ => None,
    }
}

// The abstract integer, if it fits into 64 bits.
fn abstract_or(number: Option<i64>, wrong: &'static str) -> Folded {
    match number {
        Some(number) => Folded::Made(Literal::AbstractInt(number)),
        None => Folded::Wrong(wrong),
    }
}

// A binary operator on two abstract integers.
pub(crate) fn abstracts(operator: BinaryOperator, left: i64, right: i64) -> Folded {
    if let Some(holds) = compared(operator, left, right) {
        return Folded::Made(Literal::Bool(holds));
    }
    match operator {
        BinaryOperator::Add => {
            abstract_or(left.checked_add(right), "addition operation overflowed")
        }
        BinaryOperator::Subtract => {
            abstract_or(left.checked_sub(right), "subtraction operation overflowed")
        }
        BinaryOperator::Multiply => {
            abstract_or(
                left.checked_mul(right),
                "multiplication operation overflowed",
            )
        }
        BinaryOperator::Divide if right == 0 => Folded::Wrong("Division by zero"),
        BinaryOperator::Divide => {
            abstract_or(left.checked_div(right), "division operation overflowed")
        }
        BinaryOperator::Modulo if right == 0 => Folded::Wrong("Remainder by zero"),
        BinaryOperator::Modulo => {
            abstract_or(left.checked_rem(right), "remainder operation overflowed")
        }
        BinaryOperator::And => Folded::Made(Literal::AbstractInt(left & right)),
        BinaryOperator::InclusiveOr => Folded::Made(Literal::AbstractInt(left | right)),
        BinaryOperator::ExclusiveOr => Folded::Made(Literal::AbstractInt(left ^ right)),
        _ => Folded::Open,
    }
}

// The `i32`, if it fits into 32 bits.
fn signed_or(number: Option<i32>, wrong: &'static str) -> Folded {
    match number {
        Some(number) => Folded::Made(Literal::I32(number)),
        None => Folded::Wrong(wrong),
    }
}

// A binary operator on two `i32` values.
pub(crate) fn signed(operator: BinaryOperator, left: i32, right: i32) -> Folded {
    if let Some(holds) = compared(operator, i64::from(left), i64::from(right)) {
        return Folded::Made(Literal::Bool(holds));
    }
    match operator {
        BinaryOperator::Add => Folded::Made(Literal::I32(left.wrapping_add(right))),
        BinaryOperator::Subtract => Folded::Made(Literal::I32(left.wrapping_sub(right))),
        BinaryOperator::Multiply => Folded::Made(Literal::I32(left.wrapping_mul(right))),
        BinaryOperator::Divide if right == 0 => Folded::Wrong("Division by zero"),
        BinaryOperator::Divide => {
            signed_or(left.checked_div(right), "division operation overflowed")
        }
        BinaryOperator::Modulo if right == 0 => Folded::Wrong("Remainder by zero"),
        BinaryOperator::Modulo => {
            signed_or(left.checked_rem(right), "remainder operation overflowed")
        }
        BinaryOperator::And => Folded::Made(Literal::I32(left & right)),
        BinaryOperator::InclusiveOr => Folded::Made(Literal::I32(left | right)),
        BinaryOperator::ExclusiveOr => Folded::Made(Literal::I32(left ^ right)),
        _ => Folded::Open,
    }
}

// A binary operator on two `u32` values.
pub(crate) fn unsigned(operator: BinaryOperator, left: u32, right: u32) -> Folded {
    if let Some(holds) = compared(operator, i64::from(left), i64::from(right)) {
        return Folded::Made(Literal::Bool(holds));
    }
    match operator {
        BinaryOperator::Add => Folded::Made(Literal::U32(left.wrapping_add(right))),
        BinaryOperator::Subtract => Folded::Made(Literal::U32(left.wrapping_sub(right))),
        BinaryOperator::Multiply => Folded::Made(Literal::U32(left.wrapping_mul(right))),
        BinaryOperator::Divide => match left.checked_div(right) {
            Some(number) => Folded::Made(Literal::U32(number)),
            None => Folded::Wrong("Division by zero"),
        },
        BinaryOperator::Modulo => match left.checked_rem(right) {
            Some(number) => Folded::Made(Literal::U32(number)),
            None => Folded::Wrong("Remainder by zero"),
        },
        BinaryOperator::And => Folded::Made(Literal::U32(left & right)),
        BinaryOperator::InclusiveOr => Folded::Made(Literal::U32(left | right)),
        BinaryOperator::ExclusiveOr => Folded::Made(Literal::U32(left ^ right)),
        _ => Folded::Open,
    }
}

// An integer shifted left; it is an error if the result overflows.
fn moved_up(number: i64, count: u32) -> Option<i64> {
    if number == 0 {
        return Some(0);
    }
    if count > 62 {
        return None;
    }
    number.checked_mul(i64::try_from(1_u64 << count).ok()?)
}

// An integer shifted right by fewer than 64 bits.
fn moved_down(number: i64, count: u32) -> i64 {
    if count > 63 {
        return 0;
    }
    let magnitude = if number < 0 { !number } else { number };
    let moved = i64::try_from(magnitude.unsigned_abs() >> count).unwrap_or(0);
    if number < 0 { !moved } else { moved }
}

// A shift of an unsigned integer.
pub(crate) fn shifted(operator: BinaryOperator, left: Literal, count: u32) -> Folded {
    if count >= 32 && !matches!(left, Literal::AbstractInt(_)) {
        return Folded::Wrong("RHS of shift operation is greater than or equal to 32");
    }
    let is_up = operator == BinaryOperator::ShiftLeft;
    match left {
        Literal::U32(number) if is_up => match moved_up(i64::from(number), count) {
            Some(moved) => Folded::of_u32(u32::try_from(moved).ok()),
            None => Folded::Wrong("<< operation overflowed"),
        },
        Literal::U32(number) => Folded::of_u32(u32::try_from(moved_down(
            i64::from(number),
            count,
        )).ok()),
        Literal::I32(number) if is_up => match moved_up(i64::from(number), count) {
            Some(moved) => Folded::of_i32(i32::try_from(moved).ok()),
            None => Folded::Wrong("<< operation overflowed"),
        },
        Literal::I32(number) => Folded::of_i32(i32::try_from(moved_down(
            i64::from(number),
            count,
        )).ok()),
        Literal::AbstractInt(number) if is_up => Folded::of_i64(moved_up(number, count)),
        Literal::AbstractInt(number) if count < 64 => {
            Folded::Made(Literal::AbstractInt(moved_down(number, count)))
        }
        _ => Folded::Open,
    }
}

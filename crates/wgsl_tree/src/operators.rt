// Binary operators. Bitwise ones bind less than comparisons, as in C and naga.

use ir_kinds::BinaryOperator;
use wgsl_tokens::TokenKind;

// A binary operator with its precedence.
#[derive(Clone, Copy)]
pub(crate) enum Operator {
    Plain(BinaryOperator, u8),
    // `||`, or else `&&`
    Logical(bool),
}

impl Operator {
    // The precedence.
    pub(crate) fn strength(self) -> u8 {
        match self {
            Operator::Plain(_, strength) => strength,
            Operator::Logical(true) => 1,
            Operator::Logical(false) => 2,
        }
    }
}

// The binary operator of a token.
pub(crate) fn operator_of(kind: TokenKind) -> Option<Operator> {
    let (operator, strength) = match kind {
        TokenKind::OrOr => return Some(Operator::Logical(true)),
        TokenKind::AndAnd => return Some(Operator::Logical(false)),
        TokenKind::Or => (BinaryOperator::InclusiveOr, 3),
        TokenKind::Caret => (BinaryOperator::ExclusiveOr, 4),
        TokenKind::And => (BinaryOperator::And, 5),
        TokenKind::EqualEqual => (BinaryOperator::Equal, 6),
        TokenKind::NotEqual => (BinaryOperator::NotEqual, 6),
        TokenKind::Less => (BinaryOperator::Less, 7),
        TokenKind::LessEqual => (BinaryOperator::LessEqual, 7),
        TokenKind::Greater => (BinaryOperator::Greater, 7),
        TokenKind::GreaterEqual => (BinaryOperator::GreaterEqual, 7),
        TokenKind::ShiftLeft => (BinaryOperator::ShiftLeft, 8),
        TokenKind::ShiftRight => (BinaryOperator::ShiftRight, 8),
        TokenKind::Plus => (BinaryOperator::Add, 9),
        TokenKind::Minus => (BinaryOperator::Subtract, 9),
        TokenKind::Star => (BinaryOperator::Multiply, 10),
        TokenKind::Slash => (BinaryOperator::Divide, 10),
        TokenKind::Percent => (BinaryOperator::Modulo, 10),
        _ => return None,
    };
    Some(Operator::Plain(operator, strength))
}

/// The operator of a compound assignment.
pub fn assigned_operator(kind: TokenKind) -> Option<BinaryOperator> {
    match kind {
        TokenKind::PlusEqual => Some(BinaryOperator::Add),
        TokenKind::MinusEqual => Some(BinaryOperator::Subtract),
        TokenKind::StarEqual => Some(BinaryOperator::Multiply),
        TokenKind::SlashEqual => Some(BinaryOperator::Divide),
        TokenKind::PercentEqual => Some(BinaryOperator::Modulo),
        TokenKind::AndEqual => Some(BinaryOperator::And),
        TokenKind::OrEqual => Some(BinaryOperator::InclusiveOr),
        TokenKind::CaretEqual => Some(BinaryOperator::ExclusiveOr),
        TokenKind::ShiftLeftEqual => Some(BinaryOperator::ShiftLeft),
        TokenKind::ShiftRightEqual => Some(BinaryOperator::ShiftRight),
        _ => None,
    }
}

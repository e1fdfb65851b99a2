//! Operators, relational functions and derivatives of expressions.

/// A unary operator (naga's `UnaryOperator`).
#[derive(Clone, Copy, PartialEq, Eq, Debug)]
pub enum UnaryOperator {
    /// Arithmetic negation.
    Negate,
    /// Logical not.
    LogicalNot,
    /// Bitwise complement.
    BitwiseNot,
}

/// A binary operator (naga's `BinaryOperator`).
#[derive(Clone, Copy, PartialEq, Eq, Debug)]
pub enum BinaryOperator {
    /// Addition.
    Add,
    /// Subtraction.
    Subtract,
    /// Multiplication.
    Multiply,
    /// Division.
    Divide,
    /// The remainder, with the sign of the left operand.
    Modulo,
    /// Equal.
    Equal,
    /// Not equal.
    NotEqual,
    /// Less than.
    Less,
    /// Less than or equal.
    LessEqual,
    /// Greater than.
    Greater,
    /// Greater than or equal.
    GreaterEqual,
    /// Bitwise and.
    And,
    /// Bitwise exclusive or.
    ExclusiveOr,
    /// Bitwise inclusive or.
    InclusiveOr,
    /// Logical and.
    LogicalAnd,
    /// Logical or.
    LogicalOr,
    /// Shift left.
    ShiftLeft,
    /// Shift right, arithmetic if the left operand is signed.
    ShiftRight,
}

/// A relational function, which returns booleans (naga's `RelationalFunction`).
#[derive(Clone, Copy, PartialEq, Eq, Debug)]
pub enum RelationalFunction {
    /// Whether all components are true.
    All,
    /// Whether any component is true.
    Any,
    /// Whether each component is NaN.
    IsNan,
    /// Whether each component is infinite.
    IsInf,
}

/// The axis of a derivative (naga's `DerivativeAxis`).
#[derive(Clone, Copy, PartialEq, Eq, Debug)]
pub enum DerivativeAxis {
    /// The partial derivative in x.
    X,
    /// The partial derivative in y.
    Y,
    /// `fwidth`: the sum of the absolute values of both partial derivatives.
    Width,
}

/// The precision of a derivative (naga's `DerivativeControl`).
#[derive(Clone, Copy, PartialEq, Eq, Debug)]
pub enum DerivativeControl {
    /// Coarse: one value for the quad may do.
    Coarse,
    /// Fine: local differences for each fragment.
    Fine,
    /// The choice of the implementation.
    None,
}

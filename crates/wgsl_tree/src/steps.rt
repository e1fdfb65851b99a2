// Steps: expressions in postfix form, and statements.

use ir_kinds::{BinaryOperator, UnaryOperator};

/// The kind of a step. Steps of expressions pop their operands from a stack, and push their result.
#[derive(Clone, Copy)]
pub enum StepKind {
    /// A literal, by its index in the table.
    Literal(u32),
    /// `true` or `false`.
    Bool(bool),
    /// An identifier.
    Name(u32),
    /// A template list with this number of arguments.
    Template(u32),
    /// A call with this number of arguments.
    Call(u32),
    /// A parenthesized expression, from this token.
    Group(u32),
    /// An index access: base and index.
    Index,
    /// A member access or a swizzle.
    Member(u32),
    /// A unary operator.
    Unary(UnaryOperator),
    /// An indirection, `*`.
    Deref,
    /// Address-of, `&`.
    AddressOf,
    /// A binary operator.
    Binary(BinaryOperator),
    /// After the left operand of `||` (true) or `&&` (false).
    Between(bool),
    /// After the right operand of `||` (true) or `&&` (false).
    Logical(bool),
    /// `let`, and whether it has a type: type and initializer.
    Let(bool),
    /// `const`, and whether it has a type: type and initializer.
    Const(bool),
    /// `var`: template arguments, type and initializer.
    Var {
        /// The number of template arguments.
        templates: u16,
        /// Whether it has a type.
        typed: bool,
        /// Whether it has an initializer.
        init: bool,
    },
    /// `const_assert`.
    ConstAssert,
    /// An assignment: left-hand and right-hand side.
    Assign,
    /// After the left-hand side of a compound assignment.
    Target,
    /// A compound assignment, after its right-hand side.
    Compound(BinaryOperator),
    /// An increment.
    Increase,
    /// A decrement.
    Decrease,
    /// A phony assignment, `_ =`.
    Phony,
    /// A call statement with this number of arguments.
    CallStatement(u32),
    /// `if`, after its condition.
    If,
    /// `else`.
    Else,
    /// The end of the innermost block.
    End,
    /// A block.
    Block,
    /// `loop`.
    Loop,
    /// `continuing`.
    Continuing,
    /// `break if`, after its condition.
    BreakIf,
    /// `while`, before its condition.
    While,
    /// `while`, after its condition.
    WhileTest,
    /// `for`, before its initializer.
    For,
    /// `for`, before its condition.
    ForLoop,
    /// `for`, after its condition, if it has one.
    ForTest(bool),
    /// `for`, before its update.
    ForUpdate,
    /// `switch`, after its selector.
    Switch,
    /// A case selector.
    CaseValue,
    /// `default`.
    CaseDefault,
    /// The body of a case.
    CaseBody,
    /// `break`.
    Break,
    /// `continue`.
    Continue,
    /// `return`, and whether it has a value.
    Return(bool),
    /// `discard`.
    Discard,
}

/// A step at its token.
#[derive(Clone, Copy)]
pub struct Step {
    /// Its kind.
    pub kind: StepKind,
    /// The index of the token.
    pub token: u32,
}

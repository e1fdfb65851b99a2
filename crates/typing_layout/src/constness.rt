//! Constness of expressions.

/// When the value of an expression is known (naga's `ExpressionKind`), in ascending order.
#[derive(Clone, Copy, PartialEq, Eq, PartialOrd, Ord, Debug)]
pub enum ExpressionKind {
    /// When the module is written.
    Const,
    /// When the overrides are resolved.
    Override,
    /// At run time.
    Runtime,
}

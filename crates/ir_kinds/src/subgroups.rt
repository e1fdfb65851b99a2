//! Subgroup operations.

/// The operation of a subgroup collective (naga's `SubgroupOperation`).
#[derive(Clone, Copy, PartialEq, Eq, Debug)]
pub enum SubgroupOperation {
    /// Whether all are true.
    All,
    /// Whether any is true.
    Any,
    /// The sum.
    Add,
    /// The product.
    Mul,
    /// The minimum.
    Min,
    /// The maximum.
    Max,
    /// Bitwise and.
    And,
    /// Bitwise or.
    Or,
    /// Bitwise exclusive or.
    Xor,
}

/// The scope of a subgroup collective (naga's `CollectiveOperation`).
#[derive(Clone, Copy, PartialEq, Eq, Debug)]
pub enum CollectiveOperation {
    /// A reduction over all active invocations.
    Reduce,
    /// An inclusive scan.
    InclusiveScan,
    /// An exclusive scan.
    ExclusiveScan,
}

/// The direction of a quad swap (naga's `Direction`).
#[derive(Clone, Copy, PartialEq, Eq, Debug)]
pub enum Direction {
    /// Horizontal.
    X,
    /// Vertical.
    Y,
    /// Diagonal.
    Diagonal,
}

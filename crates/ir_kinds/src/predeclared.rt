//! The predeclared struct types, which some built-in functions return.

use crate::scalars::{Scalar, VectorSize};

/// A predeclared struct type, the result of a built-in function (naga's `PredeclaredType`).
#[derive(Clone, Copy, PartialEq, Eq, Hash, Debug)]
pub enum PredeclaredType {
    /// The result of a compare-exchange: the old value, and whether it was exchanged.
    AtomicCompareExchangeWeakResult(Scalar),
    /// The result of `modf`: the fractional and the integral part, of a scalar or of vectors.
    ModfResult {
        size: Option<VectorSize>,
        scalar: Scalar,
    },
    /// The result of `frexp`: the significand and the exponent, of a scalar or of vectors.
    FrexpResult {
        size: Option<VectorSize>,
        scalar: Scalar,
    },
}

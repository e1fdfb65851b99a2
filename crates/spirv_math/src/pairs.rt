// The predeclared result structs of some expressions.

use ir_kinds::{PredeclaredType, Scalar, VectorSize};

/// A struct of two members, of which none is longer than the offset of the second.
#[derive(Clone, Copy)]
pub struct Pair {
    /// Their names.
    pub names: [&'static str; 2],
    /// Their types, each a scalar or a vector of so many.
    pub types: [(Option<VectorSize>, Scalar); 2],
    /// Where the second begins, in bytes.
    pub offset: u32,
}

// The result of `modf` or `frexp`: a fraction and a second part, with the size in bytes of the wider scalar.
fn split(
    size: Option<VectorSize>,
    scalar: Scalar,
    name: &'static str,
    second: Scalar,
    widest: u8,
) -> Pair {
    Pair {
        names: ["fract", name],
        types: [(size, scalar), (size, second)],
        offset: size.map_or(1, u32::from).saturating_mul(u32::from(widest)),
    }
}

/// The result struct of an expression.
pub fn pair_of(of: PredeclaredType) -> Pair {
    match of {
        PredeclaredType::AtomicCompareExchangeWeakResult(scalar) => Pair {
            names: ["old_value", "exchanged"],
            types: [(None, scalar), (None, Scalar::BOOL)],
            offset: u32::from(scalar.width),
        },
        PredeclaredType::ModfResult { size, scalar } => {
            split(size, scalar, "whole", scalar, scalar.width)
        }
        // an exponent has four bytes, also of a float that has two
        PredeclaredType::FrexpResult { size, scalar } => {
            split(size, scalar, "exp", Scalar::I32, scalar.width.max(4))
        }
    }
}

//! Conversion ranks of scalars.

ghost use Rattle.std.specs.Prelude.{◌≡◌};
ghost use Rattle.typing_forms.specs.judged.Ranks.{rank_in, float_ranks, integer_ranks, conversion, rank};

use ir_kinds::{Scalar, ScalarKind};

/// The rank of the conversion from `from` to the other scalar, the lower the better; `None` if there is
/// no conversion (naga's `conversion_rank`). The rank of a scalar to itself is 0. Otherwise only abstract integers
/// and abstract floats convert, to scalars that can represent their values.
pub fn conversion_rank(from: Scalar, to: Scalar) -> Option<u32>
    ensures { result ≡ rank from to }
{
    if from.kind == to.kind && from.width == to.width {
        return Some(0);
    }
    converted_rank(from, to)
}

/// As [`conversion_rank`], without the rank of a scalar to itself: it needs no conversion.
pub fn converted_rank(from: Scalar, to: Scalar) -> Option<u32>
    ensures { result ≡ conversion from to }
{
    match (from.kind, from.width) {
        (ScalarKind::AbstractInt, 8) => integer_rank(to),
        (ScalarKind::AbstractFloat, 8) => float_rank(to),
        _ => None,
    }
}

// The rank of the conversion of an abstract integer to a scalar.
fn integer_rank(to: Scalar) -> Option<u32>
    ensures { result ≡ rank_in integer_ranks to }
{
    match (to.kind, to.width) {
        (ScalarKind::Sint, 4) => Some(4),
        (ScalarKind::Uint, 4) => Some(5),
        (ScalarKind::Sint, 2) => Some(6),
        (ScalarKind::Uint, 2) => Some(7),
        (ScalarKind::Sint, 8) => Some(8),
        (ScalarKind::Uint, 8) => Some(9),
        (ScalarKind::AbstractFloat, 8) => Some(10),
        (ScalarKind::Float, 4) => Some(11),
        (ScalarKind::Float, 2) => Some(12),
        (ScalarKind::Float, 8) => Some(13),
        _ => None,
    }
}

// The rank of the conversion of an abstract float to a scalar.
fn float_rank(to: Scalar) -> Option<u32>
    ensures { result ≡ rank_in float_ranks to }
{
    match (to.kind, to.width) {
        (ScalarKind::Float, 4) => Some(1),
        (ScalarKind::Float, 2) => Some(2),
        (ScalarKind::Float, 8) => Some(3),
        _ => None,
    }
}

// How values lie in memory.

use ir_kinds::{Scalar, VectorSize};

/// How a value lies in memory.
#[derive(Clone, Copy)]
pub struct Layout {
    /// How many bytes it has.
    pub size: u64,
    /// A multiple of which it begins at.
    pub alignment: u64,
    /// How many locations it takes between stages.
    pub locations: u64,
}

impl Layout {
    /// Of what has no bytes.
    pub const NONE: Layout = Layout {
        size: 0,
        alignment: 1,
        locations: 1,
    };

    /// The number, rounded up to the alignment.
    pub fn round(&self, number: u64) -> u64 {
        round_up(number, self.alignment)
    }
}

/// The least multiple that is not below a number.
pub fn round_up(number: u64, multiple: u64) -> u64 {
    match number.checked_rem(multiple) {
        None | Some(0) => number,
        Some(over) => number.saturating_add(multiple.saturating_sub(over)),
    }
}

/// How scalars lie in memory.
pub fn scalar_layout(scalar: Scalar) -> Layout {
    let width = u64::from(scalar.width);
    Layout {
        size: width,
        alignment: width,
        locations: 1,
    }
}

/// How a vector lies in memory: one of three as one of four, but for its size.
pub fn vector_layout(size: VectorSize, scalar: Scalar) -> Layout {
    let width = u64::from(scalar.width);
    let aligned = match size {
        VectorSize::Bi => 2,
        VectorSize::Tri | VectorSize::Quad => 4,
    };
    Layout {
        size: width.saturating_mul(u64::from(u8::from(size))),
        alignment: width.saturating_mul(aligned),
        locations: if width == 8 && aligned == 4 { 2 } else { 1 },
    }
}

/// How a matrix lies in memory.
pub fn matrix_layout(columns: VectorSize, rows: VectorSize, scalar: Scalar) -> Layout {
    let column = vector_layout(rows, scalar).alignment;
    Layout {
        size: column.saturating_mul(u64::from(u8::from(columns))),
        alignment: column,
        locations: u64::from(u8::from(columns)),
    }
}

/// The size of a vector of so many components.
pub fn vector_size(count: u32) -> Option<VectorSize> {
    match count {
        2 => Some(VectorSize::Bi),
        3 => Some(VectorSize::Tri),
        4 => Some(VectorSize::Quad),
        _ => None,
    }
}

// Memory layout of types (section "Alignment and Size" of the WGSL specification).

use ir_kinds::{CooperativeSize, Scalar, VectorSize};

/// The number of columns, and of rows, of a cooperative matrix.
pub fn side_of(size: CooperativeSize) -> u32 {
    match size {
        CooperativeSize::Eight => 8,
        CooperativeSize::Sixteen => 16,
    }
}

/// The memory layout of a type, in bytes.
#[derive(Clone, Copy)]
pub struct Layout {
    /// Its size.
    pub size: u64,
    /// Its alignment.
    pub alignment: u64,
}

impl Layout {
    /// The layout of a type without a size.
    pub const NONE: Layout = Layout {
        size: 0,
        alignment: 1,
    };

    /// The layout of a scalar.
    pub fn of_scalar(scalar: Scalar) -> Layout {
        let width = u64::from(scalar.width);
        Layout {
            size: width,
            alignment: width,
        }
    }

    /// The layout of a vector: `vec3` is aligned like `vec4`.
    pub fn of_vector(size: VectorSize, scalar: Scalar) -> Layout {
        let width = Layout::of_scalar(scalar).size;
        let aligned = match size {
            VectorSize::Bi => 2,
            VectorSize::Tri | VectorSize::Quad => 4,
        };
        Layout {
            size: width.saturating_mul(u64::from(u8::from(size))),
            alignment: width.saturating_mul(aligned),
        }
    }

    /// The layout of a matrix.
    pub fn of_matrix(columns: VectorSize, rows: VectorSize, scalar: Scalar) -> Layout {
        let alignment = Layout::of_vector(rows, scalar).alignment;
        Layout {
            size: alignment.saturating_mul(u64::from(u8::from(columns))),
            alignment,
        }
    }

    /// The layout of a cooperative matrix.
    pub fn of_cooperative(size: CooperativeSize, scalar: Scalar) -> Layout {
        let side = u64::from(side_of(size));
        let alignment = Layout::of_scalar(scalar).size;
        Layout {
            size: alignment.saturating_mul(side).saturating_mul(side),
            alignment,
        }
    }

    /// The least multiple of the alignment that is not less than this.
    pub fn round(self, offset: u64) -> u64 {
        if self.alignment == 0 {
            return offset;
        }
        let over = offset % self.alignment;
        if over == 0 {
            offset
        } else {
            offset.saturating_add(self.alignment - over)
        }
    }

    /// The stride of an array's elements.
    pub fn stride(self) -> u64 {
        self.round(self.size)
    }
}

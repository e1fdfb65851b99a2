//! Sizes of types in bytes.

ghost use Rattle.std.specs.Prelude.{◌≡◌, ◌*◌, ◌≤◌, ◌<◌, ◌^◌};
ghost use Rattle.ir_types.specs.judged.Plain.{inner_view};
ghost use Rattle.ir_kinds.specs.judged.Scalars.{cooperative_count};
ghost use Rattle.typing_forms.specs.judged.Sizes.{column_size, counted, type_size};

use ir_kinds::{CooperativeSize, VectorSize};
use ir_types::{ArraySize, TypeInner};

/// The greatest size that a type may have, in bytes (naga's `MAX_TYPE_SIZE`).
pub const MAX_TYPE_SIZE: u32 = 2147483647;

// The size of a column of a matrix, in bytes: it is rounded up to its alignment.
fn column_size(rows: VectorSize, width: u8) -> u64
    ensures value { result ≡ column_size rows width }
    ensures in_range { result ≤ 1020 }
{
    match rows {
        VectorSize::Bi => 2 * width as u64,
        VectorSize::Tri | VectorSize::Quad => 4 * width as u64,
    }
}

// The number of columns or rows of a cooperative matrix.
fn cooperative_count(size: CooperativeSize) -> u64
    ensures { result ≡ cooperative_count size }
{
    match size {
        CooperativeSize::Eight => 8,
        CooperativeSize::Sixteen => 16,
    }
}

// The number of elements for a size: one if it isn't known.
fn counted(size: ArraySize) -> u64
    ensures value { result ≡ counted size }
    ensures in_range { result < 2 ^ 32 }
{
    match size {
        ArraySize::Constant(count) => count as u64,
        ArraySize::Pending(_) | ArraySize::Dynamic => 1,
    }
}

// The size of a type in bytes, however large.
pub(crate) fn type_size(inner: &TypeInner) -> u64
    ensures { result ≡ type_size (inner_view inner.now) }
{
    match *inner {
        TypeInner::Scalar(scalar) | TypeInner::Atomic(scalar) => scalar.width as u64,
        TypeInner::Vector { size, scalar } => u32::from(size) as u64 * scalar.width as u64,
        TypeInner::Matrix {
            columns,
            rows,
            scalar,
        } => u32::from(columns) as u64 * column_size(rows, scalar.width),
        TypeInner::CooperativeMatrix {
            columns,
            rows,
            scalar,
            ..
        } => cooperative_count(columns) * cooperative_count(rows) * scalar.width as u64,
        TypeInner::Pointer { .. } | TypeInner::ValuePointer { .. } => 4,
        TypeInner::Array { size, stride, .. } => counted(size) * stride as u64,
        TypeInner::Struct { span, .. } => span as u64,
        TypeInner::Image { .. }
        | TypeInner::Sampler { .. }
        | TypeInner::AccelerationStructure { .. }
        | TypeInner::RayQuery { .. }
        | TypeInner::BindingArray { .. } => 0,
    }
}

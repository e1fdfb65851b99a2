// Types without their memory layout.

use ir_kinds::{CooperativeRole, CooperativeSize, ImageClass, ImageDimension, Scalar, VectorSize};

/// A type.
#[derive(Clone, Copy, PartialEq, Eq)]
pub enum Shape {
    /// No type.
    None,
    /// A scalar.
    Scalar(Scalar),
    /// A vector.
    Vector(VectorSize, Scalar),
    /// A matrix: the number of columns, and of rows.
    Matrix(VectorSize, VectorSize, Scalar),
    /// An atomic.
    Atomic(Scalar),
    /// A sampler, or a comparison sampler.
    Sampler(bool),
    /// An image: its dimension, whether it is arrayed, and its class.
    Image(ImageDimension, bool, ImageClass),
    /// An acceleration structure, and whether its ray queries return vertex positions.
    AccelerationStructure(bool),
    /// A ray query, and whether it returns vertex positions.
    RayQuery(bool),
    /// A cooperative matrix: its number of columns and of rows, its scalar and its role.
    Cooperative(CooperativeSize, Scalar, CooperativeRole),
    /// An array, a struct or a pointer, by its index in the table.
    Row(u32),
}

impl Shape {
    /// The scalar of a scalar, vector or matrix type.
    pub fn scalar(self) -> Option<Scalar> {
        match self {
            Shape::Scalar(scalar) | Shape::Vector(_, scalar) | Shape::Matrix(_, _, scalar) => Some(
                scalar,
            ),
            _ => None,
        }
    }

    /// The same type with another scalar.
    pub fn with_scalar(self, scalar: Scalar) -> Shape {
        match self {
            Shape::Scalar(_) => Shape::Scalar(scalar),
            Shape::Vector(size, _) => Shape::Vector(size, scalar),
            Shape::Matrix(columns, rows, _) => Shape::Matrix(columns, rows, scalar),
            _ => self,
        }
    }

    /// The size of a vector.
    pub fn size(self) -> Option<VectorSize> {
        match self {
            Shape::Vector(size, _) => Some(size),
            _ => None,
        }
    }
}

/// The `VectorSize` of this many components.
pub fn vector_size(count: u32) -> Option<VectorSize> {
    match count {
        2 => Some(VectorSize::Bi),
        3 => Some(VectorSize::Tri),
        4 => Some(VectorSize::Quad),
        _ => None,
    }
}

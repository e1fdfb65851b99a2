//! Scalars, vectors, matrices and image types, as the rules of expressions use them.

use ir_arena::handle::Handle;
use ir_kinds::{
    CooperativeRole, CooperativeSize, ImageClass, ImageDimension, Scalar, SwizzleComponent,
    VectorSize,
};
use ir_types::{SampleLevel, key};

/// The shape of a scalar, a vector or a matrix.
#[derive(Clone, Copy)]
pub enum Shape {
    /// A scalar.
    Scalar,
    /// A vector of this size.
    Vector(VectorSize),
    /// A matrix.
    Matrix {
        /// The number of columns.
        columns: VectorSize,
        /// The number of rows.
        rows: VectorSize,
    },
    /// A cooperative matrix.
    CooperativeMatrix {
        /// The number of columns.
        columns: CooperativeSize,
        /// The number of rows.
        rows: CooperativeSize,
        /// Its role: `A`, `B` or `C`.
        role: CooperativeRole,
    },
}

/// A scalar, a vector or a matrix.
#[derive(Clone, Copy)]
pub struct Shaped {
    /// Its shape.
    pub shape: Shape,
    /// The component type.
    pub scalar: Scalar,
}

/// The type of an image.
#[derive(Clone, Copy)]
pub struct ImageType {
    /// The dimension.
    pub dim: ImageDimension,
    /// Whether it is arrayed.
    pub arrayed: bool,
    /// Its class.
    pub class: ImageClass,
}

/// The operands of a sample or gather.
#[derive(Clone, Copy)]
pub struct Sampling {
    /// The sampler.
    pub sampler: Handle<key::Expression>,
    /// The component of a gather, if it is one.
    pub gather: Option<SwizzleComponent>,
    /// The texture coordinate.
    pub coordinate: Handle<key::Expression>,
    /// The array index.
    pub array_index: Option<Handle<key::Expression>>,
    /// The offset in texels.
    pub offset: Option<Handle<key::Expression>>,
    /// The sample level.
    pub level: SampleLevel,
    /// The depth reference.
    pub depth_ref: Option<Handle<key::Expression>>,
    /// Whether the coordinate is clamped to half a texel from the edge.
    pub clamp_to_edge: bool,
}

//! Varyings as mathematical values.

use ir_arena::handle::Handle;
use ir_kinds::{BuiltIn, Interpolation, Sampling};
use ir_types::key;

/// The direction of a varying (naga's `VaryingContext::output`, with its `MeshOutputType`).
#[derive(Clone, Copy)]
pub enum Direction {
    /// Inputs of the entry point.
    Input,
    /// Outputs of the entry point.
    Output,
    /// Vertex outputs of a mesh shader.
    VertexOutput,
    /// Primitive outputs of a mesh shader.
    PrimitiveOutput,
}

/// A location binding, with its interpolation (naga's `Binding::Location`).
#[derive(Clone, Copy)]
pub struct Location {
    /// The location.
    pub location: u32,
    /// The interpolation.
    pub interpolation: Option<Interpolation>,
    /// The sampling.
    pub sampling: Option<Sampling>,
    /// The blend source, if any.
    pub blend_src: Option<u32>,
    /// Whether it is per-primitive.
    pub per_primitive: bool,
}

/// A binding, and the type bound.
#[derive(Clone, Copy)]
pub enum Bound {
    /// A value of this type is a built-in value.
    BuiltIn {
        /// The type.
        ty: Handle<key::IrType>,
        /// The built-in.
        built_in: BuiltIn,
    },
    /// A value of this type is at a location.
    Location {
        /// The type.
        ty: Handle<key::IrType>,
        /// The location binding.
        at: Location,
    },
    /// The members of a struct are the blend sources.
    BlendSources,
    /// The value has no binding, and is no struct.
    Nothing,
    /// The struct member at this index has no binding.
    NoMember {
        /// The index, counted from 0.
        place: usize,
    },
}

/// A varying: an argument, a result, or a member of one without a binding.
#[derive(Clone, Copy)]
pub struct Varying {
    /// The argument that it is or belongs to, counted from 0; for a result it is 0.
    pub index: usize,
    /// The binding, and the type bound.
    pub bound: Bound,
}

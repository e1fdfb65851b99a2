//! The parts of a mesh shader output.

use ir_arena::handle::Handle;
use ir_types::key;

/// A part of a mesh shader output.
#[derive(Clone, Copy, PartialEq, Eq, Debug)]
pub enum MeshPart {
    /// The vertex count.
    VertexCount,
    /// The vertex array.
    Vertices,
    /// The primitive count.
    PrimitiveCount,
    /// The primitive array.
    Primitives,
}

/// The types of the four parts.
#[derive(Clone, Copy, PartialEq, Eq, Debug)]
pub struct MeshParts {
    /// The type of the vertex count.
    pub vertex_count: Handle<key::IrType>,
    /// The type of the vertex array.
    pub vertices: Handle<key::IrType>,
    /// The type of the primitive count.
    pub primitive_count: Handle<key::IrType>,
    /// The type of the primitive array.
    pub primitives: Handle<key::IrType>,
}

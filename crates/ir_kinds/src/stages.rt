//! Shader stages, and the depth tests and mesh topologies of entry points.

ghost use Rattle.std.specs.Prelude.{◌≡◌, ◌↔◌, ◌⊎◌, IsTrue};
ghost use Rattle.ir_kinds.specs.found.Bindings.{index_built_in};

use crate::bindings::BuiltIn;

/// A shader stage (naga's `ShaderStage`).
#[derive(Clone, Copy, PartialEq, Eq, Debug)]
pub enum ShaderStage {
    /// The vertex stage.
    Vertex,
    /// The fragment stage.
    Fragment,
    /// The compute stage.
    Compute,
    /// The mesh stage.
    Mesh,
    /// The task stage.
    Task,
    /// The ray generation stage.
    RayGeneration,
    /// The any-hit stage.
    AnyHit,
    /// The closest-hit stage.
    ClosestHit,
    /// The miss stage.
    Miss,
}

impl ShaderStage {
    /// Whether the stage is compute-like: compute, task or mesh (naga's `ShaderStage::compute_like`).
    pub const fn compute_like(self) -> bool
        ensures { IsTrue result
            ↔ ((self ≡ ShaderStage.Compute) ⊎ (self ≡ ShaderStage.Task) ⊎ (self ≡ ShaderStage.Mesh)) }
    {
        matches!(
            self,
            ShaderStage::Compute | ShaderStage::Task | ShaderStage::Mesh
        )
    }
}

/// The direction in which a fragment shader may change the depth (naga's `ConservativeDepth`).
#[derive(Clone, Copy, PartialEq, Eq, Debug)]
pub enum ConservativeDepth {
    /// The depth may only increase.
    GreaterEqual,
    /// The depth may only decrease.
    LessEqual,
    /// The depth is unchanged.
    Unchanged,
}

/// An early depth test (naga's `EarlyDepthTest`).
#[derive(Clone, Copy, PartialEq, Eq, Debug)]
pub enum EarlyDepthTest {
    /// Forced.
    Force,
    /// Permitted, because the depth changes only in this direction.
    Allow { conservative: ConservativeDepth },
}

/// The primitive topology of a mesh shader's output (naga's `MeshOutputTopology`).
#[derive(Clone, Copy, PartialEq, Eq, Debug)]
pub enum MeshOutputTopology {
    /// Points.
    Points,
    /// Lines.
    Lines,
    /// Triangles.
    Triangles,
}

impl MeshOutputTopology {
    /// The built-in with the vertex indices of a primitive (naga's `MeshOutputTopology::to_builtin`).
    pub const fn to_builtin(self) -> BuiltIn
        ensures { result ≡ index_built_in self }
    {
        match self {
            MeshOutputTopology::Points => BuiltIn::PointIndex,
            MeshOutputTopology::Lines => BuiltIn::LineIndices,
            MeshOutputTopology::Triangles => BuiltIn::TriangleIndices,
        }
    }
}

//! Bindings of arguments, results and global variables.

ghost use Rattle.std.specs.Prelude.{◌≡◌};
ghost use Rattle.ir_kinds.specs.found.Bindings.{built_in_of};

/// A built-in shader input or output (naga's `BuiltIn`).
#[derive(Clone, Copy, PartialEq, Eq, Hash, Debug)]
pub enum BuiltIn {
    /// The primitive index.
    PrimitiveIndex,
    /// The position of a vertex or a fragment; with `invariant`, equal expressions give equal positions.
    Position { invariant: bool },
    /// The view index.
    ViewIndex,
    /// The first instance of the draw call.
    BaseInstance,
    /// The first vertex of the draw call.
    BaseVertex,
    /// The clip distances.
    ClipDistances,
    /// The cull distances.
    CullDistance,
    /// The instance index.
    InstanceIndex,
    /// The size of a point primitive.
    PointSize,
    /// The vertex index.
    VertexIndex,
    /// The draw index.
    DrawIndex,
    /// The depth of the fragment.
    FragDepth,
    /// The coordinates of the fragment within a point primitive.
    PointCoord,
    /// Whether the primitive is front-facing.
    FrontFacing,
    /// Barycentric coordinates, perspective or linear.
    Barycentric { perspective: bool },
    /// The sample index.
    SampleIndex,
    /// The coverage mask of the samples.
    SampleMask,
    /// The invocation ID within the dispatch.
    GlobalInvocationId,
    /// The invocation ID within the workgroup.
    LocalInvocationId,
    /// The linear index of the invocation within the workgroup.
    LocalInvocationIndex,
    /// The workgroup ID.
    WorkGroupId,
    /// The size of a workgroup.
    WorkGroupSize,
    /// The number of workgroups in the dispatch.
    NumWorkGroups,
    /// The number of subgroups in the workgroup.
    NumSubgroups,
    /// The ID of the subgroup within the workgroup.
    SubgroupId,
    /// The number of invocations in the subgroup.
    SubgroupSize,
    /// The ID of the invocation within the subgroup.
    SubgroupInvocationId,
    /// The number of mesh workgroups that a task shader launches.
    MeshTaskSize,
    /// Whether the primitive is culled.
    CullPrimitive,
    /// The vertex index of a point.
    PointIndex,
    /// The two vertex indices of a line.
    LineIndices,
    /// The three vertex indices of a triangle.
    TriangleIndices,
    /// The number of vertices that a mesh shader outputs.
    VertexCount,
    /// The vertices that a mesh shader outputs.
    Vertices,
    /// The number of primitives that a mesh shader outputs.
    PrimitiveCount,
    /// The primitives that a mesh shader outputs.
    Primitives,
    /// The ID of the ray generation invocation.
    RayInvocationId,
    /// The number of ray generation invocations.
    NumRayInvocations,
    /// The custom data of the instance that was hit.
    InstanceCustomData,
    /// The index of the geometry that was hit.
    GeometryIndex,
    /// The ray's origin in world space.
    WorldRayOrigin,
    /// The ray's direction in world space.
    WorldRayDirection,
    /// The ray's origin in object space.
    ObjectRayOrigin,
    /// The ray's direction in object space.
    ObjectRayDirection,
    /// The least ray parameter at which a hit counts.
    RayTmin,
    /// The greatest ray parameter at which a hit counts at present.
    RayTCurrentMax,
    /// The transform from object space to world space.
    ObjectToWorld,
    /// The transform from world space to object space.
    WorldToObject,
    /// The kind of the hit.
    HitKind,
}

/// The interpolation of a varying (naga's `Interpolation`).
#[derive(Clone, Copy, PartialEq, Eq, Hash, Debug)]
pub enum Interpolation {
    /// Perspective-correct.
    Perspective,
    /// Linear.
    Linear,
    /// None: the value of the provoking vertex.
    Flat,
    /// None: the values of all vertices of the primitive.
    PerVertex,
}

/// The sampling of an interpolated varying (naga's `Sampling`).
#[derive(Clone, Copy, PartialEq, Eq, Hash, Debug)]
pub enum Sampling {
    /// At the centre of the fragment.
    Center,
    /// At a point that all samples of the fragment within the primitive share.
    Centroid,
    /// For each sample.
    Sample,
    /// The value of the first vertex of the primitive.
    First,
    /// The value of the first or the last vertex of the primitive.
    Either,
}

/// The binding of an argument, a result or a struct member (naga's `Binding`).
#[derive(Clone, Copy, PartialEq, Eq, Hash, Debug)]
pub enum Binding {
    /// A built-in value.
    BuiltIn(BuiltIn),
    /// A location, with the interpolation, the sampling, the blend source, and whether the value is per primitive.
    Location {
        location: u32,
        interpolation: Option<Interpolation>,
        sampling: Option<Sampling>,
        blend_src: Option<u32>,
        per_primitive: bool,
    },
}

/// The bind group and the binding of a resource (naga's `ResourceBinding`).
#[derive(Clone, Copy, PartialEq, Eq, PartialOrd, Ord, Debug)]
pub struct ResourceBinding {
    /// The index of the bind group.
    pub group: u32,
    /// The binding number within the group.
    pub binding: u32,
}

impl Binding {
    /// The built-in of the binding, or `None` for a location (naga's `Binding::to_built_in`).
    pub const fn to_built_in(&self) -> Option<BuiltIn>
        ensures { result ≡ built_in_of self.now }
    {
        match *self {
            Binding::BuiltIn(built_in) => Some(built_in),
            Binding::Location { .. } => None,
        }
    }
}

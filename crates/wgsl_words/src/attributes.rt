// Attributes and the enumerants of their arguments.

use crate::lookup::find;
use ir_kinds::{BuiltIn, ConservativeDepth, EarlyDepthTest, Interpolation, Sampling};

/// An attribute.
#[derive(Clone, Copy, PartialEq, Eq)]
pub enum AttributeWord {
    /// `@binding`.
    Binding,
    /// `@group`.
    Group,
    /// `@id`.
    Id,
    /// `@workgroup_size`.
    WorkgroupSize,
    /// `@compute`.
    Compute,
    /// `@vertex`.
    Vertex,
    /// `@fragment`.
    Fragment,
    /// `@must_use`.
    MustUse,
    /// `@diagnostic`.
    Diagnostic,
    /// `@early_depth_test`.
    EarlyDepthTest,
    /// `@coherent`.
    Coherent,
    /// `@volatile`.
    Volatile,
    /// `@align`.
    Align,
    /// `@size`.
    Size,
    /// `@builtin`.
    Builtin,
    /// `@location`.
    Location,
    /// `@interpolate`.
    Interpolate,
    /// `@invariant`.
    Invariant,
    /// `@blend_src`.
    BlendSrc,
    /// `@per_primitive`.
    PerPrimitive,
    /// `@task`.
    Task,
    /// `@mesh`.
    Mesh,
    /// `@payload`.
    Payload,
    /// `@ray_generation`.
    RayGeneration,
    /// `@any_hit`.
    AnyHit,
    /// `@closest_hit`.
    ClosestHit,
    /// `@miss`.
    Miss,
    /// `@incoming_payload`.
    IncomingPayload,
}

impl AttributeWord {
    /// Whether the attribute takes arguments.
    pub fn has_arguments(self) -> bool {
        !matches!(
            self,
            AttributeWord::Compute
                | AttributeWord::Vertex
                | AttributeWord::Fragment
                | AttributeWord::MustUse
                | AttributeWord::Coherent
                | AttributeWord::Volatile
                | AttributeWord::Invariant
                | AttributeWord::PerPrimitive
                | AttributeWord::Task
                | AttributeWord::RayGeneration
                | AttributeWord::AnyHit
                | AttributeWord::ClosestHit
                | AttributeWord::Miss
        )
    }
}

static ATTRIBUTES: [(&str, AttributeWord); 28] = [
    ("binding", AttributeWord::Binding),
    ("group", AttributeWord::Group),
    ("id", AttributeWord::Id),
    ("workgroup_size", AttributeWord::WorkgroupSize),
    ("compute", AttributeWord::Compute),
    ("vertex", AttributeWord::Vertex),
    ("fragment", AttributeWord::Fragment),
    ("must_use", AttributeWord::MustUse),
    ("diagnostic", AttributeWord::Diagnostic),
    ("early_depth_test", AttributeWord::EarlyDepthTest),
    ("coherent", AttributeWord::Coherent),
    ("volatile", AttributeWord::Volatile),
    ("align", AttributeWord::Align),
    ("size", AttributeWord::Size),
    ("builtin", AttributeWord::Builtin),
    ("location", AttributeWord::Location),
    ("interpolate", AttributeWord::Interpolate),
    ("invariant", AttributeWord::Invariant),
    ("blend_src", AttributeWord::BlendSrc),
    ("per_primitive", AttributeWord::PerPrimitive),
    ("task", AttributeWord::Task),
    ("mesh", AttributeWord::Mesh),
    ("payload", AttributeWord::Payload),
    ("ray_generation", AttributeWord::RayGeneration),
    ("any_hit", AttributeWord::AnyHit),
    ("closest_hit", AttributeWord::ClosestHit),
    ("miss", AttributeWord::Miss),
    ("incoming_payload", AttributeWord::IncomingPayload),
];

/// The attribute with this name.
pub fn attribute_of(word: &[u8]) -> Option<AttributeWord> {
    find(&ATTRIBUTES, word)
}

static BUILT_INS: [(&str, BuiltIn); 44] = [
    ("position", BuiltIn::Position { invariant: false }),
    ("view_index", BuiltIn::ViewIndex),
    ("instance_index", BuiltIn::InstanceIndex),
    ("vertex_index", BuiltIn::VertexIndex),
    ("frag_depth", BuiltIn::FragDepth),
    ("front_facing", BuiltIn::FrontFacing),
    ("sample_index", BuiltIn::SampleIndex),
    ("sample_mask", BuiltIn::SampleMask),
    ("global_invocation_id", BuiltIn::GlobalInvocationId),
    ("local_invocation_id", BuiltIn::LocalInvocationId),
    ("local_invocation_index", BuiltIn::LocalInvocationIndex),
    ("workgroup_id", BuiltIn::WorkGroupId),
    ("num_workgroups", BuiltIn::NumWorkGroups),
    ("num_subgroups", BuiltIn::NumSubgroups),
    ("subgroup_id", BuiltIn::SubgroupId),
    ("subgroup_size", BuiltIn::SubgroupSize),
    ("subgroup_invocation_id", BuiltIn::SubgroupInvocationId),
    ("primitive_index", BuiltIn::PrimitiveIndex),
    ("draw_index", BuiltIn::DrawIndex),
    ("clip_distances", BuiltIn::ClipDistances),
    ("barycentric", BuiltIn::Barycentric { perspective: true }),
    (
        "barycentric_no_perspective",
        BuiltIn::Barycentric { perspective: false },
    ),
    ("mesh_task_size", BuiltIn::MeshTaskSize),
    ("cull_primitive", BuiltIn::CullPrimitive),
    ("point_index", BuiltIn::PointIndex),
    ("line_indices", BuiltIn::LineIndices),
    ("triangle_indices", BuiltIn::TriangleIndices),
    ("vertex_count", BuiltIn::VertexCount),
    ("vertices", BuiltIn::Vertices),
    ("primitive_count", BuiltIn::PrimitiveCount),
    ("primitives", BuiltIn::Primitives),
    ("ray_invocation_id", BuiltIn::RayInvocationId),
    ("num_ray_invocations", BuiltIn::NumRayInvocations),
    ("instance_custom_data", BuiltIn::InstanceCustomData),
    ("geometry_index", BuiltIn::GeometryIndex),
    ("world_ray_origin", BuiltIn::WorldRayOrigin),
    ("world_ray_direction", BuiltIn::WorldRayDirection),
    ("object_ray_origin", BuiltIn::ObjectRayOrigin),
    ("object_ray_direction", BuiltIn::ObjectRayDirection),
    ("ray_t_min", BuiltIn::RayTmin),
    ("ray_t_current_max", BuiltIn::RayTCurrentMax),
    ("object_to_world", BuiltIn::ObjectToWorld),
    ("world_to_object", BuiltIn::WorldToObject),
    ("hit_kind", BuiltIn::HitKind),
];

/// The built-in value with this name.
pub fn built_in_of(word: &[u8]) -> Option<BuiltIn> {
    find(&BUILT_INS, word)
}

static INTERPOLATIONS: [(&str, Interpolation); 4] = [
    ("flat", Interpolation::Flat),
    ("linear", Interpolation::Linear),
    ("perspective", Interpolation::Perspective),
    ("per_vertex", Interpolation::PerVertex),
];

/// The interpolation with this name.
pub fn interpolation_of(word: &[u8]) -> Option<Interpolation> {
    find(&INTERPOLATIONS, word)
}

static SAMPLINGS: [(&str, Sampling); 5] = [
    ("center", Sampling::Center),
    ("centroid", Sampling::Centroid),
    ("sample", Sampling::Sample),
    ("first", Sampling::First),
    ("either", Sampling::Either),
];

/// The sampling with this name.
pub fn sampling_of(word: &[u8]) -> Option<Sampling> {
    find(&SAMPLINGS, word)
}

static DEPTH_TESTS: [(&str, EarlyDepthTest); 4] = [
    ("force", EarlyDepthTest::Force),
    (
        "greater_equal",
        EarlyDepthTest::Allow {
            conservative: ConservativeDepth::GreaterEqual,
        },
    ),
    (
        "less_equal",
        EarlyDepthTest::Allow {
            conservative: ConservativeDepth::LessEqual,
        },
    ),
    (
        "unchanged",
        EarlyDepthTest::Allow {
            conservative: ConservativeDepth::Unchanged,
        },
    ),
];

/// The early depth test with this name.
pub fn depth_test_of(word: &[u8]) -> Option<EarlyDepthTest> {
    find(&DEPTH_TESTS, word)
}

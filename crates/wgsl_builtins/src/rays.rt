// Predeclared names for ray queries: types, constants and functions.

use wgsl_words::find;

/// A predeclared type for ray queries.
#[derive(Clone, Copy, PartialEq, Eq)]
pub enum RayWord {
    /// `acceleration_structure`.
    AccelerationStructure,
    /// `ray_query`.
    Query,
    /// `RayDesc`.
    Descriptor,
    /// `RayIntersection`.
    Intersection,
}

/// A function of ray queries or of ray tracing pipelines.
#[derive(Clone, Copy, PartialEq, Eq)]
pub enum RayFunction {
    /// `rayQueryInitialize`.
    Initialize,
    /// `rayQueryProceed`.
    Proceed,
    /// `rayQueryGenerateIntersection`.
    GenerateIntersection,
    /// `rayQueryConfirmIntersection`.
    ConfirmIntersection,
    /// `rayQueryTerminate`.
    Terminate,
    /// `rayQueryGetCommittedIntersection`, or else `rayQueryGetCandidateIntersection`.
    Intersection(bool),
    /// `getCommittedHitVertexPositions`, or else `getCandidateHitVertexPositions`.
    Vertices(bool),
    /// `traceRay`.
    Trace,
}

impl RayFunction {
    /// Whether the function returns a value.
    pub fn has_value(self) -> bool {
        matches!(
            self,
            RayFunction::Proceed | RayFunction::Intersection(_) | RayFunction::Vertices(_)
        )
    }
}

static FUNCTIONS: [(&str, RayFunction); 10] = [
    ("rayQueryInitialize", RayFunction::Initialize),
    ("rayQueryProceed", RayFunction::Proceed),
    (
        "rayQueryGenerateIntersection",
        RayFunction::GenerateIntersection,
    ),
    (
        "rayQueryConfirmIntersection",
        RayFunction::ConfirmIntersection,
    ),
    ("rayQueryTerminate", RayFunction::Terminate),
    (
        "rayQueryGetCommittedIntersection",
        RayFunction::Intersection(true),
    ),
    (
        "rayQueryGetCandidateIntersection",
        RayFunction::Intersection(false),
    ),
    (
        "getCommittedHitVertexPositions",
        RayFunction::Vertices(true),
    ),
    (
        "getCandidateHitVertexPositions",
        RayFunction::Vertices(false),
    ),
    ("traceRay", RayFunction::Trace),
];

/// The function of rays with this name.
pub fn ray_function_of(word: &[u8]) -> Option<RayFunction> {
    find(&FUNCTIONS, word)
}

static CONSTANTS: [(&str, u32); 15] = [
    ("RAY_FLAG_NONE", 0),
    ("RAY_FLAG_FORCE_OPAQUE", 1),
    ("RAY_FLAG_FORCE_NO_OPAQUE", 2),
    ("RAY_FLAG_TERMINATE_ON_FIRST_HIT", 4),
    ("RAY_FLAG_SKIP_CLOSEST_HIT_SHADER", 8),
    ("RAY_FLAG_CULL_BACK_FACING", 16),
    ("RAY_FLAG_CULL_FRONT_FACING", 32),
    ("RAY_FLAG_CULL_OPAQUE", 64),
    ("RAY_FLAG_CULL_NO_OPAQUE", 128),
    ("RAY_FLAG_SKIP_TRIANGLES", 256),
    ("RAY_FLAG_SKIP_AABBS", 512),
    ("RAY_QUERY_INTERSECTION_NONE", 0),
    ("RAY_QUERY_INTERSECTION_TRIANGLE", 1),
    ("RAY_QUERY_INTERSECTION_GENERATED", 2),
    ("RAY_QUERY_INTERSECTION_AABB", 3),
];

/// The ray query constant with this name.
pub fn ray_constant_of(word: &[u8]) -> Option<u32> {
    find(&CONSTANTS, word)
}

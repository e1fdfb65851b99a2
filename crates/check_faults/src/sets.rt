// The words of each word set, and which set applies at a path of a document.

ghost use Rattle.std.specs.Prelude.{◌≡◌, map};
ghost use Rattle.check_faults.specs.Tables.{list_for, listed, sets as sets_named};

use crate::document::{at, word};
use serde_json::Value;

// A word set by its name, and its words separated by spaces.
type Set = (&'static str, &'static str);

static SETS: [Set; 32] = [
    (
        "flag",
        "EXPRESSIONS BLOCKS CONTROL_FLOW_UNIFORMITY STRUCT_LAYOUTS CONSTANTS BINDINGS strict-scope",
    ),
    (
        "capability",
        "IMMEDIATES FLOAT64 SHADER_FLOAT16 SHADER_INT16 SHADER_INT64 PRIMITIVE_INDEX BUFFER_BINDING_ARRAY STORAGE_BUFFER_BINDING_ARRAY TEXTURE_AND_SAMPLER_BINDING_ARRAY STORAGE_TEXTURE_BINDING_ARRAY ACCELERATION_STRUCTURE_BINDING_ARRAY STORAGE_TEXTURE_16BIT_NORM_FORMATS CUBE_ARRAY_TEXTURES CLIP_DISTANCES CULL_DISTANCE MULTIVIEW EARLY_DEPTH_TEST MULTISAMPLED_SHADING DUAL_SOURCE_BLENDING SUBGROUP SUBGROUP_BARRIER SHADER_INT64_ATOMIC_MIN_MAX SHADER_INT64_ATOMIC_ALL_OPS SHADER_FLOAT32_ATOMIC TEXTURE_ATOMIC TEXTURE_INT64_ATOMIC TEXTURE_EXTERNAL RAY_QUERY RAY_HIT_VERTEX_POSITION RAY_TRACING_PIPELINE SHADER_BARYCENTRICS MESH_SHADER MESH_SHADER_POINT_TOPOLOGY PER_VERTEX DRAW_INDEX COOPERATIVE_MATRIX MEMORY_DECORATION_COHERENT MEMORY_DECORATION_VOLATILE",
    ),
    (
        "stage of a set",
        "VERTEX FRAGMENT COMPUTE MESH TASK RAY_GENERATION ANY_HIT CLOSEST_HIT MISS",
    ),
    (
        "stage of an entry point",
        "Vertex Fragment Compute Mesh Task RayGeneration AnyHit ClosestHit Miss",
    ),
    (
        "subgroup operation of a set",
        "BASIC VOTE ARITHMETIC BALLOT SHUFFLE SHUFFLE_RELATIVE QUAD",
    ),
    (
        "scalar",
        "bool i16 u16 i32 u32 i64 u64 f16 f32 f64 aint afloat",
    ),
    (
        "space",
        "Function Private WorkGroup Uniform Handle Immediate TaskPayload RayPayload IncomingRayPayload",
    ),
    ("access", "LOAD STORE ATOMIC"),
    ("dimension", "D1 D2 D3 Cube"),
    ("kind", "Sint Uint Float Bool AbstractInt AbstractFloat"),
    (
        "format",
        "R8Unorm R8Snorm R8Uint R8Sint Rg8Unorm Rg8Snorm Rg8Uint Rg8Sint Rgba8Unorm Rgba8Snorm Rgba8Uint Rgba8Sint R16Unorm R16Snorm R16Uint R16Sint R16Float Rg16Unorm Rg16Snorm Rg16Uint Rg16Sint Rg16Float Rgba16Unorm Rgba16Snorm Rgba16Uint Rgba16Sint Rgba16Float R32Uint R32Sint R32Float Rg32Uint Rg32Sint Rg32Float Rgba32Uint Rgba32Sint Rgba32Float Bgra8Unorm Rgb10a2Uint Rgb10a2Unorm Rg11b10Ufloat R64Uint",
    ),
    ("role", "A B C"),
    (
        "built-in",
        "BaseInstance BaseVertex VertexIndex InstanceIndex DrawIndex ClipDistances CullDistance PointSize PointCoord ViewIndex FragDepth FrontFacing PrimitiveIndex SampleIndex SampleMask LocalInvocationIndex NumSubgroups SubgroupId GlobalInvocationId LocalInvocationId WorkGroupId WorkGroupSize NumWorkGroups SubgroupSize SubgroupInvocationId CullPrimitive PointIndex LineIndices TriangleIndices MeshTaskSize RayInvocationId NumRayInvocations InstanceCustomData GeometryIndex HitKind WorldRayOrigin WorldRayDirection RayTmin RayTCurrentMax ObjectRayOrigin ObjectRayDirection ObjectToWorld WorldToObject VertexCount PrimitiveCount Vertices Primitives",
    ),
    ("interpolation", "Perspective Linear Flat PerVertex"),
    ("sampling", "Center Centroid Sample First Either"),
    ("operator of one value", "Negate LogicalNot BitwiseNot"),
    (
        "operator of two values",
        "Add Subtract Multiply Divide Modulo Equal NotEqual Less LessEqual Greater GreaterEqual And ExclusiveOr InclusiveOr LogicalAnd LogicalOr ShiftLeft ShiftRight",
    ),
    ("axis", "X Y Width"),
    ("control", "Coarse Fine None"),
    ("question", "All Any IsNan IsInf"),
    (
        "math function",
        "Abs Min Max Clamp Sign Saturate Cos Cosh Sin Sinh Tan Tanh Acos Asin Atan Asinh Acosh Atanh Radians Degrees Ceil Floor Round Fract Trunc Exp Exp2 Log Log2 Sqrt InverseSqrt Atan2 Pow Step Fma SmoothStep Mix QuantizeToF16 CountTrailingZeros CountLeadingZeros CountOneBits ReverseBits FirstTrailingBit FirstLeadingBit ExtractBits InsertBits Dot Normalize Reflect FaceForward Refract Cross Length Distance Modf Frexp Ldexp Outer Transpose Determinant Inverse Pack4x8snorm Pack4x8unorm Pack2x16snorm Pack2x16unorm Pack2x16float Pack4xI8 Pack4xI8Clamp Pack4xU8 Pack4xU8Clamp Unpack4x8snorm Unpack4x8unorm Unpack2x16snorm Unpack2x16unorm Unpack2x16float Unpack4xI8 Unpack4xU8 Dot4I8Packed Dot4U8Packed",
    ),
    ("barrier", "STORAGE WORK_GROUP SUB_GROUP TEXTURE"),
    ("operation", "All Any Add Mul Min Max And Or Xor"),
    ("collective", "Reduce InclusiveScan ExclusiveScan"),
    ("direction", "X Y Diagonal"),
    ("decoration", "COHERENT VOLATILE"),
    ("severity", "Off Info Warning Error"),
    ("depth", "GreaterEqual LessEqual Unchanged"),
    ("topology", "Points Lines Triangles"),
    (
        "type",
        "Scalar Vector Matrix CooperativeMatrix Atomic Pointer ValuePointer Array Struct Image Sampler AccelerationStructure RayQuery BindingArray",
    ),
    (
        "expression",
        "Literal Constant Override ZeroValue Compose Access AccessIndex Splat Swizzle FunctionArgument GlobalVariable LocalVariable Load ImageSample ImageLoad ImageQuery Unary Binary Select Derivative Relational Math As CallResult AtomicResult WorkGroupUniformLoadResult ArrayLength RayQueryVertexPositions RayQueryProceedResult RayQueryGetIntersection SubgroupBallotResult SubgroupOperationResult CooperativeLoad CooperativeMultiplyAdd",
    ),
    (
        "statement",
        "Emit Block If Switch Loop Break Continue Return Kill ControlBarrier MemoryBarrier Store ImageStore Atomic ImageAtomic WorkGroupUniformLoad Call RayQuery SubgroupBallot SubgroupCollectiveOperation SubgroupGather CooperativeStore RayPipelineFunction",
    ),
];

// The word set of an array element, by the array's first word, the element's index, and the set's name.
type Place = (&'static str, usize, &'static str);

static PLACES: [Place; 31] = [
    ("Scalar", 1, "scalar"),
    ("Vector", 2, "scalar"),
    ("Matrix", 3, "scalar"),
    ("CooperativeMatrix", 3, "scalar"),
    ("CooperativeMatrix", 4, "role"),
    ("Atomic", 1, "scalar"),
    ("Pointer", 2, "space"),
    ("ValuePointer", 2, "scalar"),
    ("ValuePointer", 3, "space"),
    ("Image", 1, "dimension"),
    ("Sampled", 1, "kind"),
    ("Storage", 1, "format"),
    ("BuiltIn", 1, "built-in"),
    ("Location", 2, "interpolation"),
    ("Location", 3, "sampling"),
    ("Literal", 1, "scalar"),
    ("Unary", 1, "operator of one value"),
    ("Binary", 1, "operator of two values"),
    ("Derivative", 1, "axis"),
    ("Derivative", 2, "control"),
    ("Relational", 1, "question"),
    ("Math", 1, "math function"),
    ("As", 2, "kind"),
    ("CooperativeLoad", 3, "role"),
    ("SubgroupCollectiveOperation", 1, "operation"),
    ("SubgroupCollectiveOperation", 2, "collective"),
    ("QuadSwap", 1, "direction"),
    ("Allow", 1, "depth"),
    ("AtomicCompareExchangeWeakResult", 1, "scalar"),
    ("ModfResult", 2, "scalar"),
    ("FrexpResult", 2, "scalar"),
];

// The word set inside the settings, the filters, a variable or an entry point.
fn set_in_items(path: &[u32]) -> &'static str {
    let (Some(list), Some(last)) = (path.first(), path.last()) else {
        return "";
    };
    match (*list, path.len(), *last) {
        (1, 2, _) => "flag",
        (2, 2, _) => "capability",
        (3, 3, _) => set_of_subgroups(path),
        (7, 4, 0) => "severity",
        (11, 3, 1) => "space",
        (11, 4, _) => "decoration",
        (13, 3, 0) => "stage of an entry point",
        (13, 4, 0) => "topology",
        _ => "",
    }
}

fn set_of_subgroups(path: &[u32]) -> &'static str {
    if path.get(1) == Some(&0) {
        "stage of a set"
    } else {
        "subgroup operation of a set"
    }
}

// The word set of the first word of a type, an expression or a statement.
fn set_of_kinds(path: &[u32]) -> &'static str {
    if path.last() != Some(&0) {
        return "";
    }
    let inside = match path.first() {
        Some(12) => path.get(2),
        Some(13) => path.get(3),
        _ => None,
    };
    match (path.first(), path.len(), inside) {
        (Some(5), 4, _) => "type",
        (Some(10), 3, _) => "expression",
        (_, _, Some(4)) => "expression",
        (_, _, Some(5)) => "statement",
        _ => "",
    }
}

// The word set of an element of an array that begins with this word.
fn set_in(word: &str, index: usize) -> &'static str {
    for place in &PLACES {
        if place.0 == word && place.1 == index {
            return place.2;
        }
    }
    ""
}

// The value that contains the part at a path.
fn holder<'a>(document: &'a Value, path: &[u32]) -> Option<&'a Value> {
    let mut found = document;
    for step in path.iter().take(path.len().saturating_sub(1)) {
        found = at(found, *step as usize)?;
    }
    Some(found)
}

/// The name of the word set that the part at a path is not in, or empty if none applies.
pub fn set_of(document: &Value, path: &[u32]) -> &'static str {
    let by_path = set_in_items(path);
    if !by_path.is_empty() {
        return by_path;
    }
    let by_kind = set_of_kinds(path);
    if !by_kind.is_empty() {
        return by_kind;
    }
    match (holder(document, path), path.last()) {
        (Some(holder), Some(last)) => set_in(word(holder), *last as usize),
        _ => "",
    }
}

fn sets() -> &'static [Set]
    ensures { map listed result.now ≡ sets_named }
{
    &SETS
}

fn text_in(table: &'static [Set], word: &str) -> &'static str
    ensures { result.now ≡ list_for word.now (map listed table.now) }
{
    for row in table {
        if word == row.0 {
            return row.1;
        }
    }
    ""
}

/// The words of a set, separated by spaces, or empty if it is not a set.
pub fn words_of(set: &str) -> &'static str
    ensures { result.now ≡ list_for set.now sets_named }
{
    text_in(sets(), set)
}

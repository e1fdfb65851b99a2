// What the numbers of SPIR-V are in the IR.

use ir_flags::{Capabilities, SubgroupOperationSet};
use ir_kinds::{BuiltIn, ImageDimension, StorageFormat};
use spirv_numbers::numbers;

// The built-ins that are written in one way.
static BUILT_INS: [(u32, BuiltIn); 44] = [
    (numbers::BUILT_IN_POINT_SIZE, BuiltIn::PointSize),
    (numbers::BUILT_IN_CLIP_DISTANCE, BuiltIn::ClipDistances),
    (numbers::BUILT_IN_CULL_DISTANCE, BuiltIn::CullDistance),
    (numbers::BUILT_IN_VERTEX_INDEX, BuiltIn::VertexIndex),
    (numbers::BUILT_IN_INSTANCE_INDEX, BuiltIn::InstanceIndex),
    (numbers::BUILT_IN_BASE_VERTEX, BuiltIn::BaseVertex),
    (numbers::BUILT_IN_BASE_INSTANCE, BuiltIn::BaseInstance),
    (numbers::BUILT_IN_DRAW_INDEX, BuiltIn::DrawIndex),
    (numbers::BUILT_IN_VIEW_INDEX, BuiltIn::ViewIndex),
    (numbers::BUILT_IN_FRAG_DEPTH, BuiltIn::FragDepth),
    (numbers::BUILT_IN_FRONT_FACING, BuiltIn::FrontFacing),
    (numbers::BUILT_IN_PRIMITIVE_ID, BuiltIn::PrimitiveIndex),
    (numbers::BUILT_IN_SAMPLE_ID, BuiltIn::SampleIndex),
    (numbers::BUILT_IN_SAMPLE_MASK, BuiltIn::SampleMask),
    (numbers::BUILT_IN_POINT_COORD, BuiltIn::PointCoord),
    (
        numbers::BUILT_IN_GLOBAL_INVOCATION_ID,
        BuiltIn::GlobalInvocationId,
    ),
    (
        numbers::BUILT_IN_LOCAL_INVOCATION_ID,
        BuiltIn::LocalInvocationId,
    ),
    (
        numbers::BUILT_IN_LOCAL_INVOCATION_INDEX,
        BuiltIn::LocalInvocationIndex,
    ),
    (numbers::BUILT_IN_WORKGROUP_ID, BuiltIn::WorkGroupId),
    (numbers::BUILT_IN_WORKGROUP_SIZE, BuiltIn::WorkGroupSize),
    (numbers::BUILT_IN_NUM_WORKGROUPS, BuiltIn::NumWorkGroups),
    (numbers::BUILT_IN_NUM_SUBGROUPS, BuiltIn::NumSubgroups),
    (numbers::BUILT_IN_SUBGROUP_ID, BuiltIn::SubgroupId),
    (numbers::BUILT_IN_SUBGROUP_SIZE, BuiltIn::SubgroupSize),
    (
        numbers::BUILT_IN_SUBGROUP_LOCAL_INVOCATION_ID,
        BuiltIn::SubgroupInvocationId,
    ),
    (
        numbers::BUILT_IN_BARY_COORD_KHR,
        BuiltIn::Barycentric { perspective: true },
    ),
    (
        numbers::BUILT_IN_BARY_COORD_NO_PERSP_KHR,
        BuiltIn::Barycentric { perspective: false },
    ),
    (
        numbers::BUILT_IN_PRIMITIVE_POINT_INDICES_EXT,
        BuiltIn::PointIndex,
    ),
    (
        numbers::BUILT_IN_PRIMITIVE_LINE_INDICES_EXT,
        BuiltIn::LineIndices,
    ),
    (
        numbers::BUILT_IN_PRIMITIVE_TRIANGLE_INDICES_EXT,
        BuiltIn::TriangleIndices,
    ),
    (numbers::BUILT_IN_CULL_PRIMITIVE_EXT, BuiltIn::CullPrimitive),
    (numbers::BUILT_IN_LAUNCH_ID_KHR, BuiltIn::RayInvocationId),
    (
        numbers::BUILT_IN_LAUNCH_SIZE_KHR,
        BuiltIn::NumRayInvocations,
    ),
    (
        numbers::BUILT_IN_WORLD_RAY_ORIGIN_KHR,
        BuiltIn::WorldRayOrigin,
    ),
    (
        numbers::BUILT_IN_WORLD_RAY_DIRECTION_KHR,
        BuiltIn::WorldRayDirection,
    ),
    (
        numbers::BUILT_IN_OBJECT_RAY_ORIGIN_KHR,
        BuiltIn::ObjectRayOrigin,
    ),
    (
        numbers::BUILT_IN_OBJECT_RAY_DIRECTION_KHR,
        BuiltIn::ObjectRayDirection,
    ),
    (numbers::BUILT_IN_RAY_TMIN_KHR, BuiltIn::RayTmin),
    (numbers::BUILT_IN_RAY_TMAX_KHR, BuiltIn::RayTCurrentMax),
    (
        numbers::BUILT_IN_INSTANCE_CUSTOM_INDEX_KHR,
        BuiltIn::InstanceCustomData,
    ),
    (
        numbers::BUILT_IN_OBJECT_TO_WORLD_KHR,
        BuiltIn::ObjectToWorld,
    ),
    (
        numbers::BUILT_IN_WORLD_TO_OBJECT_KHR,
        BuiltIn::WorldToObject,
    ),
    (numbers::BUILT_IN_HIT_KIND_KHR, BuiltIn::HitKind),
    (
        numbers::BUILT_IN_RAY_GEOMETRY_INDEX_KHR,
        BuiltIn::GeometryIndex,
    ),
];

/// The built-in with this number, if the IR has it.
pub fn built_in(number: u32, invariant: bool) -> Option<BuiltIn> {
    if number == numbers::BUILT_IN_POSITION || number == numbers::BUILT_IN_FRAG_COORD {
        return Some(BuiltIn::Position { invariant });
    }
    find(&BUILT_INS, number)
}

// The built-in of the first mask of a subgroup's invocations; the others follow it (section 3.21).
const FIRST_MASK: u32 = 4416;

/// Which mask of a subgroup's invocations the built-in with this number is, if it is one; none of them is in the IR.
pub fn subgroup_mask(number: u32) -> Option<SubgroupMask> {
    match number.checked_sub(FIRST_MASK)? {
        0 => Some(SubgroupMask::Equal),
        1 => Some(SubgroupMask::GreaterEqual),
        2 => Some(SubgroupMask::Greater),
        3 => Some(SubgroupMask::LessEqual),
        4 => Some(SubgroupMask::Less),
        _ => None,
    }
}

/// Which invocations of a subgroup are in a mask, by their numbers beside that of this one.
#[derive(Clone, Copy)]
pub enum SubgroupMask {
    /// This one.
    Equal,
    /// This one and those after it.
    GreaterEqual,
    /// Those after it.
    Greater,
    /// This one and those before it.
    LessEqual,
    /// Those before it.
    Less,
}

/// What stands beside a number in a table.
pub fn find<T: Copy>(table: &[(u32, T)], number: u32) -> Option<T> {
    for row in table {
        if row.0 == number {
            return Some(row.1);
        }
    }
    None
}

/// Whether a built-in is unsigned in the IR, and may be signed in SPIR-V.
pub fn is_unsigned(built_in: BuiltIn) -> bool {
    matches!(
        built_in,
        BuiltIn::BaseInstance
            | BuiltIn::BaseVertex
            | BuiltIn::InstanceIndex
            | BuiltIn::SampleIndex
            | BuiltIn::VertexIndex
            | BuiltIn::PrimitiveIndex
            | BuiltIn::LocalInvocationIndex
            | BuiltIn::ViewIndex
            | BuiltIn::DrawIndex
            | BuiltIn::GlobalInvocationId
            | BuiltIn::LocalInvocationId
            | BuiltIn::WorkGroupId
            | BuiltIn::WorkGroupSize
            | BuiltIn::NumWorkGroups
            | BuiltIn::NumSubgroups
            | BuiltIn::SubgroupId
            | BuiltIn::SubgroupSize
            | BuiltIn::SubgroupInvocationId
            | BuiltIn::PointIndex
            | BuiltIn::LineIndices
            | BuiltIn::TriangleIndices
            | BuiltIn::RayInvocationId
            | BuiltIn::NumRayInvocations
            | BuiltIn::InstanceCustomData
            | BuiltIn::GeometryIndex
            | BuiltIn::HitKind
    )
}

// The formats of storage images (section 3.11).
static FORMATS: [(u32, StorageFormat); 40] = [
    (1, StorageFormat::Rgba32Float),
    (2, StorageFormat::Rgba16Float),
    (3, StorageFormat::R32Float),
    (4, StorageFormat::Rgba8Unorm),
    (5, StorageFormat::Rgba8Snorm),
    (6, StorageFormat::Rg32Float),
    (7, StorageFormat::Rg16Float),
    (8, StorageFormat::Rg11b10Ufloat),
    (9, StorageFormat::R16Float),
    (10, StorageFormat::Rgba16Unorm),
    (11, StorageFormat::Rgb10a2Unorm),
    (12, StorageFormat::Rg16Unorm),
    (13, StorageFormat::Rg8Unorm),
    (14, StorageFormat::R16Unorm),
    (15, StorageFormat::R8Unorm),
    (16, StorageFormat::Rgba16Snorm),
    (17, StorageFormat::Rg16Snorm),
    (18, StorageFormat::Rg8Snorm),
    (19, StorageFormat::R16Snorm),
    (20, StorageFormat::R8Snorm),
    (21, StorageFormat::Rgba32Sint),
    (22, StorageFormat::Rgba16Sint),
    (23, StorageFormat::Rgba8Sint),
    (24, StorageFormat::R32Sint),
    (25, StorageFormat::Rg32Sint),
    (26, StorageFormat::Rg16Sint),
    (27, StorageFormat::Rg8Sint),
    (28, StorageFormat::R16Sint),
    (29, StorageFormat::R8Sint),
    (30, StorageFormat::Rgba32Uint),
    (31, StorageFormat::Rgba16Uint),
    (32, StorageFormat::Rgba8Uint),
    (33, StorageFormat::R32Uint),
    (34, StorageFormat::Rgb10a2Uint),
    (35, StorageFormat::Rg32Uint),
    (36, StorageFormat::Rg16Uint),
    (37, StorageFormat::Rg8Uint),
    (38, StorageFormat::R16Uint),
    (39, StorageFormat::R8Uint),
    (40, StorageFormat::R64Uint),
];

/// The storage format with this number, if the IR has it.
pub fn format(number: u32) -> Option<StorageFormat> {
    find(&FORMATS, number)
}

/// Whether texels of this format are fractions of 16 bits.
pub fn is_norm16(format: StorageFormat) -> bool {
    matches!(
        format,
        StorageFormat::Rgba16Unorm
            | StorageFormat::Rg16Unorm
            | StorageFormat::R16Unorm
            | StorageFormat::Rgba16Snorm
            | StorageFormat::Rg16Snorm
            | StorageFormat::R16Snorm
    )
}

/// The dimension with this number, if the IR has it.
pub fn dimension(number: u32) -> Option<ImageDimension> {
    match number {
        numbers::DIM_1_D => Some(ImageDimension::D1),
        numbers::DIM_2_D => Some(ImageDimension::D2),
        numbers::DIM_3_D => Some(ImageDimension::D3),
        numbers::DIM_CUBE => Some(ImageDimension::Cube),
        _ => None,
    }
}

// What the capabilities of SPIR-V are in the IR.
static CAPABILITIES: [(u32, Capabilities); 26] = [
    (numbers::CAPABILITY_FLOAT64, Capabilities::FLOAT64),
    (numbers::CAPABILITY_FLOAT16, Capabilities::SHADER_FLOAT16),
    (numbers::CAPABILITY_INT16, Capabilities::SHADER_INT16),
    (numbers::CAPABILITY_INT64, Capabilities::SHADER_INT64),
    (
        numbers::CAPABILITY_ATOMIC_FLOAT32_ADD_EXT,
        Capabilities::SHADER_FLOAT32_ATOMIC,
    ),
    (
        numbers::CAPABILITY_SAMPLED_CUBE_ARRAY,
        Capabilities::CUBE_ARRAY_TEXTURES,
    ),
    (
        numbers::CAPABILITY_IMAGE_CUBE_ARRAY,
        Capabilities::CUBE_ARRAY_TEXTURES,
    ),
    (
        numbers::CAPABILITY_CLIP_DISTANCE,
        Capabilities::CLIP_DISTANCES,
    ),
    (
        numbers::CAPABILITY_CULL_DISTANCE,
        Capabilities::CULL_DISTANCE,
    ),
    (numbers::CAPABILITY_MULTI_VIEW, Capabilities::MULTIVIEW),
    (
        numbers::CAPABILITY_SAMPLE_RATE_SHADING,
        Capabilities::MULTISAMPLED_SHADING,
    ),
    (
        numbers::CAPABILITY_DRAW_PARAMETERS,
        Capabilities::DRAW_INDEX,
    ),
    (numbers::CAPABILITY_GEOMETRY, Capabilities::PRIMITIVE_INDEX),
    (
        numbers::CAPABILITY_TESSELLATION,
        Capabilities::PRIMITIVE_INDEX,
    ),
    (
        numbers::CAPABILITY_SUBGROUP_BALLOT_KHR,
        Capabilities::SUBGROUP,
    ),
    (
        numbers::CAPABILITY_SUBGROUP_VOTE_KHR,
        Capabilities::SUBGROUP,
    ),
    (
        numbers::CAPABILITY_FRAGMENT_BARYCENTRIC_KHR,
        Capabilities::SHADER_BARYCENTRICS,
    ),
    (
        numbers::CAPABILITY_INT64_IMAGE_EXT,
        Capabilities::TEXTURE_INT64_ATOMIC,
    ),
    (
        numbers::CAPABILITY_MESH_SHADING_EXT,
        Capabilities::MESH_SHADER,
    ),
    (numbers::CAPABILITY_RAY_QUERY_KHR, Capabilities::RAY_QUERY),
    (
        numbers::CAPABILITY_RAY_TRACING_KHR,
        Capabilities::RAY_TRACING_PIPELINE,
    ),
    (
        numbers::CAPABILITY_RAY_TRACING_NV,
        Capabilities::RAY_TRACING_PIPELINE,
    ),
    (
        numbers::CAPABILITY_RAY_QUERY_POSITION_FETCH_KHR,
        Capabilities::RAY_HIT_VERTEX_POSITION,
    ),
    (
        numbers::CAPABILITY_INT64_ATOMICS,
        Capabilities::SHADER_INT64_ATOMIC_ALL_OPS,
    ),
    (
        numbers::CAPABILITY_STORAGE_BUFFER16_BIT_ACCESS,
        Capabilities::SHADER_FLOAT16,
    ),
    (
        numbers::CAPABILITY_UNIFORM_AND_STORAGE_BUFFER16_BIT_ACCESS,
        Capabilities::SHADER_FLOAT16,
    ),
];

// Those that name a second one.
static MORE_CAPABILITIES: [(u32, Capabilities); 8] = [
    (
        numbers::CAPABILITY_MESH_SHADING_EXT,
        Capabilities::PRIMITIVE_INDEX,
    ),
    (
        numbers::CAPABILITY_INT64_ATOMICS,
        Capabilities::SHADER_INT64_ATOMIC_MIN_MAX,
    ),
    (
        numbers::CAPABILITY_STORAGE_BUFFER16_BIT_ACCESS,
        Capabilities::SHADER_INT16,
    ),
    (
        numbers::CAPABILITY_UNIFORM_AND_STORAGE_BUFFER16_BIT_ACCESS,
        Capabilities::SHADER_INT16,
    ),
    (
        numbers::CAPABILITY_STORAGE_INPUT_OUTPUT16,
        Capabilities::SHADER_FLOAT16,
    ),
    (
        numbers::CAPABILITY_STORAGE_INPUT_OUTPUT16,
        Capabilities::SHADER_INT16,
    ),
    (
        numbers::CAPABILITY_STORAGE_PUSH_CONSTANT16,
        Capabilities::SHADER_FLOAT16,
    ),
    (
        numbers::CAPABILITY_STORAGE_PUSH_CONSTANT16,
        Capabilities::SHADER_INT16,
    ),
];

// The operations of subgroups that capabilities name.
static OPERATIONS: [(u32, SubgroupOperationSet); 7] = [
    (
        numbers::CAPABILITY_GROUP_NON_UNIFORM,
        SubgroupOperationSet::BASIC,
    ),
    (
        numbers::CAPABILITY_GROUP_NON_UNIFORM_VOTE,
        SubgroupOperationSet::VOTE,
    ),
    (
        numbers::CAPABILITY_GROUP_NON_UNIFORM_ARITHMETIC,
        SubgroupOperationSet::ARITHMETIC,
    ),
    (
        numbers::CAPABILITY_GROUP_NON_UNIFORM_BALLOT,
        SubgroupOperationSet::BALLOT,
    ),
    (
        numbers::CAPABILITY_GROUP_NON_UNIFORM_SHUFFLE,
        SubgroupOperationSet::SHUFFLE,
    ),
    (
        numbers::CAPABILITY_GROUP_NON_UNIFORM_SHUFFLE_RELATIVE,
        SubgroupOperationSet::SHUFFLE_RELATIVE,
    ),
    (
        numbers::CAPABILITY_GROUP_NON_UNIFORM_QUAD,
        SubgroupOperationSet::QUAD,
    ),
];

/// What a module requires of the validator.
#[derive(Clone, Copy)]
pub struct Demands {
    /// Its capabilities.
    pub capabilities: Capabilities,
    /// Its operations of subgroups.
    pub operations: SubgroupOperationSet,
}

impl Demands {
    /// Nothing.
    pub const NONE: Demands = Demands {
        capabilities: Capabilities(0),
        operations: SubgroupOperationSet(0),
    };

    /// This capability as well.
    pub fn ask(&mut self, more: Capabilities) {
        self.capabilities = Capabilities(self.capabilities.0 | more.0);
    }

    /// Whether the positions of vertices that rays hit are fetched.
    pub fn fetches_positions(&self) -> bool {
        self.capabilities.0 & Capabilities::RAY_HIT_VERTEX_POSITION.0 != 0
    }

    /// What the capability of SPIR-V with this number says.
    pub fn declare(&mut self, number: u32) {
        for row in &CAPABILITIES {
            if row.0 == number {
                self.ask(row.1);
            }
        }
        for row in &MORE_CAPABILITIES {
            if row.0 == number {
                self.ask(row.1);
            }
        }
        if let Some(operations) = find(&OPERATIONS, number) {
            self.operations = SubgroupOperationSet(self.operations.0 | operations.0);
            self.ask(Capabilities::SUBGROUP);
        }
    }
}

// The word tables of the settings: each word denotes the set with its one flag.
ghost use Rattle.std.specs.Prelude.{◌≡◌};
ghost use Rattle.document_words.specs.Tables.{flags, capabilities, stages, operations};
ghost use Rattle.document_words.specs.Unions.{flag_union, capability_union, stage_union, operation_union};

use crate::words::{SetWord, Word};
use ir_flags::{Capabilities, ShaderStages, SubgroupOperationSet, ValidationFlags};

static FLAGS: [(&str, ValidationFlags); 7] = [
    ("EXPRESSIONS", ValidationFlags::EXPRESSIONS),
    ("BLOCKS", ValidationFlags::BLOCKS),
    (
        "CONTROL_FLOW_UNIFORMITY",
        ValidationFlags::CONTROL_FLOW_UNIFORMITY,
    ),
    ("STRUCT_LAYOUTS", ValidationFlags::STRUCT_LAYOUTS),
    ("CONSTANTS", ValidationFlags::CONSTANTS),
    ("BINDINGS", ValidationFlags::BINDINGS),
    ("strict-scope", ValidationFlags::STRICT_SCOPE),
];

impl Word for ValidationFlags {
    ghost table = { flags };

    fn table() -> &'static [(&'static str, ValidationFlags)] {
        &FLAGS
    }
}

impl SetWord for ValidationFlags {
    ghost none = { record { 0 = 0 } };

    ghost union = { flag_union };

    fn none() -> ValidationFlags {
        ValidationFlags(0)
    }

    fn with(self, other: ValidationFlags) -> ValidationFlags {
        ValidationFlags(self.0 | other.0)
    }
}

static CAPABILITIES: [(&str, Capabilities); 38] = [
    ("IMMEDIATES", Capabilities::IMMEDIATES),
    ("FLOAT64", Capabilities::FLOAT64),
    ("SHADER_FLOAT16", Capabilities::SHADER_FLOAT16),
    ("SHADER_INT16", Capabilities::SHADER_INT16),
    ("SHADER_INT64", Capabilities::SHADER_INT64),
    ("PRIMITIVE_INDEX", Capabilities::PRIMITIVE_INDEX),
    ("BUFFER_BINDING_ARRAY", Capabilities::BUFFER_BINDING_ARRAY),
    (
        "STORAGE_BUFFER_BINDING_ARRAY",
        Capabilities::STORAGE_BUFFER_BINDING_ARRAY,
    ),
    (
        "TEXTURE_AND_SAMPLER_BINDING_ARRAY",
        Capabilities::TEXTURE_AND_SAMPLER_BINDING_ARRAY,
    ),
    (
        "STORAGE_TEXTURE_BINDING_ARRAY",
        Capabilities::STORAGE_TEXTURE_BINDING_ARRAY,
    ),
    (
        "ACCELERATION_STRUCTURE_BINDING_ARRAY",
        Capabilities::ACCELERATION_STRUCTURE_BINDING_ARRAY,
    ),
    (
        "STORAGE_TEXTURE_16BIT_NORM_FORMATS",
        Capabilities::STORAGE_TEXTURE_16BIT_NORM_FORMATS,
    ),
    ("CUBE_ARRAY_TEXTURES", Capabilities::CUBE_ARRAY_TEXTURES),
    ("CLIP_DISTANCES", Capabilities::CLIP_DISTANCES),
    ("CULL_DISTANCE", Capabilities::CULL_DISTANCE),
    ("MULTIVIEW", Capabilities::MULTIVIEW),
    ("EARLY_DEPTH_TEST", Capabilities::EARLY_DEPTH_TEST),
    ("MULTISAMPLED_SHADING", Capabilities::MULTISAMPLED_SHADING),
    ("DUAL_SOURCE_BLENDING", Capabilities::DUAL_SOURCE_BLENDING),
    ("SUBGROUP", Capabilities::SUBGROUP),
    ("SUBGROUP_BARRIER", Capabilities::SUBGROUP_BARRIER),
    (
        "SHADER_INT64_ATOMIC_MIN_MAX",
        Capabilities::SHADER_INT64_ATOMIC_MIN_MAX,
    ),
    (
        "SHADER_INT64_ATOMIC_ALL_OPS",
        Capabilities::SHADER_INT64_ATOMIC_ALL_OPS,
    ),
    ("SHADER_FLOAT32_ATOMIC", Capabilities::SHADER_FLOAT32_ATOMIC),
    ("TEXTURE_ATOMIC", Capabilities::TEXTURE_ATOMIC),
    ("TEXTURE_INT64_ATOMIC", Capabilities::TEXTURE_INT64_ATOMIC),
    ("TEXTURE_EXTERNAL", Capabilities::TEXTURE_EXTERNAL),
    ("RAY_QUERY", Capabilities::RAY_QUERY),
    (
        "RAY_HIT_VERTEX_POSITION",
        Capabilities::RAY_HIT_VERTEX_POSITION,
    ),
    ("RAY_TRACING_PIPELINE", Capabilities::RAY_TRACING_PIPELINE),
    ("SHADER_BARYCENTRICS", Capabilities::SHADER_BARYCENTRICS),
    ("MESH_SHADER", Capabilities::MESH_SHADER),
    (
        "MESH_SHADER_POINT_TOPOLOGY",
        Capabilities::MESH_SHADER_POINT_TOPOLOGY,
    ),
    ("PER_VERTEX", Capabilities::PER_VERTEX),
    ("DRAW_INDEX", Capabilities::DRAW_INDEX),
    ("COOPERATIVE_MATRIX", Capabilities::COOPERATIVE_MATRIX),
    (
        "MEMORY_DECORATION_COHERENT",
        Capabilities::MEMORY_DECORATION_COHERENT,
    ),
    (
        "MEMORY_DECORATION_VOLATILE",
        Capabilities::MEMORY_DECORATION_VOLATILE,
    ),
];

impl Word for Capabilities {
    ghost table = { capabilities };

    fn table() -> &'static [(&'static str, Capabilities)] {
        &CAPABILITIES
    }
}

impl SetWord for Capabilities {
    ghost none = { record { 0 = 0 } };

    ghost union = { capability_union };

    fn none() -> Capabilities {
        Capabilities(0)
    }

    fn with(self, other: Capabilities) -> Capabilities {
        Capabilities(self.0 | other.0)
    }
}

static STAGES: [(&str, ShaderStages); 9] = [
    ("VERTEX", ShaderStages::VERTEX),
    ("FRAGMENT", ShaderStages::FRAGMENT),
    ("COMPUTE", ShaderStages::COMPUTE),
    ("MESH", ShaderStages::MESH),
    ("TASK", ShaderStages::TASK),
    ("RAY_GENERATION", ShaderStages::RAY_GENERATION),
    ("ANY_HIT", ShaderStages::ANY_HIT),
    ("CLOSEST_HIT", ShaderStages::CLOSEST_HIT),
    ("MISS", ShaderStages::MISS),
];

impl Word for ShaderStages {
    ghost table = { stages };

    fn table() -> &'static [(&'static str, ShaderStages)] {
        &STAGES
    }
}

impl SetWord for ShaderStages {
    ghost none = { record { 0 = 0 } };

    ghost union = { stage_union };

    fn none() -> ShaderStages {
        ShaderStages(0)
    }

    fn with(self, other: ShaderStages) -> ShaderStages {
        ShaderStages(self.0 | other.0)
    }
}

static OPERATIONS: [(&str, SubgroupOperationSet); 7] = [
    ("BASIC", SubgroupOperationSet::BASIC),
    ("VOTE", SubgroupOperationSet::VOTE),
    ("ARITHMETIC", SubgroupOperationSet::ARITHMETIC),
    ("BALLOT", SubgroupOperationSet::BALLOT),
    ("SHUFFLE", SubgroupOperationSet::SHUFFLE),
    ("SHUFFLE_RELATIVE", SubgroupOperationSet::SHUFFLE_RELATIVE),
    ("QUAD", SubgroupOperationSet::QUAD),
];

impl Word for SubgroupOperationSet {
    ghost table = { operations };

    fn table() -> &'static [(&'static str, SubgroupOperationSet)] {
        &OPERATIONS
    }
}

impl SetWord for SubgroupOperationSet {
    ghost none = { record { 0 = 0 } };

    ghost union = { operation_union };

    fn none() -> SubgroupOperationSet {
        SubgroupOperationSet(0)
    }

    fn with(self, other: SubgroupOperationSet) -> SubgroupOperationSet {
        SubgroupOperationSet(self.0 | other.0)
    }
}

// The word tables of bindings, filters and entry points.
ghost use Rattle.std.specs.Prelude.{◌≡◌};
ghost use Rattle.document_words.specs.Lookup.{lookup};
ghost use Rattle.document_words.specs.Tables.{entry_stages, built_ins, interpolations, samplings, severities, standard_rules, conservative_depths, topologies};

use crate::words::{Word, find_in};
use ir_kinds::{
    BuiltIn, ConservativeDepth, Interpolation, MeshOutputTopology, Sampling, Severity, ShaderStage,
    StandardFilterableTriggeringRule,
};

static BUILT_INS: [(&str, BuiltIn); 47] = [
    ("PrimitiveIndex", BuiltIn::PrimitiveIndex),
    ("ViewIndex", BuiltIn::ViewIndex),
    ("BaseInstance", BuiltIn::BaseInstance),
    ("BaseVertex", BuiltIn::BaseVertex),
    ("ClipDistances", BuiltIn::ClipDistances),
    ("CullDistance", BuiltIn::CullDistance),
    ("InstanceIndex", BuiltIn::InstanceIndex),
    ("PointSize", BuiltIn::PointSize),
    ("VertexIndex", BuiltIn::VertexIndex),
    ("DrawIndex", BuiltIn::DrawIndex),
    ("FragDepth", BuiltIn::FragDepth),
    ("PointCoord", BuiltIn::PointCoord),
    ("FrontFacing", BuiltIn::FrontFacing),
    ("SampleIndex", BuiltIn::SampleIndex),
    ("SampleMask", BuiltIn::SampleMask),
    ("GlobalInvocationId", BuiltIn::GlobalInvocationId),
    ("LocalInvocationId", BuiltIn::LocalInvocationId),
    ("LocalInvocationIndex", BuiltIn::LocalInvocationIndex),
    ("WorkGroupId", BuiltIn::WorkGroupId),
    ("WorkGroupSize", BuiltIn::WorkGroupSize),
    ("NumWorkGroups", BuiltIn::NumWorkGroups),
    ("NumSubgroups", BuiltIn::NumSubgroups),
    ("SubgroupId", BuiltIn::SubgroupId),
    ("SubgroupSize", BuiltIn::SubgroupSize),
    ("SubgroupInvocationId", BuiltIn::SubgroupInvocationId),
    ("MeshTaskSize", BuiltIn::MeshTaskSize),
    ("CullPrimitive", BuiltIn::CullPrimitive),
    ("PointIndex", BuiltIn::PointIndex),
    ("LineIndices", BuiltIn::LineIndices),
    ("TriangleIndices", BuiltIn::TriangleIndices),
    ("VertexCount", BuiltIn::VertexCount),
    ("Vertices", BuiltIn::Vertices),
    ("PrimitiveCount", BuiltIn::PrimitiveCount),
    ("Primitives", BuiltIn::Primitives),
    ("RayInvocationId", BuiltIn::RayInvocationId),
    ("NumRayInvocations", BuiltIn::NumRayInvocations),
    ("InstanceCustomData", BuiltIn::InstanceCustomData),
    ("GeometryIndex", BuiltIn::GeometryIndex),
    ("WorldRayOrigin", BuiltIn::WorldRayOrigin),
    ("WorldRayDirection", BuiltIn::WorldRayDirection),
    ("ObjectRayOrigin", BuiltIn::ObjectRayOrigin),
    ("ObjectRayDirection", BuiltIn::ObjectRayDirection),
    ("RayTmin", BuiltIn::RayTmin),
    ("RayTCurrentMax", BuiltIn::RayTCurrentMax),
    ("ObjectToWorld", BuiltIn::ObjectToWorld),
    ("WorldToObject", BuiltIn::WorldToObject),
    ("HitKind", BuiltIn::HitKind),
];

impl Word for BuiltIn {
    ghost table = { built_ins };

    fn table() -> &'static [(&'static str, BuiltIn)] {
        &BUILT_INS
    }
}

static INTERPOLATIONS: [(&str, Interpolation); 4] = [
    ("Perspective", Interpolation::Perspective),
    ("Linear", Interpolation::Linear),
    ("Flat", Interpolation::Flat),
    ("PerVertex", Interpolation::PerVertex),
];

impl Word for Interpolation {
    ghost table = { interpolations };

    fn table() -> &'static [(&'static str, Interpolation)] {
        &INTERPOLATIONS
    }
}

static SAMPLINGS: [(&str, Sampling); 5] = [
    ("Center", Sampling::Center),
    ("Centroid", Sampling::Centroid),
    ("Sample", Sampling::Sample),
    ("First", Sampling::First),
    ("Either", Sampling::Either),
];

impl Word for Sampling {
    ghost table = { samplings };

    fn table() -> &'static [(&'static str, Sampling)] {
        &SAMPLINGS
    }
}

static SEVERITIES: [(&str, Severity); 4] = [
    ("Off", Severity::Off),
    ("Info", Severity::Info),
    ("Warning", Severity::Warning),
    ("Error", Severity::Error),
];

impl Word for Severity {
    ghost table = { severities };

    fn table() -> &'static [(&'static str, Severity)] {
        &SEVERITIES
    }
}

static STANDARD_RULES: [(&str, StandardFilterableTriggeringRule); 1] = [(
    "DerivativeUniformity",
    StandardFilterableTriggeringRule::DerivativeUniformity,
)];

impl Word for StandardFilterableTriggeringRule {
    ghost table = { standard_rules };

    fn table() -> &'static [(&'static str, StandardFilterableTriggeringRule)] {
        &STANDARD_RULES
    }
}

static CONSERVATIVE_DEPTHS: [(&str, ConservativeDepth); 3] = [
    ("GreaterEqual", ConservativeDepth::GreaterEqual),
    ("LessEqual", ConservativeDepth::LessEqual),
    ("Unchanged", ConservativeDepth::Unchanged),
];

impl Word for ConservativeDepth {
    ghost table = { conservative_depths };

    fn table() -> &'static [(&'static str, ConservativeDepth)] {
        &CONSERVATIVE_DEPTHS
    }
}

static TOPOLOGIES: [(&str, MeshOutputTopology); 3] = [
    ("Points", MeshOutputTopology::Points),
    ("Lines", MeshOutputTopology::Lines),
    ("Triangles", MeshOutputTopology::Triangles),
];

impl Word for MeshOutputTopology {
    ghost table = { topologies };

    fn table() -> &'static [(&'static str, MeshOutputTopology)] {
        &TOPOLOGIES
    }
}

static ENTRY_STAGES: [(&str, ShaderStage); 9] = [
    ("Vertex", ShaderStage::Vertex),
    ("Fragment", ShaderStage::Fragment),
    ("Compute", ShaderStage::Compute),
    ("Mesh", ShaderStage::Mesh),
    ("Task", ShaderStage::Task),
    ("RayGeneration", ShaderStage::RayGeneration),
    ("AnyHit", ShaderStage::AnyHit),
    ("ClosestHit", ShaderStage::ClosestHit),
    ("Miss", ShaderStage::Miss),
];

/// The stage of an entry point by its word, or `None` if there is none. The flags of a stage set have words of their own.
pub fn entry_stage(word: &str) -> Option<ShaderStage>
    ensures { result ≡ lookup word.now entry_stages }
{
    find_in(&ENTRY_STAGES, word)
}

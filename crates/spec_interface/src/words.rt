//! Built-in values by their variants.

ghost use Rattle.std.specs.Prelude.{◌≡◌, ◌↔◌, IsTrue};
ghost use Rattle.spec_interface.specs.judged.Varyings.{canonical};

use ir_kinds::BuiltIn;

/// The variant of the built-in value, without its fields.
pub const fn canonical(built_in: BuiltIn) -> BuiltIn
    ensures { result ≡ canonical built_in }
{
    match built_in {
        BuiltIn::Position { .. } => BuiltIn::Position { invariant: false },
        BuiltIn::Barycentric { .. } => BuiltIn::Barycentric { perspective: false },
        BuiltIn::PrimitiveIndex
        | BuiltIn::ViewIndex
        | BuiltIn::BaseInstance
        | BuiltIn::BaseVertex
        | BuiltIn::ClipDistances
        | BuiltIn::CullDistance
        | BuiltIn::InstanceIndex
        | BuiltIn::PointSize
        | BuiltIn::VertexIndex
        | BuiltIn::DrawIndex
        | BuiltIn::FragDepth
        | BuiltIn::PointCoord
        | BuiltIn::FrontFacing
        | BuiltIn::SampleIndex
        | BuiltIn::SampleMask
        | BuiltIn::GlobalInvocationId
        | BuiltIn::LocalInvocationId
        | BuiltIn::LocalInvocationIndex
        | BuiltIn::WorkGroupId
        | BuiltIn::WorkGroupSize
        | BuiltIn::NumWorkGroups
        | BuiltIn::NumSubgroups
        | BuiltIn::SubgroupId
        | BuiltIn::SubgroupSize
        | BuiltIn::SubgroupInvocationId
        | BuiltIn::MeshTaskSize
        | BuiltIn::CullPrimitive
        | BuiltIn::PointIndex
        | BuiltIn::LineIndices
        | BuiltIn::TriangleIndices
        | BuiltIn::VertexCount
        | BuiltIn::Vertices
        | BuiltIn::PrimitiveCount
        | BuiltIn::Primitives
        | BuiltIn::RayInvocationId
        | BuiltIn::NumRayInvocations
        | BuiltIn::InstanceCustomData
        | BuiltIn::GeometryIndex
        | BuiltIn::WorldRayOrigin
        | BuiltIn::WorldRayDirection
        | BuiltIn::ObjectRayOrigin
        | BuiltIn::ObjectRayDirection
        | BuiltIn::RayTmin
        | BuiltIn::RayTCurrentMax
        | BuiltIn::ObjectToWorld
        | BuiltIn::WorldToObject
        | BuiltIn::HitKind => built_in,
    }
}

// Whether two built-in values are equal, fields included.
#[tactic(auto, using(crate::proofs::Equal::one_built_in))]
fn is_one(left: BuiltIn, right: BuiltIn) -> bool
    ensures { IsTrue result ↔ (left ≡ right) }
{
    left == right
}

/// Whether two built-in values have the same variant, whatever their fields.
pub fn are_same(left: BuiltIn, right: BuiltIn) -> bool
    ensures { IsTrue result ↔ (canonical left ≡ canonical right) }
{
    is_one(canonical(left), canonical(right))
}

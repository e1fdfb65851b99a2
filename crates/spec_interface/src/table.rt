//! The table of built-ins.

ghost use Rattle.std.specs.Prelude.{◌≡◌, false};
ghost use Rattle.ir_kinds.specs.declared.bindings.BuiltIn.TheVariants.{PrimitiveIndex};
ghost use Rattle.spec_interface.specs.judged.BuiltInRows.{built_in_row, but, by, taken, gives, row_with, with_primitive};

use crate::{BuiltInRow, BuiltInType, Exception};
use ir_flags::{Capabilities as C, ShaderStages};
use ir_kinds::{BuiltIn, Scalar, VectorSize};
use typing_forms::Form;

const NONE: ShaderStages = BuiltInRow::NONE;

const VERTEX: ShaderStages = ShaderStages::VERTEX;

const FRAGMENT: ShaderStages = ShaderStages::FRAGMENT;

const WORKGROUPS: ShaderStages = ShaderStages::COMPUTE_LIKE;

const SUBGROUPS: ShaderStages = BuiltInRow::SUBGROUPS;

const HITS: ShaderStages = BuiltInRow::HITS;

const HIT_OR_MISS: ShaderStages = BuiltInRow::HIT_OR_MISS;

const RAYS: ShaderStages = BuiltInRow::RAYS;

const DISTANCES: BuiltInType = BuiltInType::Distances;

const UINT: BuiltInType = BuiltInType::Value(Form::Scalar(Scalar::U32));

const FLOAT: BuiltInType = BuiltInType::Value(Form::Scalar(Scalar::F32));

const TRUTH: BuiltInType = BuiltInType::Value(Form::Scalar(Scalar::BOOL));

const TWO_UINTS: BuiltInType = BuiltInType::Value(Form::Vector {
    size: VectorSize::Bi,
    scalar: Scalar::U32,
});

const THREE_UINTS: BuiltInType = BuiltInType::Value(Form::Vector {
    size: VectorSize::Tri,
    scalar: Scalar::U32,
});

const TWO_FLOATS: BuiltInType = BuiltInType::Value(Form::Vector {
    size: VectorSize::Bi,
    scalar: Scalar::F32,
});

const THREE_FLOATS: BuiltInType = BuiltInType::Value(Form::Vector {
    size: VectorSize::Tri,
    scalar: Scalar::F32,
});

const FOUR_FLOATS: BuiltInType = BuiltInType::Value(Form::Vector {
    size: VectorSize::Quad,
    scalar: Scalar::F32,
});

const FOUR_BY_THREE: BuiltInType = BuiltInType::Value(Form::Matrix {
    columns: VectorSize::Quad,
    rows: VectorSize::Tri,
    scalar: Scalar::F32,
});

// An input of these stages.
const fn given(inputs: ShaderStages, ty: BuiltInType) -> BuiltInRow
    ensures { result ≡ taken inputs ty }
{
    BuiltInRow {
        inputs,
        outputs: NONE,
        primitive: false,
        ty,
        capability: None,
        exception: Exception::None,
    }
}

// An input of these stages that requires a capability, with an exception.
const fn given_by(
    capability: C,
    inputs: ShaderStages,
    ty: BuiltInType,
    exception: Exception,
) -> BuiltInRow
    ensures { result ≡ but exception (by capability (taken inputs ty)) }
{
    BuiltInRow {
        inputs,
        outputs: NONE,
        primitive: false,
        ty,
        capability: Some(capability),
        exception,
    }
}

// An output of these stages.
const fn gives(outputs: ShaderStages, ty: BuiltInType) -> BuiltInRow
    ensures { result ≡ gives outputs ty }
{
    BuiltInRow {
        inputs: NONE,
        outputs,
        primitive: false,
        ty,
        capability: None,
        exception: Exception::None,
    }
}

// An output of these stages that requires a capability.
const fn gives_by(capability: C, outputs: ShaderStages, ty: BuiltInType) -> BuiltInRow
    ensures { result ≡ by capability (gives outputs ty) }
{
    BuiltInRow {
        inputs: NONE,
        outputs,
        primitive: false,
        ty,
        capability: Some(capability),
        exception: Exception::None,
    }
}

// Both an input and an output of these stages.
const fn both(inputs: ShaderStages, outputs: ShaderStages, ty: BuiltInType) -> BuiltInRow
    ensures { result ≡ row_with inputs outputs false ty }
{
    BuiltInRow {
        inputs,
        outputs,
        primitive: false,
        ty,
        capability: None,
        exception: Exception::None,
    }
}

// A primitive output of a mesh shader only.
const fn with_primitive(ty: BuiltInType) -> BuiltInRow
    ensures { result ≡ with_primitive ty }
{
    BuiltInRow {
        inputs: NONE,
        outputs: NONE,
        primitive: true,
        ty,
        capability: Some(C::MESH_SHADER),
        exception: Exception::None,
    }
}

// The indices of a primitive: a primitive output of a mesh shader.
const fn primitive_index() -> BuiltInRow
    ensures { result ≡ built_in_row PrimitiveIndex }
{
    BuiltInRow {
        inputs: BuiltInRow::PRIMITIVES,
        outputs: NONE,
        primitive: true,
        ty: UINT,
        capability: Some(C::PRIMITIVE_INDEX),
        exception: Exception::FreeAtHits,
    }
}

/// The row of a built-in value: its stages, its type, and its capability.
pub const fn built_in_row(built_in: BuiltIn) -> BuiltInRow
    ensures { result ≡ built_in_row built_in }
{
    match built_in {
        BuiltIn::PrimitiveIndex => primitive_index(),
        BuiltIn::Position { .. } => both(FRAGMENT, BuiltInRow::RASTER, FOUR_FLOATS),
        BuiltIn::ViewIndex => given_by(C::MULTIVIEW, BuiltInRow::VIEWS, UINT, Exception::None),
        BuiltIn::BaseInstance | BuiltIn::BaseVertex | BuiltIn::VertexIndex => given(VERTEX, UINT),
        BuiltIn::ClipDistances => gives_by(C::CLIP_DISTANCES, BuiltInRow::RASTER, DISTANCES),
        BuiltIn::CullDistance => gives_by(C::CULL_DISTANCE, BuiltInRow::RASTER, DISTANCES),
        BuiltIn::InstanceIndex => given(BuiltInRow::INSTANCES, UINT),
        BuiltIn::PointSize => gives(BuiltInRow::RASTER, FLOAT),
        BuiltIn::DrawIndex => {
            given_by(
                C::DRAW_INDEX,
                BuiltInRow::DRAWS,
                UINT,
                Exception::NotAfterTasks,
            )
        }
        BuiltIn::FragDepth => gives(FRAGMENT, FLOAT),
        BuiltIn::PointCoord => given(FRAGMENT, TWO_FLOATS),
        BuiltIn::FrontFacing => given(FRAGMENT, TRUTH),
        BuiltIn::Barycentric { .. } => {
            given_by(
                C::SHADER_BARYCENTRICS,
                FRAGMENT,
                THREE_FLOATS,
                Exception::None,
            )
        }
        BuiltIn::SampleIndex => given_by(C::MULTISAMPLED_SHADING, FRAGMENT, UINT, Exception::None),
        BuiltIn::SampleMask => both(FRAGMENT, FRAGMENT, UINT),
        BuiltIn::LocalInvocationIndex => given(WORKGROUPS, UINT),
        BuiltIn::GlobalInvocationId
        | BuiltIn::LocalInvocationId
        | BuiltIn::WorkGroupId
        | BuiltIn::WorkGroupSize
        | BuiltIn::NumWorkGroups => given(WORKGROUPS, THREE_UINTS),
        BuiltIn::NumSubgroups => given_by(C::SUBGROUP, WORKGROUPS, UINT, Exception::None),
        BuiltIn::SubgroupId => given_by(C::SUBGROUP, WORKGROUPS, UINT, Exception::RowsOnly),
        BuiltIn::SubgroupSize => given_by(C::SUBGROUP, SUBGROUPS, UINT, Exception::None),
        BuiltIn::SubgroupInvocationId => given_by(
            C::SUBGROUP,
            SUBGROUPS,
            UINT,
            Exception::RowsOnly,
        ),
        BuiltIn::MeshTaskSize => gives_by(C::MESH_SHADER, ShaderStages::TASK, THREE_UINTS),
        BuiltIn::CullPrimitive => with_primitive(TRUTH),
        BuiltIn::PointIndex => with_primitive(UINT),
        BuiltIn::LineIndices => with_primitive(TWO_UINTS),
        BuiltIn::TriangleIndices => with_primitive(THREE_UINTS),
        BuiltIn::VertexCount | BuiltIn::Vertices | BuiltIn::PrimitiveCount | BuiltIn::Primitives =>
            given(NONE, UINT),
        BuiltIn::RayInvocationId | BuiltIn::NumRayInvocations => both(RAYS, RAYS, THREE_UINTS),
        BuiltIn::InstanceCustomData | BuiltIn::GeometryIndex | BuiltIn::HitKind => {
            both(HITS, HITS, UINT)
        }
        BuiltIn::WorldRayOrigin | BuiltIn::WorldRayDirection => both(
            HIT_OR_MISS,
            HIT_OR_MISS,
            THREE_FLOATS,
        ),
        BuiltIn::ObjectRayOrigin | BuiltIn::ObjectRayDirection => both(HITS, HITS, THREE_FLOATS),
        BuiltIn::RayTmin | BuiltIn::RayTCurrentMax => both(HIT_OR_MISS, HIT_OR_MISS, FLOAT),
        BuiltIn::ObjectToWorld | BuiltIn::WorldToObject => both(HITS, HITS, FOUR_BY_THREE),
    }
}

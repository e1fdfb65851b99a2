// Ray queries: the structs of their input and output (extensions ray_query and ray_tracing_position_fetch).

use ir_arena::handle::Handle;
use ir_arena::span::Span;
use ir_kinds::{BinaryOperator, Literal, Scalar, ScalarKind, VectorSize};
use ir_types::{ArraySize, Expression, IrType, StructMember, TypeInner};
use spirv_expressions::{Builder, Value, as_kind, binary, part_of};
use spirv_numbers::ops;
use spirv_types::{TypeHandle, Types, insert, vector_type};
use spirv_words::{Failure, Instruction, SpirvError};
use std::alloc::{AllocError, Global};

/// The types for ray queries.
#[derive(Clone, Copy)]
pub struct RayTypes {
    /// The ray descriptor.
    pub descriptor: Option<TypeHandle>,
    /// The intersection.
    pub intersection: Option<TypeHandle>,
    /// The vertex positions of a hit.
    pub vertices: Option<TypeHandle>,
}

// A member: its name, number of components, scalar, and offset in bytes.
type Row = (&'static str, Option<VectorSize>, Scalar, u32);

static DESCRIPTOR: [Row; 6] = [
    ("flags", None, Scalar::U32, 0),
    ("cull_mask", None, Scalar::U32, 4),
    ("tmin", None, Scalar::F32, 8),
    ("tmax", None, Scalar::F32, 12),
    ("origin", Some(VectorSize::Tri), Scalar::F32, 16),
    ("dir", Some(VectorSize::Tri), Scalar::F32, 32),
];

// Members of four components are matrices of four columns with three rows.
static INTERSECTION: [Row; 11] = [
    ("kind", None, Scalar::U32, 0),
    ("t", None, Scalar::F32, 4),
    ("instance_custom_data", None, Scalar::U32, 8),
    ("instance_index", None, Scalar::U32, 12),
    ("sbt_record_offset", None, Scalar::U32, 16),
    ("geometry_index", None, Scalar::U32, 20),
    ("primitive_index", None, Scalar::U32, 24),
    ("barycentrics", Some(VectorSize::Bi), Scalar::F32, 32),
    ("front_face", None, Scalar::BOOL, 40),
    ("object_to_world", Some(VectorSize::Quad), Scalar::F32, 48),
    ("world_to_object", Some(VectorSize::Quad), Scalar::F32, 112),
];

impl RayTypes {
    /// None.
    pub const NONE: RayTypes = RayTypes {
        descriptor: None,
        intersection: None,
        vertices: None,
    };

    /// Builds them.
    pub fn of<T: Types>(alloc: Global, built: &mut T, failed: &mut Failure) -> RayTypes {
        let descriptor = struct_of(alloc, built, "RayDesc", &DESCRIPTOR, 48, failed);
        let found = struct_of(alloc, built, "RayIntersection", &INTERSECTION, 176, failed);
        let base = type_of(built, Some(VectorSize::Tri), Scalar::F32, failed);
        let size = ArraySize::Constant(3);
        let stride = 16;
        let corners = TypeInner::Array { base, size, stride };
        RayTypes {
            descriptor: Some(descriptor),
            intersection: Some(found),
            vertices: Some(insert(built, corners, Span::UNDEFINED, failed)),
        }
    }
}

// The type of a member.
fn type_of<T: Types>(
    built: &mut T,
    size: Option<VectorSize>,
    scalar: Scalar,
    failed: &mut Failure,
) -> TypeHandle {
    if size != Some(VectorSize::Quad) {
        return failed.take(vector_type(built, size, scalar), Handle::at(0));
    }
    let matrix = TypeInner::Matrix {
        columns: VectorSize::Quad,
        rows: VectorSize::Tri,
        scalar,
    };
    insert(built, matrix, Span::UNDEFINED, failed)
}

// A name, if there is memory for it.
fn named(name: Result<String, AllocError>, failed: &mut Failure) -> Option<String> {
    match name {
        Ok(name) => Some(name),
        Err(_) => {
            failed.fail(SpirvError::Memory);
            None
        }
    }
}

// A struct of these members.
fn struct_of<T: Types>(
    alloc: Global,
    built: &mut T,
    name: &str,
    rows: &[Row],
    span: u32,
    failed: &mut Failure,
) -> TypeHandle {
    let mut members = Vec::new(alloc);
    for row in rows {
        let member = StructMember {
            name: named(String::from_str(alloc, row.0), failed),
            ty: type_of(built, row.1, row.2, failed),
            binding: None,
            offset: row.3,
        };
        failed.push(&mut members, member);
    }
    let inner = TypeInner::Struct { members, span };
    let name = named(String::from_str(alloc, name), failed);
    let made = built.insert(IrType { name, inner }, Span::UNDEFINED);
    failed.take(made, Handle::at(0))
}

// Instructions that read a member of an intersection, in the order of the members from the distance to the front face.
const GET_T: u16 = 6018;

const GET_FRONT_FACE: u16 = 6025;

const GET_OBJECT_TO_WORLD: u16 = 6031;

const GET_WORLD_TO_OBJECT: u16 = 6032;

// The member of an intersection that an instruction reads.
fn member_of(opcode: u16) -> Option<u32> {
    match opcode {
        ops::RAY_QUERY_GET_INTERSECTION_TYPE => Some(0),
        GET_T..=GET_FRONT_FACE => Some(u32::from(opcode.saturating_sub(GET_T)).saturating_add(1)),
        GET_OBJECT_TO_WORLD => Some(9),
        GET_WORLD_TO_OBJECT => Some(10),
        _ => None,
    }
}

/// What an instruction reads of a query: of the candidate (its second operand is 0) or the committed intersection (1).
pub fn found<B: Builder>(builder: &mut B, operation: &Instruction, query: Value) -> Option<Value> {
    let id = builder.given(operation, 1)?;
    let committed = match builder.constant(id) {
        Some(0) => false,
        Some(1) => true,
        _ => return None,
    };
    if operation.opcode == ops::RAY_QUERY_GET_TRIANGLE_VERTEX_POSITIONS {
        let vertices = Expression::RayQueryVertexPositions { query, committed };
        return Some(builder.emit(vertices, operation));
    }
    let member = member_of(operation.opcode)?;
    let whole = Expression::RayQueryGetIntersection { query, committed };
    let whole = builder.emit(whole, operation);
    let mut value = part_of(builder, operation, whole, member);
    if member == 0 && !committed {
        // a triangle is 1 and a box 3 in the IR, 0 and 1 in SPIR-V
        let one = builder.literal(Literal::U32(1), operation);
        value = binary(builder, operation, BinaryOperator::ShiftRight, value, one);
    }
    if builder.shape(operation.ty).kind() == Some(ScalarKind::Sint) {
        value = as_kind(
            builder,
            operation,
            value,
            ScalarKind::Uint,
            ScalarKind::Sint,
        );
    }
    Some(value)
}

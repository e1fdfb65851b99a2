// Predeclared structs: those for ray queries, and the construction of members.

use crate::lowering::Lowering;
use ir_flags::Capabilities;
use ir_kinds::{Scalar, VectorSize};
use ir_types::{ArraySize, StructMember};
use std::alloc::AllocError;
use wgsl_builtins::RayWord;
use wgsl_text::{Extent, Failure, WgslError};
use wgsl_tree::Part;
use wgsl_types::{Builder, Layout, RayStruct, Shape, TypeMember};

// A member: its name, its type, and its offset in bytes.
type Row = (&'static str, Shape, u32);

const WORD: Shape = Shape::Scalar(Scalar::U32);

const NUMBER: Shape = Shape::Scalar(Scalar::F32);

const POINT: Shape = Shape::Vector(VectorSize::Tri, Scalar::F32);

const TRANSFORM: Shape = Shape::Matrix(VectorSize::Quad, VectorSize::Tri, Scalar::F32);

static DESCRIPTOR: [Row; 6] = [
    ("flags", WORD, 0),
    ("cull_mask", WORD, 4),
    ("tmin", NUMBER, 8),
    ("tmax", NUMBER, 12),
    ("origin", POINT, 16),
    ("dir", POINT, 32),
];

static INTERSECTION: [Row; 11] = [
    ("kind", WORD, 0),
    ("t", NUMBER, 4),
    ("instance_custom_data", WORD, 8),
    ("instance_index", WORD, 12),
    ("sbt_record_offset", WORD, 16),
    ("geometry_index", WORD, 20),
    ("primitive_index", WORD, 24),
    (
        "barycentrics",
        Shape::Vector(VectorSize::Bi, Scalar::F32),
        32,
    ),
    ("front_face", Shape::Scalar(Scalar::BOOL), 40),
    ("object_to_world", TRANSFORM, 48),
    ("world_to_object", TRANSFORM, 112),
];

impl<B: Builder> Lowering<B> {
    // The word index of a name; a placeholder if the text does not contain it.
    fn word_number(&self, name: &str) -> u32 {
        let count = u32::try_from(self.tree.tokens.names.len()).unwrap_or(u32::MAX);
        for number in 0..count {
            if self.tree.tokens.word(number) == name.as_bytes() {
                return number;
            }
        }
        u32::MAX
    }

    /// A name, or `None` if out of memory.
    pub fn made_name(&mut self, made: Result<String, AllocError>) -> Option<String> {
        match made {
            Ok(made) => Some(made),
            Err(_) => {
                self.fail(WgslError::MEMORY);
                None
            }
        }
    }

    /// Adds a member to a predeclared struct.
    pub fn add_member(
        &mut self,
        built: &mut Vec<StructMember>,
        name: &'static str,
        shape: Shape,
        offset: u32,
        extent: Extent,
    ) {
        let made = String::from_str(self.alloc, name);
        let member = StructMember {
            name: self.made_name(made),
            ty: self.type_handle(shape, extent),
            binding: None,
            offset,
        };
        let mut failed = Failure::NONE;
        failed.push(built, member);
        let name = self.word_number(name);
        failed.push(&mut self.table.members, TypeMember { name, shape });
        self.join(&failed);
    }

    // Adds a struct with these members and this size in bytes.
    fn ray_struct(&mut self, name: &'static str, rows: &[Row], size: u64, extent: Extent) -> Shape {
        let start = u32::try_from(self.table.members.len()).unwrap_or(u32::MAX);
        let mut built = Vec::new(self.alloc);
        for row in rows {
            self.add_member(&mut built, row.0, row.1, row.2, extent);
        }
        let end = u32::try_from(self.table.members.len()).unwrap_or(u32::MAX);
        let layout = Layout {
            size,
            alignment: 16,
        };
        let made = String::from_str(self.alloc, name);
        let name = self.made_name(made);
        let members = Part { start, end };
        self.table
            .structure(&mut self.builder, name, built, members, layout, extent)
    }

    /// A special type for ray queries, which is created once.
    pub fn ray_type(&mut self, of: RayStruct, extent: Extent) -> Shape {
        if let Some(shape) = self.table.ray_type(of) {
            return shape;
        }
        let shape = match of {
            RayStruct::Descriptor => self.ray_struct("RayDesc", &DESCRIPTOR, 48, extent),
            RayStruct::Intersection => {
                self.ray_struct("RayIntersection", &INTERSECTION, 176, extent)
            }
            RayStruct::Vertices => {
                let size = ArraySize::Constant(3);
                self.table.array(&mut self.builder, POINT, &size, extent)
            }
        };
        let ty = self.type_handle(shape, extent);
        self.builder.predeclare_rays(of, ty);
        let mut failed = Failure::NONE;
        failed.push(&mut self.table.rays, (of, shape));
        self.join(&failed);
        shape
    }

    // The type that a predeclared identifier for ray queries denotes, with vertex positions or not.
    pub(crate) fn ray_word(&mut self, word: RayWord, vertex_return: bool, extent: Extent) -> Shape {
        let enabled = self.tree.enabled.0;
        let wanted = Capabilities::RAY_QUERY.0 | Capabilities::RAY_TRACING_PIPELINE.0;
        if enabled & wanted == 0 {
            self.wrong(
                "the `wgpu_ray_query` enable extension is not enabled",
                extent,
            );
        }
        if vertex_return && enabled & Capabilities::RAY_HIT_VERTEX_POSITION.0 == 0 {
            self.wrong(
                "the `wgpu_ray_query_vertex_return` enable extension is not enabled",
                extent,
            );
        }
        match word {
            RayWord::AccelerationStructure => Shape::AccelerationStructure(vertex_return),
            RayWord::Query => Shape::RayQuery(vertex_return),
            RayWord::Descriptor => self.ray_type(RayStruct::Descriptor, extent),
            RayWord::Intersection => self.ray_type(RayStruct::Intersection, extent),
        }
    }
}
